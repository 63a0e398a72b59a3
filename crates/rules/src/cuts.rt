// What stops take away from the marks of a series: behind a cut, as at the front of a series, few windows fit.
ghost use Rattle.std.specs.Prelude.{◌≡◌};
ghost use Rattle.stops.specs.Cuts.{by_stop, by_stops};
ghost use Rattle.rules.specs.Cuts.{cut_marks};

use super::codes;

// Takes away what reaches over a cut before position q.
fn cut_before(q: usize, marks: &mut [u16])
    ensures { marks.new ≡ cut_marks q marks.old }
{
    let n = marks.len();
    if n <= q {
        return;
    }
    codes::fit(0, (n - q).min(14), &mut marks[q..]);
}

// Takes away what reaches over a stop.
fn cut_by_stop(p: usize, moving: bool, marks: &mut [u16])
    ensures { marks.new ≡ by_stop cut_marks p moving marks.old }
{
    if moving & (0 < p) {
        cut_before(p - 1, marks);
        cut_before(p, marks);
        return;
    }
    cut_before(p, marks);
}

// Takes away what reaches over any of the stops.
pub fn part(stops: &[usize], moving: bool, marks: &mut [u16])
    ensures { marks.new ≡ by_stops cut_marks stops.now moving marks.old }
{
    for &p in stops {
        cut_by_stop(p, moving, marks);
    }
}
