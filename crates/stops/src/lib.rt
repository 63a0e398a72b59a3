// Stops on the belt: which lists of positions are stops of a series, and where they cut it.
#![tactic(auto)]

ghost use Rattle.std.specs.Prelude.{◌≡◌, leb};
ghost use Rattle.stops.specs.Stops.{cut_at, since, stops_wrong, main_points};
ghost use Rattle.stops.specs.Cuts.{by_stop, nearer};

// Stops and whether they are of moving ranges come apart, as the definitions take them (`stops_wrong`, `cut_at`): a struct of
// the two would have no call of its own but these, and is no plainer.

// Whether a position is past the last of the main series.
fn past_the_last(p: usize, moving: bool, points: usize) -> bool
    ensures { result ≡ leb (main_points moving points) p }
{
    if moving {
        return points < p;
    }
    points <= p
}

// The first position next to `at`, where it was `first` and there is a cut before q as well.
fn nearer(first: usize, q: usize, at: usize) -> usize
    ensures { result ≡ nearer at q first }
{
    if (q <= at) & (first < q) {
        return q;
    }
    first
}

// The same for the cuts of a stop.
fn after_stop(first: usize, p: usize, moving: bool, at: usize) -> usize
    ensures { result ≡ by_stop (nearer at) p moving first }
{
    if moving & (0 < p) {
        return nearer(nearer(first, p - 1, at), p, at);
    }
    nearer(first, p, at)
}

/// Whether positions are no stops of a series of so many points (15): they do not rise strictly, or one is outside 1 to the
/// points of the main series less one. A series of moving ranges (`moving`) has one point fewer than its main series.
///
/// Refuses nothing.
///
/// Of the positions 3 and 9 and ten points it is no; of nine points it is yes, unless they are moving ranges.
pub fn wrong(stops: &[usize], moving: bool, points: usize) -> bool
    ensures { result ≡ stops_wrong (main_points moving points) stops.now }
{
    let mut last = 0;
    for &p in stops {
        if (p <= last) | past_the_last(p, moving, points) {
            return true;
        }
        last = p;
    }
    false
}

/// The first of the positions that stand next to each other in time up to position `at`: that of the last cut, or 0. A stop at
/// p cuts a series before p, and one of moving ranges (`moving`) also before p - 1.
///
/// Refuses nothing: the stops may be any numbers.
///
/// With a stop at 3 it is 0 at position 2, and 3 at positions 3 and 4; on moving ranges it is 2 at position 2.
pub fn since(stops: &[usize], moving: bool, at: usize) -> usize
    ensures { result ≡ since (cut_at stops.now moving) at }
{
    let mut first = 0;
    for &p in stops {
        first = after_stop(first, p, moving, at);
    }
    first
}
