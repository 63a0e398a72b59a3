// What evaluating and the sigma figures test ahead of the arithmetic.
ghost use Rattle.std.specs.Prelude.{◌≡◌};
ghost use Rattle.laws.specs.Refusals.{first_of};
ghost use Rattle.evaluating.specs.Asked.{asked};
ghost use Rattle.evaluating.specs.Evaluating.{positions_wrong, too_few, no_room};
ghost use Rattle.evaluating.specs.Steps.{ahead, tested};

use super::kinds::{Kind, kind_of};
use super::series::lengths_in;
use charts::{Chart, Refusal};

// Whether the record counts more stops than there are positions, or these are no stops of the chart.
#[tactic(auto, unfolding(crate::specs::Evaluating::positions_wrong, crate::specs::Series::points_in, crate::specs::Series::by_series))]
pub fn positions_wrong(c: Chart, positions: &[usize]) -> bool
    ensures { result ≡ positions_wrong c positions.now }
{
    match positions.get(..c.stops) {
        None => true,
        Some(stops) => stops::wrong(stops, false, c.count),
    }
}

#[tactic(auto, unfolding(crate::specs::Evaluating::too_few, charts::specs::Records::by_kind))]
fn too_few(c: Chart) -> bool
    ensures { result ≡ too_few c }
{
    match kind_of(c) {
        Kind::Individuals => c.count < 2,
        Kind::Ranges | Kind::Deviations => c.count < 1,
    }
}

// Whether a lent slice is too short for its series.
#[tactic(auto, unfolding(crate::specs::Evaluating::no_room))]
pub fn no_room(
    c: Chart,
    main: usize,
    dispersion: usize,
    main_marks: usize,
    dispersion_marks: usize,
) -> bool
    ensures { result ≡ no_room c main dispersion main_marks dispersion_marks }
{
    let points = lengths_in(c);
    (main < points.main)
        | (main_marks < points.main)
        | (dispersion < points.dispersion)
        | (dispersion_marks < points.dispersion)
}

// 14, 15 where positions are wrong, 21 where the width mode is, 8, 6 where a lent slice is too short, and 3. The three answers
// come as the definition `ahead` takes them, for one order of refusals; the sigma figures, which are lent no positions and no
// slices, have `false` for each.
#[tactic(auto, unfolding(laws::specs::Refusals::first_of))]
pub fn check(
    c: Chart,
    values: &[f64],
    wrong: bool,
    bad_width: bool,
    short: bool,
) -> Result<(), Refusal>
    ensures { tested result ≡ first_of (ahead (asked c values.now) wrong bad_width short) 0 }
{
    if c.record_wrong(values.len()) {
        return Err(Refusal::Record);
    }
    if wrong {
        return Err(Refusal::Stops);
    }
    if bad_width {
        return Err(Refusal::WidthMode);
    }
    if too_few(c) {
        return Err(Refusal::TooFew);
    }
    if short {
        return Err(Refusal::TooShort);
    }
    let end = c.count * c.size;
    if !floats::all_finite(&values[..end]) {
        return Err(Refusal::NotFinite);
    }
    Ok(())
}
