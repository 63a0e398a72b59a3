// The values of a case given one by one to the engine that keeps histories in bits.
use histories::Lane;
use rules::{OWN_WIDTHS, Refusal, Terms};
use sets::RuleSet;

/// Marks each value by a lane that is started again at each stop. Refuses stops that are none of the series (15), then as the
/// first value that is refused, and last, where there are no values, a bad width mode (21), which no lane is then told.
pub fn mark(values: &[f64], terms: Terms, set: RuleSet, marks: &mut [u16]) -> Result<(), Refusal> {
    if stops::wrong(terms.stops, terms.moving, values.len()) {
        return Err(Refusal::Stops);
    }
    let mut lane = Lane::start();
    for (i, (value, mark)) in values.iter().zip(marks.iter_mut()).enumerate() {
        if stops::since(terms.stops, terms.moving, i) == i {
            lane = Lane::start();
        }
        *mark = lane.take(*value, terms.limits, terms.width, set)?;
    }
    if OWN_WIDTHS < terms.width {
        return Err(Refusal::WidthMode);
    }
    Ok(())
}
