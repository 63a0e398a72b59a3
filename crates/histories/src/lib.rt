// The second engine of marking: what it keeps of a lane's past are bits, and not values. It is given one value after the
// other, as many as come.
#![tactic(auto)]

mod reading;

ghost use Rattle.std.specs.Prelude.{◌≡◌, suc};
ghost use Rattle.histories.specs.Lanes.{pushed, held, after, fresh};
ghost use Rattle.histories.specs.Taking.{taken, take_value};

use rules::{Limits, Lines, OWN_WIDTHS, Refusal};
use sets::RuleSet;

// How many values the longest window has: the number of values seen is held at it.
const LONGEST: u16 = 15;

/// What is kept of a lane between two values, in 32 bytes: the last value; for each zone and each step direction a history,
/// which has for each of the last sixteen values a bit that says whether it lies there, or came by such a step, the newest in
/// bit 0; and how many values were seen, held at 15.
///
/// The fields may be any, and every lane has its answer: a number of values seen over 15 counts as 15.
#[derive(Clone, Copy, Debug, PartialEq)]
pub struct Lane {
    /// The last value.
    pub last: f64,
    /// Beyond the limits.
    pub beyond: u16,
    /// Above the centre line.
    pub above: u16,
    /// Below the centre line.
    pub below: u16,
    /// A rise from the value before it.
    pub rising: u16,
    /// A fall from the value before it.
    pub falling: u16,
    /// More than one sigma above the centre line.
    pub above1: u16,
    /// More than one sigma below it.
    pub below1: u16,
    /// More than two sigma above it.
    pub above2: u16,
    /// More than two sigma below it.
    pub below2: u16,
    /// Within one sigma of it.
    pub within1: u16,
    /// More than one sigma from it, on either side.
    pub beyond1: u16,
    /// How many values were seen, held at 15.
    pub seen: u16,
}

// A history with one value more: the bits move up by one, and the oldest falls off. The cast is as in `reading`.
fn push(h: u16, b: bool) -> u16
    ensures { result ≡ pushed b h }
{
    (h << 1) | (b as u16)
}

// One value more seen.
fn hold(seen: u16) -> u16
    ensures { result ≡ held (suc seen) }
{
    if seen < LONGEST {
        return seen + 1;
    }
    LONGEST
}

impl Lane {
    /// A lane that has seen no value: the start, and the start again after the belt stood still.
    ///
    /// Refuses nothing.
    ///
    /// All fields of `Lane::start()` are zero.
    pub fn start() -> Lane
        ensures { result ≡ fresh }
    {
        Lane {
            last: 0.0,
            beyond: 0,
            above: 0,
            below: 0,
            rising: 0,
            falling: 0,
            above1: 0,
            below1: 0,
            above2: 0,
            below2: 0,
            within1: 0,
            beyond1: 0,
            seen: 0,
        }
    }

    // The lane after the value v.
    fn after(self, l: Lines, v: f64) -> Lane
        ensures { result ≡ after l self v }
    {
        let u = self.last;
        Lane {
            last: v,
            beyond: push(self.beyond, (l.ucl < v) | (v < l.lcl)),
            above: push(self.above, l.cl < v),
            below: push(self.below, v < l.cl),
            rising: push(self.rising, u < v),
            falling: push(self.falling, v < u),
            above1: push(self.above1, l.above1 < v),
            below1: push(self.below1, v < l.below1),
            above2: push(self.above2, l.above2 < v),
            below2: push(self.below2, v < l.below2),
            within1: push(self.within1, (l.below1 <= v) & (v <= l.above1)),
            beyond1: push(self.beyond1, (l.above1 < v) | (v < l.below1)),
            seen: hold(self.seen),
        }
    }

    /// Takes one value more, and marks it: test b of the set is set in bit b of the marks exactly where the window of the test
    /// that ends at the value fits and shows the test's pattern, among the values taken since [`Lane::start`] under these same
    /// limits and by this same width mode, which [`rules::mark`] explains. They may be any number; the set may be another at each.
    ///
    /// Gives `Ok` with the marks, and the lane is the one after the value.
    ///
    /// # Refusals
    ///
    /// In marking's order, with the lane as it was: a set over 511 (4), a width mode that is not 0 or 1 (21), limits that are not
    /// all finite (3), a value that is not finite (3).
    ///
    /// # Example
    ///
    /// Nine values of 26.5 under the limits 28.0, 25.0, 22.0 and the set nelson: the marks are 0, 0, 0, 0, 32, 32, 32, 160, 162,
    /// as [`rules::mark`] has them.
    ///
    /// ```
    /// let limits = Limits { ucl: 28.0, cl: 25.0, lcl: 22.0 };
    /// let mut lane = Lane::start();
    /// lane.take(26.5, limits, 0, RuleSet::nelson());   // Ok(0)
    /// lane.take(26.5, limits, 0, RuleSet::nelson());   // Ok(0)
    /// ```
    pub fn take(
        &mut self,
        value: f64,
        limits: Limits,
        width: u64,
        set: RuleSet,
    ) -> Result<u16, Refusal>
        ensures { taken result self.new ≡ take_value limits width set.mask self.old value }
    {
        if RuleSet::ALL < set.mask {
            return Err(Refusal::SetTooLarge);
        }
        if OWN_WIDTHS < width {
            return Err(Refusal::WidthMode);
        }
        if !rules::finite_limits(limits) {
            return Err(Refusal::NotFinite);
        }
        if !floats::is_finite(value) {
            return Err(Refusal::NotFinite);
        }
        *self = self.after(rules::lines_of(limits, width), value);
        Ok(reading::marks(*self, set.mask))
    }
}
