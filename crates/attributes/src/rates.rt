// U charts: a sample's size is in how many units.
ghost use Rattle.std.specs.Prelude.{◌≡◌};
ghost use Rattle.attributes.specs.Kinds.{rate_allowed, sample_u, rates};
ghost use Rattle.attributes.specs.Evaluating.{right};

use super::checks::MOST;
use super::{Ours, Refusal, Size};

// Whether a rate, or units, are finite and above zero. Two comparisons, so that a loop can take several units at a time.
fn allowed(u: f64) -> bool
    ensures { result ≡ rate_allowed u }
{
    (0.0 < u) & (u <= floats::LARGEST)
}

fn sample_right(damaged: u64, units: f64) -> bool
    ensures { result ≡ right (sample_u damaged units) }
{
    let none = !allowed(units);
    !((MOST < damaged) | none)
}

impl Size for f64 {
    ghost kind = { rates };

    fn allows(_ours: Ours, centre: f64) -> bool {
        allowed(centre)
    }

    // 16 and 19.
    fn sample(_ours: Ours, damaged: u64, units: f64) -> Result<(), Refusal> {
        if MOST < damaged {
            return Err(Refusal::Count);
        }
        if !allowed(units) {
            return Err(Refusal::Units);
        }
        Ok(())
    }

    fn are_right(_ours: Ours, count: usize, counts: &[u64], sizes: &[f64]) -> bool {
        let mut all = true;
        for i in 0..count {
            all = all & sample_right(counts[i], sizes[i]);
        }
        all
    }

    fn total(_ours: Ours, units: &[f64]) -> f64 {
        arith::sum_of(units)
    }

    fn variance(_ours: Ours, cl: f64) -> f64 {
        cl
    }

    // The sizes as they are, where the points' sigmas are to take their place.
    fn fill(_ours: Ours, n: usize, sizes: &[f64], out: &mut [f64]) {
        out[..n].copy_from_slice(&sizes[..n]);
    }
}
