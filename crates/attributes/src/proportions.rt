// P charts: a sample's size is how many parcels were inspected.
ghost use Rattle.std.specs.Prelude.{◌≡◌, ◌^◌, nat_lt};
ghost use Rattle.attributes.specs.Kinds.{sample_p, proportions};
ghost use Rattle.attributes.specs.Evaluating.{right};

use super::checks::MOST;
use super::{Ours, Refusal, Size, totals};

// Has a bit above the lowest 32 exactly where one of the three applies: a count that is too large has one, and so has a
// difference that wraps around below zero. So samples can be judged by the bits of all of them together.
fn excess(damaged: u64, inspected: u64) -> u64
    ensures { nat_lt result (2 ^ 32) ≡ right (sample_p damaged inspected) }
{
    let rest = inspected.wrapping_sub(damaged);
    let less = inspected.wrapping_sub(1);
    damaged | inspected | rest | less
}

impl Size for u64 {
    ghost kind = { proportions };

    fn allows(_ours: Ours, centre: f64) -> bool {
        floats::is_finite(centre) & (0.0 < centre) & (centre < 1.0)
    }

    // 16, 17 and 18.
    fn sample(_ours: Ours, damaged: u64, inspected: u64) -> Result<(), Refusal> {
        if (MOST < damaged) | (MOST < inspected) {
            return Err(Refusal::Count);
        }
        if inspected == 0 {
            return Err(Refusal::NoSize);
        }
        if inspected < damaged {
            return Err(Refusal::Damaged);
        }
        Ok(())
    }

    fn are_right(_ours: Ours, count: usize, counts: &[u64], sizes: &[u64]) -> bool {
        let mut bits: u64 = 0;
        for i in 0..count {
            bits |= excess(counts[i], sizes[i]);
        }
        bits <= MOST
    }

    fn total(_ours: Ours, sizes: &[u64]) -> f64 {
        std::num::nearest_u64_to_f64(totals::total(sizes))
    }

    fn variance(_ours: Ours, cl: f64) -> f64 {
        cl * (1.0 - cl)
    }

    // Sizes that 14 does not refuse fit a u32, whose cast takes least.
    fn fill(_ours: Ours, n: usize, sizes: &[u64], out: &mut [f64]) {
        for i in 0..n {
            out[i] = f64::from(sizes[i] as u32);
        }
    }
}
