// What of a chart is its kind's own, by what the size of a sample is.
ghost use Rattle.std.specs.Prelude.{◌≡◌, ◌≤◌, true, nat_lt, length, map};
ghost use Rattle.laws.specs.Bools.{every};
ghost use Rattle.laws.specs.Refusals.{first_of};
ghost use Rattle.laws.specs.Front.{at_front};
ghost use Rattle.attributes.specs.Kinds.{Kind};
ghost use Rattle.attributes.specs.Evaluating.{stored_right};
ghost use Rattle.attributes.specs.Steps.{tested, SmallTo, FineTo};

use super::Refusal;

/// What only this crate can have, since it has no name outside: a trait's functions are as public as the trait, and those that take this
/// can be called from here alone.
#[derive(Clone, Copy)]
pub struct Ours;

/// The size of a sample: how many parcels were inspected, of a P chart (u64), or units, of a U chart (f64).
///
/// How many samples count comes beside slices that may be longer, as the definitions take them (`stored_right`, a kind's
/// `sizes`): that cut slices say the same would be a law more of each kind, which is no plainer.
pub trait Size: Copy {
    ghost kind: { Kind Self };

    /// Whether a chart may have the centre.
    fn allows(ours: Ours, centre: f64) -> bool
        ensures { result ≡ kind.allowed centre };

    /// Tests a sample: 16, and then 17 and 18, or 19.
    fn sample(ours: Ours, damaged: u64, size: Self) -> Result<(), Refusal>
        ensures tests { tested result ≡ first_of (kind.sample damaged size) 0 }
        ensures numbers { every (map (λ r. nat_lt 0 r.1) (kind.sample damaged size)) ≡ true };

    /// Whether the first so many samples are none that are refused.
    fn are_right(ours: Ours, count: usize, counts: &[u64], sizes: &[Self]) -> bool
        requires { (count ≤ length counts.now) × (count ≤ length sizes.now) }
        ensures is { result ≡ stored_right kind count counts.now sizes.now }
        ensures counts { result ≡ true → SmallTo count counts.now }
        ensures sizes { result ≡ true → FineTo kind count sizes.now };

    /// All sizes together.
    fn total(ours: Ours, sizes: &[Self]) -> f64
        requires { (length sizes.now ≤ 4096) × FineTo kind (length sizes.now) sizes.now }
        ensures { result ≡ kind.total sizes.now };

    /// What a point's variance is over its size.
    fn variance(ours: Ours, cl: f64) -> f64
        ensures { result ≡ kind.variance cl };

    /// The first so many sizes as f64s, in front of a slice.
    fn fill(ours: Ours, n: usize, sizes: &[Self], out: &mut [f64])
        requires { (n ≤ length sizes.now) × (n ≤ length out.old) × FineTo kind n sizes.now }
        ensures value { out.new ≡ at_front (kind.sizes n sizes.now) out.old }
        ensures many { length (kind.sizes n sizes.now) ≡ n };
}
