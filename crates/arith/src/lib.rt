// The arithmetic of the charts: sum and mean, largest and smallest, range, deviation, moving range (document 01, "The charts").
#![tactic(auto)]

ghost use Rattle.std.specs.Prelude.{◌≡◌};
ghost use Rattle.arith.specs.Arith.{sum_of, mean_of, larger, smaller, largest_of, smallest_of, range_of, squares_of, or_nan, deviation_of, moving_of};

use root::NoRoot;

/// The sum from +0.0, left to right. Of no values, +0.0.
///
/// Refuses nothing: what is not finite goes into the sum as it is.
///
/// `sum_of(&[1.0, 2.0, 6.0])` is 9.0, `sum_of(&[-0.0])` is +0.0.
pub fn sum_of(s: &[f64]) -> f64
    ensures { result ≡ sum_of s.now }
{
    s.iter().fold(0.0, |t, v| t + *v)
}

/// The mean: the sum from +0.0, left to right, divided by the count. Of no values, a NaN.
///
/// Refuses nothing: what is not finite goes into the sum as it is.
///
/// `mean_of(&[1.0, 2.0, 6.0])` is 3.0.
pub fn mean_of(s: &[f64]) -> f64
    ensures { result ≡ mean_of s.now }
{
    sum_of(s) / std::num::nearest_usize_to_f64(s.len())
}

// The larger of two; of two that are level, the first. Larger and smaller stay two: one function over the order would be told
// which by a closure, and is no plainer than a line each.
fn larger_of(t: f64, v: f64) -> f64
    ensures { result ≡ larger t v }
{
    if t < v { v } else { t }
}

// The smaller of two; of two that are level, the first.
fn smaller_of(t: f64, v: f64) -> f64
    ensures { result ≡ smaller t v }
{
    if v < t { v } else { t }
}

/// The largest value: the first, replaced only by a strictly larger one. Of no values, a NaN.
///
/// Refuses nothing: a NaN in front stays, and one behind the first value is passed over.
///
/// `largest_of(&[1.0, 6.0, 2.0])` is 6.0, `largest_of(&[-0.0, 0.0])` is -0.0.
pub fn largest_of(s: &[f64]) -> f64
    ensures { result ≡ largest_of s.now }
{
    s.iter().copied().reduce(larger_of).unwrap_or(f64::NAN)
}

/// The smallest value: the first, replaced only by a strictly smaller one. Of no values, a NaN.
///
/// Refuses nothing: a NaN in front stays, and one behind the first value is passed over.
///
/// `smallest_of(&[2.0, 1.0, 6.0])` is 1.0, `smallest_of(&[0.0, -0.0])` is 0.0.
pub fn smallest_of(s: &[f64]) -> f64
    ensures { result ≡ smallest_of s.now }
{
    s.iter().copied().reduce(smaller_of).unwrap_or(f64::NAN)
}

/// The range: the largest value minus the smallest. Of no values, a NaN.
///
/// Refuses nothing.
///
/// `range_of(&[2.0, 1.0, 6.0])` is 5.0.
pub fn range_of(s: &[f64]) -> f64
    ensures { result ≡ range_of s.now }
{
    let Some((first, rest)) = s.split_first() else {
        return f64::NAN;
    };
    // both in one turn: two folds take twice as long
    let (hi, lo) = rest.iter().fold(
        (*first, *first),
        |(hi, lo), v| (larger_of(hi, *v), smaller_of(lo, *v)),
    );
    hi - lo
}

// The sum of the squares of the distances from the mean.
fn squares(mean: f64, s: &[f64]) -> f64
    ensures { result ≡ squares_of mean s.now }
{
    s.iter().fold(0.0, |t, v| t + (*v - mean) * (*v - mean))
}

/// The root that was answered; a NaN where it was refused.
///
/// Refuses nothing.
///
/// `or_nan(root::root(9.0))` is 3.0, `or_nan(root::root(-1.0))` is a NaN.
pub fn or_nan(r: Result<f64, NoRoot>) -> f64
    ensures { result ≡ or_nan r }
{
    r.unwrap_or(f64::NAN)
}

/// The deviation: the root of the sum of the squares of the distances from the mean, divided by one less than the count.
/// A NaN where there is no such root: of no values, of one, and where that sum is not finite.
///
/// Refuses nothing.
///
/// `deviation_of(&[1.0, 3.0, 5.0])` is 2.0.
pub fn deviation_of(s: &[f64]) -> f64
    ensures { result ≡ deviation_of s.now }
{
    let n = s.len().saturating_sub(1);
    or_nan(root::root(squares(mean_of(s), s) / std::num::nearest_usize_to_f64(n)))
}

/// The moving range from a value to the next: their difference with its sign bit cleared.
///
/// Refuses nothing: where the difference is a NaN, so is the moving range.
///
/// `moving_range(3.0, 1.0)` is 2.0, `moving_range(-0.0, -0.0)` is +0.0.
#[tactic(auto, using(crate::proofs::Signs::cleared), unfolding(crate::specs::Arith::moving_of))]
pub fn moving_range(earlier: f64, later: f64) -> f64
    ensures { result ≡ moving_of earlier later }
{
    (later - earlier).abs()
}
