// The square root of an f64, rounded to the nearest f64 (document 01, "The charts").
#![tactic(auto)]

ghost use Rattle.std.specs.Prelude.{◌≡◌, ◌+◌, ◌*◌, ◌^◌, ◌<◌, ◌≤◌};
ghost use Rattle.root.specs.Root.{number, Allowed, numbered, root_of};
ghost use Rattle.root.specs.Steps.{infinity, Places, RootBits};

use numbers::Numbered;

/// Why [`root`] gives no root: the number is not finite, or it is below 0.
#[derive(Clone, Copy, Debug, PartialEq, Eq)]
pub struct NoRoot;

impl Numbered for NoRoot {
    ghost number = { number };

    /// 3 of document 01, "Numbers a call may give back".
    fn number(&self) -> u8 {
        3
    }
}

// The bits of +infinity: those of every finite number with a clear sign bit are below them.
const INFINITY: u64 = 0x7ff0_0000_0000_0000;

// The bits of -0.0.
const MINUS_ZERO: u64 = 0x8000_0000_0000_0000;

// The whole part of the root of a * 2^54, one binary digit a turn. The root's digits so far stand in
// their places, with zeros behind them, and the next one stands for `unit`. What the square of that
// root leaves of a * 2^54 is `rem` units: the remainder and every digit of the number that is still
// to be brought down, in one. One unit more in the root adds `trial` units to the square, which is
// twice the root and one unit, so the next digit is 1 where that many are left. Then the unit is
// halved, and what is left counts twice. A mask takes the trial away, and no branch: the digits of a
// root cannot be guessed by the processor. Where nothing is left all digits to come are zeros, and
// the work ends: less its unit the trial is twice the root, and one shift gives the root, with the
// zeros in it.
fn digits(a: u64) -> u64
    requires { (2 ^ 52 ≤ a) × (a < 2 ^ 54) }
    ensures { (result * result ≤ a * 2 ^ 54) × (a * 2 ^ 54 < (result + 1) * (result + 1)) }
{
    // the first of the 54 digits is 1: the root so far is 2^53, and the next digit stands for 2^52
    let mut rem = (a << 2) - 0x40_0000_0000_0000;
    let mut trial: u64 = 0x50_0000_0000_0000;
    let mut unit: u64 = 0x10_0000_0000_0000;
    'digits: while rem != 0 {
        // every bit is set where the digit is 1
        let taken = u64::from(rem < trial).wrapping_sub(1);
        rem = (rem << 1) - ((trial << 1) & taken);
        trial = trial - (unit >> 1) + ((unit << 1) & taken);
        unit = unit >> 1;
        if unit == 0 {
            return trial >> 1;
        }
    }
    (trial - unit) >> 1
}

// A finite number above 0, times 4^591, is s * 2^(p + 55), with s of 53 binary digits and p from 1.
#[derive(Clone, Copy)]
struct Placed {
    s: u64,
    p: u64,
}

// The number whose bits are b. A subnormal is brought up by its count of leading zeros.
fn place(b: u64) -> Placed
    requires { (0 < b) × (b < infinity) }
    ensures { Places b result.s result.p }
{
    let field = b >> 52;
    let t = b & 0xf_ffff_ffff_ffff;
    if field == 0 {
        let up = t.leading_zeros() - 11;
        Placed {
            s: t << up,
            p: 53 - u64::from(up),
        }
    } else {
        Placed {
            s: t | 0x10_0000_0000_0000,
            p: field + 52,
        }
    }
}

// The bits of the root of the number whose bits are b. With k = (p - 1) / 2 the number times 4^591
// is a * 2^54 * 4^(k + 1), where a is s or, to make the power left over one of 4, 2 * s. The root
// of a * 2^54 has 54 binary digits, one more than an f64 holds, so the nearest f64 has half of it,
// rounded up, for its digits m. There is no tie: a * 2^54 is even, and an odd number's square is
// odd. The root is m * 2^(k - 589). An f64's field f stands for 2^(f - 1075), so that of the root is
// k + 486: k + 485, and one more by m's own top bit.
fn root_bits(b: u64) -> u64
    requires { (0 < b) × (b < infinity) }
    ensures { RootBits b result }
{
    let Placed { s, p } = place(b);
    let a = s << (1 - (p & 1));
    let m = (digits(a) + 1) >> 1;
    ((((p - 1) >> 1) + 485) << 52) + m
}

/// The square root of `x`, rounded to the nearest f64.
///
/// The root of +0.0 is +0.0, and that of -0.0 is -0.0. Every other root is above zero.
///
/// # Refusal
///
/// [`NoRoot`], number 3 of document 01, where `x` is a NaN, an infinity or below zero.
///
/// # Example
///
/// ```
/// match root::root(2.0) {
///     Ok(r) => r,    // 1.4142135623730951
///     Err(NoRoot) => 0.0,
/// }
/// ```
pub fn root(x: f64) -> Result<f64, NoRoot>
    ensures nearest { Allowed x (numbered result) }
    ensures is { result ≡ root_of x }
{
    if x.is_nan() {
        return Err(NoRoot);
    }
    let b = x.to_bits();
    if b == 0 {
        return Ok(x);
    }
    if b == MINUS_ZERO {
        return Ok(x);
    }
    if b < INFINITY {
        Ok(f64::from_bits(root_bits(b)))
    } else {
        Err(NoRoot)
    }
}
