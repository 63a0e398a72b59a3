// What a pattern of 64 bits means as an f64, for every pattern, and whether values are finite.
#![tactic(auto)]

ghost use Rattle.std.specs.Prelude.{◌≡◌};
ghost use Rattle.std.specs.Float.{binary64};
ghost use Rattle.std.specs.Float.Ieee.{of_bits};
ghost use Rattle.floats.specs.Finite.{finite, all_finite};

/// The largest finite f64.
pub const LARGEST: f64 = f64::MAX;

/// The f64 of a pattern of 64 bits. Each pattern of a NaN gives a NaN; which one is not said.
///
/// Refuses nothing.
///
/// `of_bits(0x3ff0000000000000)` is 1.0.
pub fn of_bits(pattern: u64) -> f64
    ensures { result ≡ of_bits binary64 pattern }
{
    if pattern & 0x7fff_ffff_ffff_ffff > 0x7ff0_0000_0000_0000 {
        return f64::NAN;
    }
    f64::from_bits(pattern)
}

/// Whether a value is neither a NaN nor an infinity.
///
/// Refuses nothing.
///
/// `is_finite(1.0)` is yes, `is_finite(1.0 / 0.0)` is no.
pub fn is_finite(v: f64) -> bool
    ensures { result ≡ finite v }
{
    // Not by infinities: the compiler makes a test of the value's class of that, and no loop takes several at a time by it.
    (v <= LARGEST) & (-LARGEST <= v)
}

/// Whether all values are finite; of no values, yes.
///
/// Refuses nothing.
///
/// `all_finite(&[1.0, 0.0 / 0.0])` is no.
pub fn all_finite(values: &[f64]) -> bool
    ensures { result ≡ all_finite values.now }
{
    // Going on behind a value that is not lets the loop take several at a time.
    values.iter().fold(true, |all, v| all & is_finite(*v))
}
