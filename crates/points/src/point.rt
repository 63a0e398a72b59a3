// A point about a centre.
ghost use Rattle.std.specs.Prelude.{◌≡◌, ◌&&◌};
ghost use Rattle.floats.specs.Finite.{finite};
ghost use Rattle.points.specs.Points.{upper_of, lower_of, z_of};

// The upper limit.
pub fn upper(cl: f64, sigma: f64) -> f64
    ensures { result ≡ upper_of cl sigma }
{
    cl + 3.0 * sigma
}

// The lower limit.
pub fn lower(cl: f64, sigma: f64) -> f64
    ensures { result ≡ lower_of cl sigma }
{
    let computed = cl - 3.0 * sigma;
    if 0.0 < computed { computed } else { 0.0 }
}

// The value on the scale of its sigma; +0.0 where there is none. Divided in any case, so that a loop of it has no branch.
pub fn standardized(value: f64, cl: f64, sigma: f64) -> f64
    ensures { result ≡ z_of value cl sigma }
{
    let z = (value - cl) / sigma;
    if 0.0 < sigma { z } else { 0.0 }
}

// Whether its value and both limits are.
pub fn is_finite(value: f64, ucl: f64, lcl: f64) -> bool
    ensures { result ≡ finite value && finite ucl && finite lcl }
{
    floats::is_finite(value) & floats::is_finite(ucl) & floats::is_finite(lcl)
}
