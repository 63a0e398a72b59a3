// The points of both charts, once the samples' sizes are f64s.
ghost use Rattle.std.specs.Prelude.{◌≡◌, ◌≤◌, false, length, take};
ghost use Rattle.laws.specs.Front.{lent_after};
ghost use Rattle.floats.specs.Values.{plus_zero};
ghost use Rattle.points.specs.Points.{sound, uppers, lowers, outs, zs, has_zs};
ghost use Rattle.points.specs.Plotting.{plotted};
ghost use Rattle.points.specs.Steps.{settled};
ghost use Rattle.attributes.specs.Evaluating.{evaluated, answer_for, values_of, plot_of};
ghost use Rattle.attributes.specs.Steps.{variances_of, roots_of, Small, SmallTo};

use super::Refusal;

// Counts that 14 does not refuse fit a u32, whose cast takes least. By the index: a zip of three slices is no plainer.
fn fill_values(counts: &[u64], sizes: &[f64], out: &mut [f64])
    requires { (length counts.now ≡ length out.old) × (length sizes.now ≡ length out.old) × Small counts.now }
    ensures { out.new ≡ values_of counts.now sizes.now }
{
    let n = out.len();
    for i in 0..n {
        out[i] = f64::from(counts[i] as u32) / sizes[i];
    }
}

// In place: each size becomes its point's variance. A loop of its own divides faster than the roots' would.
fn variances(variance: f64, sizes: &mut [f64])
    ensures { sizes.new ≡ variances_of variance sizes.old }
{
    for size in sizes.iter_mut() {
        *size = variance / *size;
    }
}

// In place: each variance becomes its point's sigma.
fn sigmas(variances: &mut [f64])
    ensures { variances.new ≡ roots_of variances.old }
{
    for variance in variances.iter_mut() {
        *variance = arith::or_nan(root::root(*variance));
    }
}

// The answer of an evaluation about a centre, by how plotting went.
fn answer(went: Result<(), points::Refusal>, cl: f64) -> Result<f64, Refusal>
    ensures { evaluated result ≡ answer_for (plotted went) cl }
{
    went?;
    Ok(cl)
}

// Evaluates n samples whose sizes stand at the front of `ucl`.
pub fn evaluate(
    cl: f64,
    variance: f64,
    n: usize,
    counts: &[u64],
    values: &mut [f64],
    ucl: &mut [f64],
    lcl: &mut [f64],
    out: &mut [bool],
    z: &mut [f64],
    has_z: &mut [bool],
) -> Result<f64, Refusal>
    requires { (n ≤ length counts.now) × (n ≤ length values.old) × (n ≤ length ucl.old) × (n ≤ length lcl.old)
        × (n ≤ length out.old) × (n ≤ length z.old) × (n ≤ length has_z.old) × SmallTo n counts.now }
    ensures answer { evaluated result
        ≡ answer_for (settled (sound (plot_of cl variance counts.now (take n ucl.old)))) cl }
    ensures values { values.new
        ≡ lent_after (evaluated result).0 plus_zero (values_of counts.now (take n ucl.old)) values.old }
    ensures ucl { ucl.new
        ≡ lent_after (evaluated result).0 plus_zero (uppers (plot_of cl variance counts.now (take n ucl.old))) ucl.old }
    ensures lcl { lcl.new
        ≡ lent_after (evaluated result).0 plus_zero (lowers (plot_of cl variance counts.now (take n ucl.old))) lcl.old }
    ensures out { out.new
        ≡ lent_after (evaluated result).0 false (outs (plot_of cl variance counts.now (take n ucl.old))) out.old }
    ensures z { z.new
        ≡ lent_after (evaluated result).0 plus_zero (zs (plot_of cl variance counts.now (take n ucl.old))) z.old }
    ensures has_z { has_z.new
        ≡ lent_after (evaluated result).0 false (has_zs (plot_of cl variance counts.now (take n ucl.old))) has_z.old }
{
    fill_values(&counts[..n], &ucl[..n], &mut values[..n]);
    variances(variance, &mut ucl[..n]);
    sigmas(&mut ucl[..n]);
    answer(points::plot(cl, n, values, ucl, lcl, out, z, has_z), cl)
}
