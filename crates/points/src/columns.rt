// The columns of a chart's points.
ghost use Rattle.std.specs.Prelude.{◌≡◌, length};
ghost use Rattle.points.specs.Points.{sound, uppers, lowers, outs, zs, has_zs};
ghost use Rattle.points.specs.Steps.{plot_by};

use super::point;

// All columns, in one loop, since dividing leaves time for the rest; and whether the centre, every value, sigma and limit is
// finite. The sigmas stand where the upper limits are to stand, and such a limit is not finite where its sigma is not.
pub fn fill_all(
    cl: f64,
    values: &[f64],
    ucl: &mut [f64],
    lcl: &mut [f64],
    out: &mut [bool],
    z: &mut [f64],
    has_z: &mut [bool],
) -> bool
    requires { (length ucl.old ≡ length values.now) × (length lcl.old ≡ length values.now)
        × (length out.old ≡ length values.now) × (length z.old ≡ length values.now)
        × (length has_z.old ≡ length values.now) }
    ensures sound { result ≡ sound (plot_by cl values.now ucl.old) }
    ensures ucl { ucl.new ≡ uppers (plot_by cl values.now ucl.old) }
    ensures lcl { lcl.new ≡ lowers (plot_by cl values.now ucl.old) }
    ensures out { out.new ≡ outs (plot_by cl values.now ucl.old) }
    ensures z { z.new ≡ zs (plot_by cl values.now ucl.old) }
    ensures has_z { has_z.new ≡ has_zs (plot_by cl values.now ucl.old) }
{
    let centre = floats::is_finite(cl);
    let mut all = true;
    // By the index: a zip of six slices is no plainer.
    for i in 0..values.len() {
        let value = values[i];
        let sigma = ucl[i];
        let upper = point::upper(cl, sigma);
        let lower = point::lower(cl, sigma);
        ucl[i] = upper;
        lcl[i] = lower;
        out[i] = (upper < value) | (value < lower);
        z[i] = point::standardized(value, cl, sigma);
        has_z[i] = 0.0 < sigma;
        all = all & point::is_finite(value, upper, lower);
    }
    centre & all
}
