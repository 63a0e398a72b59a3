// The points of an attribute chart about its centre: their limits, verdicts and standardized values, in lent slices.
#![tactic(auto)]

mod columns;
mod point;

ghost use Rattle.std.specs.Prelude.{◌≡◌, false, [], ◌∷◌, length, take};
ghost use Rattle.laws.specs.Front.{lent_after};
ghost use Rattle.floats.specs.Values.{plus_zero};
ghost use Rattle.points.specs.Points.{uppers, lowers, outs, zs, has_zs};
ghost use Rattle.points.specs.Plotting.{number, plotted, any_shorter, plot_from, plot_number};

use numbers::Numbered;

/// Why plotting is refused. The number is that of documents 01 and 02.
#[derive(Clone, Copy, Debug, PartialEq, Eq)]
pub enum Refusal {
    /// A slice is shorter than there are points; all are as they came (6).
    TooShort,
    /// The centre, a value, a sigma or a limit is not finite; all slices are zero throughout (7).
    Overflow,
}

impl Numbered for Refusal {
    ghost number = { number };

    /// The refusal's number in documents 01 and 02.
    ///
    /// `Refusal::Overflow.number()` is 7.
    fn number(&self) -> u8 {
        match self {
            Refusal::TooShort => 6,
            Refusal::Overflow => 7,
        }
    }
}

/// Whether one of the slices of [`plot`], given by their lengths, is too short for n points.
///
/// Refuses nothing.
///
/// `too_short(2, &[2, 2, 2, 2, 2, 1])` is `true`.
pub fn too_short(n: usize, lengths: &[usize]) -> bool
    ensures { result ≡ any_shorter n lengths.now }
{
    lengths.iter().any(|length| *length < n)
}

/// Plots n points about a centre. Their values stand at the front of `values`, their sigmas at the front of `ucl`, where the
/// upper limits take their place; the lower limits, verdicts and standardized values go to the front of the other slices.
/// Where a point has no standardized value, its sigma being zero, `z` gets +0.0 and `has_z` a no. Entries past the last point
/// are untouched.
///
/// Refuses, in this order: a slice shorter than n (6, `TooShort`), a centre, value, sigma or limit that is not finite (7,
/// `Overflow`). At 6 all slices are as they came, at 7 they are zero throughout.
///
/// About the centre 16.0, a point with the value 29.0 and the sigma 4.0 has the limits 28.0 and 4.0, is out of control, and
/// has the standardized value 3.25.
//
// Six slices, and no struct of them: a contract would tell what each holds in the end by its place in nested pairs, as
// `columns.exit.1.1.0.now`, and by no name. How many points there are comes beside them, since the slices may not be cut: 7
// zeroes whole slices, and entries past the last point are untouched. `z` and `has_z` are two slices, with +0.0 and a no where
// there is no standardized value: that is the law of this project (request R-2).
pub fn plot(
    cl: f64,
    n: usize,
    values: &mut [f64],
    ucl: &mut [f64],
    lcl: &mut [f64],
    out: &mut [bool],
    z: &mut [f64],
    has_z: &mut [bool],
) -> Result<(), Refusal>
    ensures answer { plotted result
        ≡ plot_number (any_shorter n (length values.old ∷ length ucl.old ∷ length lcl.old
        ∷ length out.old ∷ length z.old ∷ length has_z.old ∷ []))
        (plot_from cl n values.old ucl.old) }
    ensures values { values.new ≡ lent_after (plotted result) plus_zero (take n values.old) values.old }
    ensures ucl { ucl.new
        ≡ lent_after (plotted result) plus_zero (uppers (plot_from cl n values.old ucl.old)) ucl.old }
    ensures lcl { lcl.new
        ≡ lent_after (plotted result) plus_zero (lowers (plot_from cl n values.old ucl.old)) lcl.old }
    ensures out { out.new
        ≡ lent_after (plotted result) false (outs (plot_from cl n values.old ucl.old)) out.old }
    ensures z { z.new
        ≡ lent_after (plotted result) plus_zero (zs (plot_from cl n values.old ucl.old)) z.old }
    ensures has_z { has_z.new
        ≡ lent_after (plotted result) false (has_zs (plot_from cl n values.old ucl.old)) has_z.old }
{
    let lengths = [
        values.len(),
        ucl.len(),
        lcl.len(),
        out.len(),
        z.len(),
        has_z.len(),
    ];
    if too_short(n, &lengths) {
        return Err(Refusal::TooShort);
    }
    let sound = columns::fill_all(
        cl,
        &values[..n],
        &mut ucl[..n],
        &mut lcl[..n],
        &mut out[..n],
        &mut z[..n],
        &mut has_z[..n],
    );
    if !sound {
        values.fill(0.0);
        ucl.fill(0.0);
        lcl.fill(0.0);
        out.fill(false);
        z.fill(0.0);
        has_z.fill(false);
        return Err(Refusal::Overflow);
    }
    Ok(())
}
