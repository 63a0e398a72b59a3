// Evaluating a chart, and the sigma figures. The four lent slices are parameters of their own: what a struct's references leave
// behind them a contract could only name by places in nested pairs.
#![tactic(auto)]

mod checked;
mod checks;
mod factors;
mod kinds;
mod limits;
mod marks;
mod right;
mod series;
mod sigma;

ghost use Rattle.std.specs.Prelude.{◌≡◌, length, replicate};
ghost use Rattle.laws.specs.Front.{lent_after};
ghost use Rattle.floats.specs.Values.{plus_zero};
ghost use Rattle.evaluating.specs.Asked.{asked, interrupted, in_mode};
ghost use Rattle.evaluating.specs.Series.{series_of, lengths, points_of};
ghost use Rattle.evaluating.specs.Evaluating.{answer_done, evaluated, no_room, evaluate_of, series_marks};
ghost use Rattle.evaluating.specs.Centres.{limited, limits_about};
ghost use Rattle.evaluating.specs.Sigma.{figured, estimated, sigma_hat_of, sigma_hat_df_of, estimate_of};

use charts::{Chart, Refusal};
use right::Right;
use rules::{Limits, OWN_WIDTHS};

/// How many points each series of a chart has.
#[derive(Clone, Copy, Debug, PartialEq, Eq)]
pub struct Lengths {
    /// How many points the main series has.
    pub main: usize,
    /// How many points the dispersion series has.
    pub dispersion: usize,
}

/// The limits of both series.
#[derive(Clone, Copy, Debug, PartialEq)]
pub struct ChartLimits {
    /// The limits of the main series.
    pub main: Limits,
    /// The limits of the dispersion series.
    pub dispersion: Limits,
}

/// What evaluating finds.
// It has both limits as fields of its own, as [`ChartLimits`] has: the fields are public.
#[derive(Clone, Copy, Debug, PartialEq)]
pub struct Evaluation {
    /// The limits of the main series.
    pub main: Limits,
    /// The limits of the dispersion series.
    pub dispersion: Limits,
    /// The number of marks: pairs of a point and a test, in both series.
    pub marks: usize,
}

/// The sigma figures.
#[derive(Clone, Copy, Debug, PartialEq)]
pub struct SigmaFigures {
    /// That of [`sigma_hat`].
    pub sigma_hat: f64,
    /// That of [`sigma_hat_df`].
    pub sigma_hat_df: f64,
}

impl Evaluation {
    /// Whether no mark stands, in either series.
    ///
    /// Of an evaluation with 3 marks it is `false`.
    pub fn none_stands(self) -> bool
        ensures { result ≡ (answer_done self.main self.dispersion self.marks).none_stands }
    {
        self.marks == 0
    }
}

/// Whether an answer of [`evaluate`] says that no mark stands, in either series. A refusal says so where there is too little to
/// evaluate (8), and no other refusal does.
///
/// Of `Err(Refusal::TooFew)` it is `true`.
pub fn none_stands(answer: Result<Evaluation, Refusal>) -> bool
    ensures { result ≡ (evaluated answer).none_stands }
{
    match answer {
        Ok(e) => e.none_stands(),
        Err(why) => why == Refusal::TooFew,
    }
}

/// How many points each series of a chart has, and so how long the slices have to be that evaluating is lent.
///
/// Gives `Ok` with both numbers. Refuses a record that is no chart, by its own numbers (14, `Record`).
///
/// Of a chart of kind 1 with three observations it is `Ok(Lengths { main: 3, dispersion: 2 })`.
#[tactic(auto, unfolding(crate::specs::Series::points_of, laws::specs::Refusals::first_of))]
pub fn points(chart: Chart) -> Result<Lengths, Refusal>
    ensures { lengths result ≡ points_of chart }
{
    if chart.own_wrong() {
        return Err(Refusal::Record);
    }
    Ok(series::lengths_in(chart))
}

/// Evaluates a chart: writes the two series and the marks of their points to the front of the lent slices, main
/// series first, and gives their limits and the number of marks. The dispersion series has the moving ranges (one
/// point fewer than the main one), ranges or deviations. Entries past the last one written are untouched.
///
/// Of `positions` the first are the stops, as many as the chart counts: the belt stood still before each of them. A window
/// that reaches over a stop does not show its pattern, and only windows of length one hold a moving range that straddles
/// one. The series and the limits are as without stops.
///
/// `width` is the width mode of both series' marks (see [`rules::mark`]): 0, where one and two sigma below the centre line are as
/// wide as above it, or 1, where each side has the widths of its own limit.
///
/// Refuses, in this order: a record that is no chart (14, `Record`), a chart that counts more stops than there are
/// positions, or stops that do not rise strictly within 1 to the points of the main series less one (15, `Stops`), a width mode
/// that is not 0 or 1 (21, `WidthMode`), no subgroup or fewer than 2 observations (8, `TooFew`), a slice too short for its
/// series (6, `TooShort`), stored values that are not all finite (3, `NotFinite`), points or limits that are not all finite (7,
/// `Overflow`). At 7 all four slices are zero throughout; at any other refusal they are as they came.
///
/// A chart of kind 1 with three observations of 0.1 and the set shewhart has the limits 0.10000000000000002 three
/// times over and 3 marks: its points lie below them.
pub fn evaluate(
    chart: Chart,
    values: &[f64],
    positions: &[usize],
    width: u64,
    main: &mut [f64],
    dispersion: &mut [f64],
    main_marks: &mut [u16],
    dispersion_marks: &mut [u16],
) -> Result<Evaluation, Refusal>
    ensures answer { evaluated result ≡ evaluate_of (in_mode (interrupted (asked chart values.now) positions.now) width)
        (no_room chart (length main.old) (length dispersion.old)
        (length main_marks.old) (length dispersion_marks.old)) }
    ensures main { main.new
        ≡ lent_after (evaluated result).number plus_zero (series_of (asked chart values.now) 0) main.old }
    ensures dispersion { dispersion.new
        ≡ lent_after (evaluated result).number plus_zero (series_of (asked chart values.now) 1) dispersion.old }
    ensures main_marks { main_marks.new
        ≡ lent_after (evaluated result).number 0 (series_marks (in_mode (interrupted (asked chart values.now) positions.now) width) 0) main_marks.old }
    ensures dispersion_marks { dispersion_marks.new
        ≡ lent_after (evaluated result).number 0 (series_marks (in_mode (interrupted (asked chart values.now) positions.now) width) 1) dispersion_marks.old }
{
    let short = checks::no_room(
        chart,
        main.len(),
        dispersion.len(),
        main_marks.len(),
        dispersion_marks.len(),
    );
    let wrong = checks::positions_wrong(chart, positions);
    checks::check(chart, values, wrong, OWN_WIDTHS < width, short)?;
    checked::evaluate(
        chart,
        values,
        positions,
        width,
        main,
        dispersion,
        main_marks,
        dispersion_marks,
    )
}

/// The limits of a chart by its centre lines alone: `main` is the mean of the main series, `dispersion` that of the dispersion
/// series. They are those that evaluating gives to a chart whose series have these means.
///
/// Gives `Ok` with the limits of both series. Refuses, in this order: a record that is no chart, by its own numbers (14,
/// `Record`), limits that are not all finite (7, `Overflow`).
///
/// Of a chart of kind 2 and size 2, `limits_about(chart, 5.0, 1.0)` has 6.88, 5.0 and 3.12 for the means, by the factor 1.88,
/// and 3.267, 1.0 and 0.0 for the ranges.
#[tactic(auto, unfolding(crate::specs::Centres::limits_about, crate::specs::Steps::limits_from, laws::specs::Refusals::first_of))]
pub fn limits_about(chart: Chart, main: f64, dispersion: f64) -> Result<ChartLimits, Refusal>
    ensures { limited result ≡ limits_about chart main dispersion }
{
    if chart.own_wrong() {
        return Err(Refusal::Record);
    }
    Right { chart }.limits_from(main, dispersion)
}

/// Makes the four slices that evaluating is lent zero throughout, as evaluating does at 7.
///
/// Refuses nothing, whatever the lengths. Marks of 256 and 2 become 0 and 0.
pub fn clear(
    main: &mut [f64],
    dispersion: &mut [f64],
    main_marks: &mut [u16],
    dispersion_marks: &mut [u16],
)
    ensures main { main.new ≡ replicate (length main.old) plus_zero }
    ensures dispersion { dispersion.new ≡ replicate (length dispersion.old) plus_zero }
    ensures main_marks { main_marks.new ≡ replicate (length main_marks.old) 0 }
    ensures dispersion_marks { dispersion_marks.new ≡ replicate (length dispersion_marks.old) 0 }
{
    main.fill(0.0);
    dispersion.fill(0.0);
    main_marks.fill(0);
    dispersion_marks.fill(0);
}

/// Both sigma figures of a chart, the values being measured once.
///
/// Gives `Ok` with [`sigma_hat`]'s and [`sigma_hat_df`]'s figure. Refuses as they do.
///
/// Of three observations of 0.1 they are 0.0 and 1.24.
pub fn estimate(chart: Chart, values: &[f64]) -> Result<SigmaFigures, Refusal>
    ensures { estimated result ≡ estimate_of (asked chart values.now) }
{
    let mean = sigma::centre(chart, values)?;
    let right = Right { chart };
    Ok(SigmaFigures {
        sigma_hat: right.sigma_from(mean),
        sigma_hat_df: right.df_of(),
    })
}

/// The estimate of sigma: the dispersion series' centre line, divided by D2 (moving ranges by that of 2, ranges by that
/// of the size) or by C4 (deviations).
///
/// Gives `Ok` with the figure. Refuses as evaluating would, in this order: a record that is no chart (14, `Record`), no
/// subgroup or fewer than 2 observations (8, `TooFew`), stored values that are not all finite (3, `NotFinite`), points
/// or limits that are not all finite (7, `Overflow`).
///
/// Of three observations of 0.1 it is 0.0: their moving ranges are.
#[tactic(auto, unfolding(crate::specs::Sigma::estimate_of, crate::specs::Sigma::sigma_hat_of, crate::specs::Sigma::unless_refused))]
pub fn sigma_hat(chart: Chart, values: &[f64]) -> Result<f64, Refusal>
    ensures { figured result ≡ sigma_hat_of (asked chart values.now) }
{
    Ok(estimate(chart, values)?.sigma_hat)
}

/// The degrees of freedom of [`sigma_hat`]: 0.62 for each moving range, and for subgroups David's
/// approximation from D4 or C4 and the number of subgroups.
///
/// Gives `Ok` with the figure. Refuses as [`sigma_hat`] does.
///
/// Of three observations of 0.1 it is 1.24.
#[tactic(auto, unfolding(crate::specs::Sigma::estimate_of, crate::specs::Sigma::sigma_hat_df_of, crate::specs::Sigma::unless_refused))]
pub fn sigma_hat_df(chart: Chart, values: &[f64]) -> Result<f64, Refusal>
    ensures { figured result ≡ sigma_hat_df_of (asked chart values.now) }
{
    Ok(estimate(chart, values)?.sigma_hat_df)
}
