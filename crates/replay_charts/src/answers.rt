// What a chart of ours answers. The calls of evaluating and of the sigma figures stand here alone.
use charts::{Chart, Refusal};
use evaluating::Evaluation;

/// What evaluating answers besides the slices, whether it says that no mark stands (a fact of refusals too, so no value beside it),
/// and both figures.
#[derive(Clone, Copy)]
pub struct Answers {
    pub evaluated: Result<Evaluation, Refusal>,
    pub none_stands: bool,
    pub sigma_hat: Result<f64, Refusal>,
    pub sigma_hat_df: Result<f64, Refusal>,
}

/// The slices that a chart lends: its series, and the marks of their points.
#[derive(Clone, Copy)]
pub struct Lent<'a> {
    pub main: &'a [f64],
    pub dispersion: &'a [f64],
    pub main_marks: &'a [u16],
    pub dispersion_marks: &'a [u16],
}

/// Evaluates a chart into the four slices.
pub fn answers_of(
    chart: Chart,
    values: &[f64],
    stops: &[usize],
    width: u64,
    main: &mut [f64],
    dispersion: &mut [f64],
    main_marks: &mut [u16],
    dispersion_marks: &mut [u16],
) -> Answers {
    let evaluated = evaluating::evaluate(
        chart,
        values,
        stops,
        width,
        main,
        dispersion,
        main_marks,
        dispersion_marks,
    );
    Answers {
        evaluated,
        none_stands: evaluating::none_stands(evaluated),
        sigma_hat: evaluating::sigma_hat(chart, values),
        sigma_hat_df: evaluating::sigma_hat_df(chart, values),
    }
}
