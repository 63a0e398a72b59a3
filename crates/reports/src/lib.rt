// The report of a flow file: its bytes are read as a chart and its values, and the evaluation is told in lines of text.
#![tactic(auto)]

mod flow;
mod text;

ghost use Rattle.std.specs.Prelude.{◌≡◌, ◌≤◌, length};
ghost use Rattle.laws.specs.Front.{at_front_if_room, room_for};
ghost use Rattle.evaluating.specs.Asked.{asked};
ghost use Rattle.reports.specs.Text.{r_line};
ghost use Rattle.reports.specs.Report.{first_index, chart_report, text_of, reported};
ghost use Rattle.reports.specs.Steps.{size, Legal};
ghost use Rattle.reports.specs.TextSteps.{Tells, text_by};

use charts::{Chart, INDIVIDUALS};
use evaluating::Evaluation;
use flow::MOST_VALUES;
use groups::TooShort;
use numbers::Numbered;
use rules::SAME_WIDTHS;

/// No report is longer: a room of so many bytes holds any.
pub const LONGEST: usize = 405_704;

// Writes the line of a refusal, of its own or of evaluating's: by the number, which the line shows.
fn refuse(why: u8, out: &mut [u8]) -> Result<usize, TooShort>
    ensures answer { reported result ≡ room_for (r_line why) (length out.old) }
    ensures room { out.new ≡ at_front_if_room (r_line why) out.old }
{
    let n = text::put_refusal::<false>(out, why);
    if out.len() < n {
        return Err(TooShort);
    }
    Ok(text::put_refusal::<true>(out, why))
}

// The index of the dispersion series' first point.
#[tactic(auto, unfolding(crate::specs::Report::first_index, charts::specs::Records::by_kind))]
fn first_index(chart: Chart) -> u64
    ensures { (result ≡ first_index chart) × (result ≤ 1) }
{
    u64::from(chart.kind == INDIVIDUALS)
}

// Writes the text of an evaluated chart, told the marks of both series. That it is counted first and then written, as in
// `refuse`, is not shared: a closure that is lent the room would have to say all of `Put` again.
fn tell(
    chart: Chart,
    e: Evaluation,
    marks: &[u16],
    others: &[u16],
    out: &mut [u8],
) -> Result<usize, TooShort>
    requires { Tells e (first_index chart) marks.now others.now }
    ensures answer { reported result
        ≡ room_for (text_by chart e (first_index chart) marks.now others.now) (length out.old) }
    ensures room { out.new
        ≡ at_front_if_room (text_by chart e (first_index chart) marks.now others.now) out.old }
{
    let first = first_index(chart);
    let n = text::put_chart::<false>(out, chart, e, first, marks, others);
    if out.len() < n {
        return Err(TooShort);
    }
    Ok(text::put_chart::<true>(out, chart, e, first, marks, others))
}

// Writes the report of a chart and its values.
fn report_chart(chart: Chart, values: &[f64], out: &mut [u8]) -> Result<usize, TooShort>
    requires legal { Legal chart }
    requires whole { length values.now ≡ size chart }
    ensures answer { reported result ≡ room_for (chart_report (asked chart values.now)) (length out.old) }
    ensures room { out.new ≡ at_front_if_room (chart_report (asked chart values.now)) out.old }
{
    if !floats::all_finite(values) {
        return refuse(charts::Refusal::NotFinite.number(), out);
    }
    let mut main = [0.0f64; MOST_VALUES];
    let mut dispersion = [0.0f64; MOST_VALUES];
    let mut marks = [0u16; MOST_VALUES];
    let mut others = [0u16; MOST_VALUES];
    match evaluating::evaluate(
        chart,
        values,
        &[],
        SAME_WIDTHS,
        &mut main,
        &mut dispersion,
        &mut marks,
        &mut others,
    ) {
        Err(why) => refuse(why.number(), out),
        Ok(e) => {
            let points = chart.count;
            let ranges = points - first_index(chart) as usize;
            tell(chart, e, &marks[..points], &others[..ranges], out)
        }
    }
}

/// Writes the report of a flow file, whatever the bytes `input` are, at the front of the room `out`.
///
/// Gives `Ok` with the report's length; what lies past it is untouched. Bytes that are no flow file, or whose chart cannot
/// be evaluated, have a report too: the line `R` with the number of the refusal. In this order: more than 24,576 bytes (12);
/// of each header number in turn its form (12) and its value (kind 12, size 1, set 4, count 5); a value's form (12); bytes
/// left over (12); a value that is not finite (3); too few samples (8); a point or a limit that is not finite (7).
///
/// # Refusal
///
/// `TooShort` where the room is shorter than the report itself (6); the room is then as it came.
///
/// # Example
///
/// The bytes `01 02` are refused for the size: `report(&[1, 2], out)` writes `R 1` and a newline, and gives `Ok(4)`.
pub fn report(input: &[u8], out: &mut [u8]) -> Result<usize, TooShort>
    ensures answer { reported result ≡ room_for (text_of input.now) (length out.old) }
    ensures room { out.new ≡ at_front_if_room (text_of input.now) out.old }
{
    let mut values = [0.0f64; MOST_VALUES];
    match flow::read_flow(input, &mut values) {
        Err(why) => refuse(why.number(), out),
        Ok(chart) => {
            let n = chart.count * chart.size;
            report_chart(chart, &values[..n], out)
        }
    }
}
