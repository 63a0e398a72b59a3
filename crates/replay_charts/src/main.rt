// Replays a list of chart cases (oracle/FORMAT.md) from standard input: makes each chart afresh, with its stops where it
// has any, adds its samples one by one, evaluates it in its width mode, and holds its answer byte for byte to what is stored,
// the entries past it to what they were, and where it is refused both figures to the same number, but for bad stops and a bad
// mode. Writes a line for each case that it finds otherwise, and last how many cases there are and how many of them differ; or,
// where the bytes are no list, last a line that says at which byte and why.
#![tactic(auto)]

mod answer;
mod answers;
mod head;

ghost use Rattle.std.specs.Prelude.{◌≡◌, ◌≤◌, length};
ghost use Rattle.lists.specs.Outcomes.{OnlyIf};
ghost use Rattle.replay_charts.specs.Answer.{rows};
ghost use Rattle.replay_charts.specs.Held.{Held, refused_alike, rest_is};

use answers::{Answers, Lent};
use charts::{Chart, INDIVIDUALS, Refusal};
use evaluating::Evaluation;
use head::{Head, MOST_SAMPLES, MOST_VALUES};
use lists::{Case, Difference, Fault, Form, Item, Outcome, Read};
use numbers::Numbered;
use rules::SAME_WIDTHS;
use sets::RuleSet;
use std::io;

// The tags of a chart case, of one with stops and of one in a width mode: the numbers of the lists' form (oracle/FORMAT.md).
const CHART_CASE: u16 = 2;

const STOPPED_CASE: u16 = 5;

const MODED_CASE: u16 = 11;

// The longest list of stops.
const MOST_STOPS: usize = 4096;

// How many entries more than its series a lent slice has.
const SPARE: usize = 4;

// What the slices hold before a chart is evaluated, and past the last entry that is written also afterwards. No marks
// are this number; the point is only unlikely.
const UNTOUCHED_MARKS: u16 = 0xffff;

const UNTOUCHED_POINT: f64 = -12345.678;

// What stands ahead of the kind of a case: the width mode, how many stops its record counts, where it says so, and the list of
// them that is lent.
#[derive(Clone, Copy)]
struct Ahead<'a> {
    width: u64,
    counted: Option<usize>,
    stops: &'a [usize],
}

// A chart, and why the last call that refused to make or to fill it did, where one did.
#[derive(Clone, Copy)]
struct Made {
    chart: Chart,
    refused: Option<Refusal>,
}

// What evaluating ought to leave of the slices: so many entries of the answer, and behind them this point and these marks.
#[derive(Clone, Copy)]
struct Left {
    n: usize,
    d: usize,
    point: f64,
    marks: u16,
}

impl Made {
    // After a call that changes the chart; a refused one is as it was.
    fn after(self, answer: Result<Chart, Refusal>) -> Made {
        match answer {
            Ok(chart) => Made { chart, ..self },
            Err(why) => Made {
                refused: Some(why),
                ..self
            },
        }
    }
}

// Makes a chart with no samples; where that is refused it is the record that it ought to be. Its set is named, as on the
// oracle's side, since a new chart of the Rust has another set than one of ours. Where the case counts no stops the chart has as
// many as a new one has.
fn make(head: Head, counted: Option<usize>) -> Made {
    let kind = u64::from(head.kind);
    let size = usize::from(head.size);
    let set = RuleSet { mask: head.set };
    let chart = Chart {
        kind,
        size,
        count: 0,
        set,
        stops: 0,
    };
    let refused = None;
    let new = Made { chart, refused }.after(Chart::new(kind, size));
    let made = new.after(new.chart.with_set(set));
    match counted {
        Some(stops) => made.after(made.chart.with_stops(stops)),
        None => made,
    }
}

// Makes a chart and adds its samples, which stand one after another from the place `at` on.
fn fill(
    list: &[u8],
    at: usize,
    head: Head,
    counted: Option<usize>,
    values: &mut [f64],
) -> Result<Read<Made>, Fault>
    requires { head.size ≤ 25 }
{
    let mut made = make(head, counted);
    let mut sample = [0.0f64; MOST_VALUES];
    let sample = &mut sample[..usize::from(head.size)];
    let mut next = at;
    for _ in 0..head.count {
        next = lists::read_row(list, next, Item::Value, sample)?;
        made = made.after(made.chart.add(values, sample));
    }
    Ok(Read { value: made, next })
}

// How many points the dispersion series has.
fn dispersion_points(head: Head) -> u16
    ensures { result ≤ head.count }
{
    if u64::from(head.kind) == INDIVIDUALS {
        return head.count.saturating_sub(1);
    }
    head.count
}

// What ought to be left of slices for series of n and d points: where a point or a limit is not finite (7) they are zero
// throughout, at any other refusal as they came.
fn left_by(evaluated: Result<Evaluation, Refusal>, n: usize, d: usize) -> Left
    ensures { (result.n ≤ n) × (result.d ≤ d) }
{
    let untouched = Left {
        n,
        d,
        point: UNTOUCHED_POINT,
        marks: UNTOUCHED_MARKS,
    };
    match evaluated {
        Ok(_) => untouched,
        Err(Refusal::Overflow) => Left {
            n: 0,
            d: 0,
            point: 0.0,
            marks: 0,
        },
        Err(_) => Left {
            n: 0,
            d: 0,
            ..untouched
        },
    }
}

// Whether the slices are behind the answer as they ought to be.
fn rest_is(left: Left, slices: Lent) -> bool
    ensures { result ≡ rest_is left (rows slices.entry) }
{
    lists::all_are(slices.main, left.n, &left.point)
        & lists::all_are(slices.dispersion, left.d, &left.point)
        & lists::all_are(slices.main_marks, left.n, &left.marks)
        & lists::all_are(slices.dispersion_marks, left.d, &left.marks)
}

// Whether both figures are refused as evaluating is, but for what they do not take, and none stands at 8 only; where
// evaluating is not refused, yes.
fn refused_alike(ours: Answers) -> bool
    ensures { result ≡ refused_alike ours }
{
    let Err(why) = ours.evaluated else {
        return true;
    };
    // by their numbers: "refused by the same number" (oracle/FORMAT.md)
    let number = why.number();
    let alike = (ours.sigma_hat.number() == number) & (ours.sigma_hat_df.number() == number);
    (answer::apart(u16::from(number)) | alike)
        & (ours.none_stands == matches!(why, Refusal::TooFew))
}

// Holds all that a chart answers and leaves.
fn hold(stored: &[u8], ours: Answers, left: Left, slices: Lent) -> Outcome
    requires n_in_bounds { (left.n ≤ length slices.main.now) × (left.d ≤ length slices.dispersion.now) }
    requires n_in_bounds_2 { (left.n ≤ length slices.main_marks.now) × (left.d ≤ length slices.dispersion_marks.now) }
    ensures { OnlyIf (Held stored.now ours left (rows slices.entry)) result }
{
    if !refused_alike(ours) {
        return Err(Difference::Taken);
    }
    if !rest_is(left, slices) {
        return Err(Difference::Overrun);
    }
    let series = Lent {
        main: &slices.main[..left.n],
        dispersion: &slices.dispersion[..left.d],
        main_marks: &slices.main_marks[..left.n],
        dispersion_marks: &slices.dispersion_marks[..left.d],
    };
    answer::hold(stored, ours, series)
}

// Evaluates a chart whose series have n and d points, and holds it to the stored answer.
fn judge(stored: &[u8], chart: Chart, ahead: Ahead, values: &[f64], n: usize, d: usize) -> Outcome
    requires { (n ≤ 4096) × (d ≤ 4096) }
{
    let mut main = [UNTOUCHED_POINT; MOST_SAMPLES + SPARE];
    let mut dispersion = [UNTOUCHED_POINT; MOST_SAMPLES + SPARE];
    let mut main_marks = [UNTOUCHED_MARKS; MOST_SAMPLES + SPARE];
    let mut dispersion_marks = [UNTOUCHED_MARKS; MOST_SAMPLES + SPARE];
    let main = &mut main[..n + SPARE];
    let dispersion = &mut dispersion[..d + SPARE];
    let main_marks = &mut main_marks[..n + SPARE];
    let dispersion_marks = &mut dispersion_marks[..d + SPARE];
    let ours = answers::answers_of(
        chart,
        values,
        ahead.stops,
        ahead.width,
        main,
        dispersion,
        main_marks,
        dispersion_marks,
    );
    let slices = Lent {
        main,
        dispersion,
        main_marks,
        dispersion_marks,
    };
    hold(stored, ours, left_by(ours.evaluated, n, d), slices)
}

// Replays a case from its kind on, which stands at the place `at`. There is room for its values; others may stand there
// from an earlier case.
fn replay_chart(list: &[u8], at: usize, ahead: Ahead, values: &mut [f64]) -> Result<Case, Fault> {
    let read = head::read_head(list, at)?;
    let head = read.value;
    let filled = fill(list, read.next, head, ahead.counted, values)?;
    let n = usize::from(head.count);
    let d = usize::from(dispersion_points(head));
    let next = answer::pass(list, filled.next, n + d)?;
    let stored = lists::stored(list, filled.next, next);
    let made = filled.value;
    let outcome = match made.refused {
        Some(why) => Err(Difference::Refused(why.number())),
        None => judge(stored, made.chart, ahead, values, n, d),
    };
    Ok(Case { outcome, next })
}

// Replays a case with stops from its count of them on, which stands at the place `at`. `replay_marks` has steps like this one and
// the next: what stands ahead of the stops and behind them differs, and a step over both is no plainer.
fn replay_stopped(list: &[u8], at: usize, width: u64, values: &mut [f64]) -> Result<Case, Fault> {
    let count = lists::read_number(list, at, Item::Stops)?;
    let length = lists::read_small(list, count.next, Item::Stops, 0, MOST_STOPS as u16)?;
    let mut stops = [0usize; MOST_STOPS];
    let stops = &mut stops[..usize::from(length.value)];
    let next = lists::read_row(list, length.next, Item::Stop, stops)?;
    let ahead = Ahead {
        width,
        counted: Some(count.value as usize),
        stops,
    };
    replay_chart(list, next, ahead, values)
}

// Replays the case that begins at the place `at`.
fn replay_case(list: &[u8], at: usize, values: &mut [f64]) -> Result<Case, Fault> {
    let tag = lists::read_tag(list, at, CHART_CASE, STOPPED_CASE, MODED_CASE)?;
    match tag.value {
        Form::Moded => {
            let width = lists::read_number(list, tag.next, Item::Width)?;
            replay_stopped(list, width.next, width.value, values)
        }
        Form::Stopped => replay_stopped(list, tag.next, SAME_WIDTHS, values),
        Form::Plain => {
            let ahead = Ahead {
                width: SAME_WIDTHS,
                counted: None,
                stops: &[],
            };
            replay_chart(list, tag.next, ahead, values)
        }
    }
}

fn main(rt: HostRuntime) -> io::Result<()> {
    let mut bytes = [0u8; lists::ROOM];
    let mut values = [0.0f64; MOST_SAMPLES * MOST_VALUES];
    let n = lists::read_input(&rt, &mut bytes)?;
    let list = &bytes[..n];
    lists::replay(&rt, list, |at| replay_case(list, at, &mut values))
}
