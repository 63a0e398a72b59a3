// The answer of a chart case (oracle/FORMAT.md): ours in the bytes in which a list has it, and the place past a stored one.
ghost use Rattle.std.specs.Prelude.{◌≤◌, ◌≡◌, ◌++◌, OnOk};
ghost use Rattle.lists.specs.Ours.{in_groups};
ghost use Rattle.lists.specs.Outcomes.{OnlyIf};
ghost use Rattle.replay_charts.specs.Answer.{figure_of, figures_of, series_of, counts_of, found_of, apart, answer_of, rows};

use crate::answers::{Answers, Lent};
use charts::Refusal;
use evaluating::Evaluation;
use groups::TooShort;
use lists::{Bytes, Fault, Item, Outcome};
use numbers::Numbered;

// The bytes of the longest answer: 8,192 points of ten bytes with marks of two, and some numbers more.
const LONGEST: usize = 100_000;

// 01's numbers for too little, for bad stops and for a bad width mode, as a stored answer has them.
const TOO_FEW: u16 = 8;

const BAD_STOPS: u16 = 15;

const BAD_WIDTH: u16 = 21;

/// Whether evaluating alone refuses by the number: the figures take neither stops nor a width mode, and their answers follow it. It
/// is told the number, since a stored answer has nothing else.
pub fn apart(number: u16) -> bool
    ensures { result ≡ apart number }
{
    (number == BAD_STOPS) | (number == BAD_WIDTH)
}

// A figure: its answer, and the figure where there is one.
fn put_figure(ours: &mut Bytes<LONGEST>, figure: Result<f64, Refusal>) -> Result<(), TooShort>
    ensures { OnOk result (ours.new ≡ ours.old ++ in_groups (figure_of figure)) }
{
    match figure {
        Ok(value) => {
            ours.put(0)?;
            ours.put(lists::bits(value))
        }
        Err(why) => ours.put(u64::from(why.number())),
    }
}

// Both figures.
fn put_figures(ours: &mut Bytes<LONGEST>, answers: Answers) -> Result<(), TooShort>
    ensures { OnOk result (ours.new ≡ ours.old ++ in_groups (figures_of answers)) }
{
    put_figure(ours, answers.sigma_hat)?;
    put_figure(ours, answers.sigma_hat_df)
}

// The series and their marks.
fn put_series(ours: &mut Bytes<LONGEST>, series: Lent) -> Result<(), TooShort>
    ensures { OnOk result (ours.new ≡ ours.old ++ in_groups (series_of (rows series.entry))) }
{
    ours.put_row(series.main)?;
    ours.put_row(series.dispersion)?;
    ours.put_row(series.main_marks)?;
    ours.put_row(series.dispersion_marks)
}

// What follows the series: the number of marks, whether none stands, and both figures.
fn put_counts(ours: &mut Bytes<LONGEST>, marks: usize, answers: Answers) -> Result<(), TooShort>
    ensures { OnOk result (ours.new ≡ ours.old ++ in_groups (counts_of marks answers)) }
{
    ours.put(marks as u64)?;
    ours.put(u64::from(answers.none_stands))?;
    put_figures(ours, answers)
}

// What follows where evaluating is not refused.
fn put_found(
    ours: &mut Bytes<LONGEST>,
    found: Evaluation,
    answers: Answers,
    series: Lent,
) -> Result<(), TooShort>
    ensures { OnOk result (ours.new ≡ ours.old ++ in_groups (found_of found answers (rows series.entry))) }
{
    let x = found.main;
    let y = found.dispersion;
    ours.put_row(&[x.ucl, x.cl, x.lcl, y.ucl, y.cl, y.lcl])?;
    ours.put(series.dispersion.len() as u64)?;
    put_series(ours, series)?;
    put_counts(ours, found.marks, answers)
}

// Writes our answer.
fn put(ours: &mut Bytes<LONGEST>, answers: Answers, series: Lent) -> Result<(), TooShort>
    ensures { OnOk result (ours.new ≡ ours.old ++ in_groups (answer_of answers (rows series.entry))) }
{
    let number = answers.evaluated.number();
    ours.put(u64::from(number))?;
    match answers.evaluated {
        Ok(found) => put_found(ours, found, answers, series),
        Err(_) if apart(u16::from(number)) => put_figures(ours, answers),
        Err(_) => Ok(()),
    }
}

/// Holds our answer to the stored one.
pub fn hold(stored: &[u8], answers: Answers, series: Lent) -> Outcome
    ensures { OnlyIf (in_groups (answer_of answers (rows series.entry)) ≡ stored.now) result }
{
    let mut ours = Bytes::new();
    let put = put(&mut ours, answers, series);
    lists::hold(&ours, put, stored)
}

fn pass_figure(list: &[u8], at: usize) -> Result<usize, Fault> {
    let answer = lists::read_answer(list, at, TOO_FEW)?;
    if answer.value != 0 {
        return Ok(answer.next);
    }
    lists::pass_numbers(list, answer.next, Item::Answer, 1)
}

fn pass_figures(list: &[u8], at: usize) -> Result<usize, Fault> {
    let second = pass_figure(list, at)?;
    pass_figure(list, second)
}

/// Passes over a stored answer, whose series have so many points together.
pub fn pass(list: &[u8], at: usize, points: usize) -> Result<usize, Fault>
    requires { points ≤ 8192 }
{
    let answer = lists::read_answer(list, at, BAD_WIDTH)?;
    if apart(answer.value) {
        return pass_figures(list, answer.next);
    }
    if answer.value != 0 {
        return Ok(answer.next);
    }
    // the limits, how many points the second series has, each point with its marks, their number, whether none stands
    let many = 6 + 1 + 2 * points + 2;
    let counts = lists::pass_numbers(list, answer.next, Item::Answer, many)?;
    pass_figures(list, counts)
}
