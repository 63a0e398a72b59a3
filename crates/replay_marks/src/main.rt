// Replays a list of marks cases (oracle/FORMAT.md) from standard input: marks the values of each case afresh, with its
// stops and in its width mode where it has any, all at once and then one by one, and holds either answer byte for byte and
// the entries past the marks to what is stored. Writes a line for each case that it finds otherwise, and last how many cases
// there are and how many of them differ; or, where the bytes are no list, last a line that says at which byte and why.
#![tactic(auto)]

mod answer;
mod lanes;

ghost use Rattle.std.specs.Prelude.{◌≡◌, ◌+◌, ◌≤◌, length};
ghost use Rattle.lists.specs.Outcomes.{OnlyIf};
ghost use Rattle.rules.specs.Terms.{told};
ghost use Rattle.rules.specs.Marking.{answer_of};
ghost use Rattle.replay_marks.specs.Held.{Held, SomeHeld, written};

use lists::{Case, Difference, Fault, Form, Item, Outcome};
use numbers::Numbered;
use rules::{Limits, SAME_WIDTHS, Terms};
use sets::RuleSet;
use std::io;

// The tags of a marks case, of one with stops and of one in a width mode: the numbers of the lists' form (oracle/FORMAT.md).
const MARKS_CASE: u16 = 1;

const STOPPED_CASE: u16 = 4;

const MODED_CASE: u16 = 10;

// The most values that a case has, and the most stops.
const MOST: usize = 4096;

// How many entries more than marks a slice for them has.
const SPARE: usize = 4;

// What a slice for marks holds before they are made. No marks are this, and past the last of them it has to stay.
const UNTOUCHED: u16 = 0xffff;

// What stands ahead of the set of a case: its width mode, whether it has moving ranges, and its list of stops, where it has one.
#[derive(Clone, Copy)]
struct Ahead<'a> {
    width: u64,
    moving: bool,
    stops: Option<&'a [usize]>,
}

// How the series of a case is marked. One with a list of stops (`stopped`) has 01's number in front of the marks; the list may be
// empty, as the terms of any other have it, so that they don't say it.
#[derive(Clone, Copy)]
struct Asked<'a> {
    stopped: bool,
    terms: Terms<'a>,
    set: RuleSet,
}

// How many marks 01's number leaves of n.
fn written_by(number: u8, n: usize) -> usize
    ensures value { result ≡ written number n }
    ensures few { result ≤ n }
{
    if number == 0 { n } else { 0 }
}

// Holds all that marking n values answers and leaves to the stored answer. It is told 01's number and not the refusal: a stored
// answer begins with the number, which alone is held to it.
fn hold(stored: &[u8], stopped: bool, number: u8, n: usize, marks: &[u16]) -> Outcome
    requires { n ≤ length marks.now }
    ensures { OnlyIf (Held stored.now stopped number n marks.now) result }
{
    if !(stopped | (number == 0)) {
        return Err(Difference::Refused(number));
    }
    let end = written_by(number, n);
    if !lists::all_are(marks, end, &UNTOUCHED) {
        return Err(Difference::Overrun);
    }
    answer::hold(stored, stopped, number, &marks[..end])
}

// Marks the values, and holds our answer to the stored one.
fn judge(stored: &[u8], asked: Asked, values: &[f64], marks: &mut [u16]) -> Outcome
    requires { length marks.old ≡ length values.now + 4 }
    ensures { OnlyIf (Held stored.now asked.entry.stopped
        (answer_of (told asked.entry.terms) asked.entry.set.mask values.now (length marks.old))
        (length values.now) marks.new) result }
{
    let number = rules::mark(values, asked.terms, asked.set, marks).number();
    hold(stored, asked.stopped, number, values.len(), marks)
}

// Marks the values one by one, and holds the answer to the stored one.
fn judge_lane(stored: &[u8], asked: Asked, values: &[f64], marks: &mut [u16]) -> Outcome
    requires { length marks.old ≡ length values.now + 4 }
    ensures { OnlyIf (SomeHeld stored.now asked.entry.stopped (length values.now) marks.new) result }
{
    let number = lanes::mark(values, asked.terms, asked.set, marks).number();
    hold(stored, asked.stopped, number, values.len(), marks)
}

// Replays a case from the number of its values on, which stands at the place `at`.
fn replay_count(list: &[u8], at: usize, asked: Asked) -> Result<Case, Fault> {
    let count = lists::read_small(list, at, Item::Count, 0, MOST as u16)?;
    let n = usize::from(count.value);
    let mut values = [0.0f64; MOST];
    let values = &mut values[..n];
    let answer_at = lists::read_row(list, count.next, Item::Value, values)?;
    let next = answer::pass(list, answer_at, asked.stopped, n)?;
    let stored = lists::stored(list, answer_at, next);
    let mut marks = [UNTOUCHED; MOST + SPARE];
    let mut singly = [UNTOUCHED; MOST + SPARE];
    let outcome = judge(stored, asked, values, &mut marks[..n + SPARE]).and_then(|()| judge_lane(
        stored,
        asked,
        values,
        &mut singly[..n + SPARE],
    ));
    Ok(Case { outcome, next })
}

// Replays a case from its set on, which stands at the place `at`.
fn replay_set(list: &[u8], at: usize, ahead: Ahead) -> Result<Case, Fault> {
    let set = lists::read_small(list, at, Item::Set, 0, lists::ALL_TESTS)?;
    let mut lines = [0.0f64; 3];
    let next = lists::read_row(list, set.next, Item::Limit, &mut lines)?;
    let [ucl, cl, lcl] = lines;
    let asked = Asked {
        stopped: ahead.stops.is_some(),
        terms: Terms {
            limits: Limits { ucl, cl, lcl },
            width: ahead.width,
            stops: ahead.stops.unwrap_or(&[]),
            moving: ahead.moving,
        },
        set: RuleSet { mask: set.value },
    };
    replay_count(list, next, asked)
}

// Replays a case with stops from whether it has moving ranges on, which stands at the place `at`.
fn replay_stopped(list: &[u8], at: usize, width: u64) -> Result<Case, Fault> {
    let moving = lists::read_small(list, at, Item::Moving, 0, 1)?;
    let count = lists::read_small(list, moving.next, Item::Stops, 0, MOST as u16)?;
    let mut stops = [0usize; MOST];
    let stops = &mut stops[..usize::from(count.value)];
    let next = lists::read_row(list, count.next, Item::Stop, stops)?;
    let ahead = Ahead {
        width,
        moving: moving.value == 1,
        stops: Some(stops),
    };
    replay_set(list, next, ahead)
}

// Replays the case that begins at the place `at`.
fn replay_case(list: &[u8], at: usize) -> Result<Case, Fault> {
    let tag = lists::read_tag(list, at, MARKS_CASE, STOPPED_CASE, MODED_CASE)?;
    match tag.value {
        Form::Moded => {
            let width = lists::read_number(list, tag.next, Item::Width)?;
            replay_stopped(list, width.next, width.value)
        }
        Form::Stopped => replay_stopped(list, tag.next, SAME_WIDTHS),
        Form::Plain => {
            let ahead = Ahead {
                width: SAME_WIDTHS,
                moving: false,
                stops: None,
            };
            replay_set(list, tag.next, ahead)
        }
    }
}

fn main(rt: HostRuntime) -> io::Result<()> {
    let mut bytes = [0u8; lists::ROOM];
    let n = lists::read_input(&rt, &mut bytes)?;
    let list = &bytes[..n];
    lists::replay(&rt, list, |at| replay_case(list, at))
}
