// Replays a list of attribute cases (oracle/FORMAT.md) from standard input: makes each chart, adds to it or evaluates it,
// and holds its answers, its record and every entry of its slices byte for byte to what is stored. Writes a line for each
// case that it finds otherwise, and last how many cases there are and how many of them differ; or, where the bytes are no
// list, last a line that says at which byte and why.
#![tactic(auto)]

mod adding;
mod answer;
mod evaluating;
mod reading;

use lists::{Case, Fault, Item};
use reading::{LEAST, LONGEST_SLICE};
use std::io;

// The tags of its cases: adding to a P and to a U chart, evaluating a P and a U chart; the numbers of the lists' form.
const P_ADDING: u16 = 6;

const U_ADDING: u16 = 7;

const P_EVALUATING: u16 = 8;

const U_EVALUATING: u16 = 9;

// Replays the case that begins at the place `at`. What is added to holds ones in its list's form beforehand.
fn replay_case(list: &[u8], at: usize) -> Result<Case, Fault> {
    let tag = lists::read_small(list, at, Item::Tag, P_ADDING, U_EVALUATING)?;
    match tag.value {
        P_ADDING => adding::replay(list, tag.next, &mut [1u64; LONGEST_SLICE]),
        U_ADDING => adding::replay(list, tag.next, &mut [LEAST; LONGEST_SLICE]),
        P_EVALUATING => evaluating::replay(list, tag.next, &mut [0u64; LONGEST_SLICE]),
        _ => evaluating::replay(list, tag.next, &mut [0.0f64; LONGEST_SLICE]),
    }
}

fn main(rt: HostRuntime) -> io::Result<()> {
    let mut bytes = [0u8; lists::ROOM];
    let n = lists::read_input(&rt, &mut bytes)?;
    let list = &bytes[..n];
    lists::replay(&rt, list, |at| replay_case(list, at))
}
