// The answer of a marks case (oracle/FORMAT.md): ours in the bytes in which a list has it, and the place past a stored one.
ghost use Rattle.std.specs.Prelude.{◌≡◌, ◌++◌, OnOk};
ghost use Rattle.lists.specs.Ours.{in_groups};
ghost use Rattle.lists.specs.Outcomes.{OnlyIf};
ghost use Rattle.replay_marks.specs.Held.{answer_bytes};

use groups::TooShort;
use lists::{Bytes, Fault, Item, Outcome};

// The bytes of the longest answer: a number of one byte and 4,096 marks of two.
const LONGEST: usize = 8193;

// 01's number for a bad width mode, as a stored answer has it.
const BAD_WIDTH: u16 = 21;

// Writes our answer.
fn put(ours: &mut Bytes<LONGEST>, stopped: bool, number: u8, marks: &[u16]) -> Result<(), TooShort>
    ensures { OnOk result (ours.new ≡ ours.old ++ in_groups (answer_bytes stopped number marks.now)) }
{
    if !stopped {
        return ours.put_row(marks);
    }
    ours.put(u64::from(number))?;
    ours.put_row(marks)
}

/// Holds our answer to the stored one.
pub fn hold(stored: &[u8], stopped: bool, number: u8, marks: &[u16]) -> Outcome
    ensures { OnlyIf (in_groups (answer_bytes stopped number marks.now) ≡ stored.now) result }
{
    let mut ours = Bytes::new();
    let put = put(&mut ours, stopped, number, marks);
    lists::hold(&ours, put, stored)
}

/// Passes over the stored answer to n values.
pub fn pass(list: &[u8], at: usize, stopped: bool, n: usize) -> Result<usize, Fault> {
    if !stopped {
        return lists::pass_numbers(list, at, Item::Answer, n);
    }
    let answer = lists::read_answer(list, at, BAD_WIDTH)?;
    if answer.value != 0 {
        return Ok(answer.next);
    }
    lists::pass_numbers(list, answer.next, Item::Answer, n)
}
