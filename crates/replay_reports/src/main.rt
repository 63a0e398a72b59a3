// Replays a list of report cases (oracle/FORMAT.md) from standard input: writes the report of each case afresh and holds
// its length and every byte to what is stored, the bytes past it to what they were, and a room one byte too short to its
// refusal. Writes a line for each case that it finds otherwise, and last how many cases there are and how many of them
// differ; or, where the bytes are no list, last a line that says at which byte and why.
#![tactic(auto)]

ghost use Rattle.std.specs.Prelude.{◌≡◌, ◌≤◌, length};
ghost use Rattle.lists.specs.Outcomes.{OnlyIf};

use lists::{Case, Difference, Fault, Item, Outcome};
use numbers::Numbered;
use std::io;

// The tag of a report case: its number in the lists' form (oracle/FORMAT.md).
const REPORT_CASE: u16 = 3;

// How many bytes more than the report a room for it has.
const SPARE: usize = 4;

// What a room holds before a report is written. No report has this byte, and past the last of it it has to stay.
const UNTOUCHED: u8 = 0xff;

// Writes the report into the room and holds it to the right bytes: those of the report, whose length is n, and untouched
// ones behind them.
fn judge(flow: &[u8], room: &mut [u8], right: &[u8], n: usize) -> Outcome
    ensures { OnlyIf (room.new ≡ right.now) result }
{
    let len = reports::report(flow, room).map_err(|why| Difference::Refused(why.number()))?;
    if len != n {
        return Err(Difference::Length(len));
    }
    lists::compare(room, right)
}

// Room for any report of a list, and `SPARE` bytes more, untouched. It is a function since a goal would have to see through an array
// so long.
fn untouched() -> [u8; lists::ROOM + SPARE]
    ensures { 400005 ≡ length result }
{
    [UNTOUCHED; lists::ROOM + SPARE]
}

// Whether a room one byte shorter than the report, whose length is n, is taken.
fn short_taken(flow: &[u8], n: usize) -> bool
    requires { n ≤ 400001 }
{
    let Some(short) = n.checked_sub(1) else {
        return false;
    };
    let mut room = untouched();
    reports::report(flow, &mut room[..short]).is_ok()
}

// Replays a case, told its flow file and the report stored for it.
fn replay_text(flow: &[u8], text: &[u8]) -> Outcome
    requires { length text.now ≤ 400001 }
{
    let n = text.len();
    if short_taken(flow, n) {
        return Err(Difference::Taken);
    }
    let mut room = untouched();
    let mut right = untouched();
    right[..n].copy_from_slice(text);
    judge(flow, &mut room[..n + SPARE], &right[..n + SPARE], n)
}

// Replays the case that begins at the place `at`.
fn replay_case(list: &[u8], at: usize) -> Result<Case, Fault>
    requires { length list.now ≤ 400001 }
{
    let tag = lists::read_small(list, at, Item::Tag, REPORT_CASE, REPORT_CASE)?;
    let flow = lists::read_bytes(list, tag.next, Item::Flow)?;
    let text = lists::read_bytes(list, flow.to, Item::Text)?;
    Ok(Case {
        outcome: replay_text(&list[flow.from..flow.to], &list[text.from..text.to]),
        next: text.to,
    })
}

// Room for a list; a function as `untouched` is.
fn list_room() -> [u8; lists::ROOM]
    ensures { 400001 ≡ length result }
{
    [0; lists::ROOM]
}

fn main(rt: HostRuntime) -> io::Result<()> {
    let mut bytes = list_room();
    let n = lists::read_input(&rt, &mut bytes)?;
    let list = &bytes[..n];
    lists::replay(&rt, list, |at| replay_case(list, at))
}
