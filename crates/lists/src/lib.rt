// Lists of cases with their right answers, in the form of oracle/FORMAT.md: reading what they hold, writing what is ours as
// they have it, holding the one to the other case by case, and saying why bytes are no list. What reads takes the list and a
// place, and gives the next one: the definitions (specs/Reading.antt) speak of these two, so each promise is one equation, and a
// reader that moves would be no plainer.
#![tactic(auto)]

mod input;
mod ours;
mod outcome;
mod row;
mod run;
mod words;

ghost use Rattle.std.specs.Prelude.{◌≡◌, ◌≤◌, length, IfOk};
ghost use Rattle.lists.specs.Reading.{cut, no_number, number_from, small_from, not_listed, tag_from, answer_from, float_from};
ghost use Rattle.lists.specs.Reading.{bytes_from, numbers_from, opening_of, closing_from};

pub use groups::Read;
pub use input::read_input;
pub use ours::{Bytes, Listed, all_are, bits, hold};
pub use outcome::{Difference, Outcome, Parting, compare, stored};
pub use row::{Entry, read_row};
pub use run::{Case, replay};

/// Bytes of the longest list.
pub const MOST_BYTES: usize = 400_000;

/// Room for a list, and one byte more, so that a longer one is seen.
pub const ROOM: usize = MOST_BYTES + 1;

/// The largest rule set.
pub const ALL_TESTS: u16 = 511;

/// What a number of a list stands for.
#[derive(Clone, Copy, Debug, PartialEq, Eq)]
pub enum Item {
    Format,
    Cases,
    Tag,
    Width,
    Moving,
    Stops,
    Stop,
    Kind,
    Size,
    Set,
    Limit,
    Centre,
    Room,
    Count,
    Samples,
    Value,
    Answer,
    Flow,
    Text,
    End,
}

/// Why bytes are no list.
#[derive(Clone, Copy, Debug, PartialEq, Eq)]
pub enum Why {
    /// The bytes end at the number or inside it.
    Cut,
    /// The number is longer than its shortest form or over 64 bits.
    Form,
    /// The number is `value` and ought to be `low` to `high`.
    Range { value: u64, low: u16, high: u16 },
    /// The number is `value`, which no list has there.
    Unlisted { value: u64 },
    /// The number is an f64's bits, and the f64 is not finite.
    NotFinite,
    /// Bytes follow the end.
    LeftOver,
    /// There are more bytes than a list may have.
    TooLong,
}

/// Where and why bytes are no list. The place is that of the first byte of the number concerned.
#[derive(Clone, Copy, Debug, PartialEq, Eq)]
pub struct Fault {
    pub at: usize,
    pub item: Item,
    pub why: Why,
}

/// What a tag says of its case.
#[derive(Clone, Copy, Debug, PartialEq, Eq)]
pub enum Form {
    Plain,
    /// It has stops.
    Stopped,
    /// It has stops and a width mode.
    Moded,
}

/// Where bytes that stand as they are begin, and the place just past them. No Range: that is an iterator, and cannot be copied.
#[derive(Clone, Copy, Debug, PartialEq, Eq)]
pub struct Stretch {
    pub from: usize,
    pub to: usize,
}

// Whether the bytes end before a number that begins at the place does.
#[tactic(auto, unfolding(crate::specs::Reading::cut))]
fn is_cut(list: &[u8], at: usize) -> bool
    ensures { result ≡ cut list.now at }
{
    list.iter().skip(at).all(|byte| 128 <= *byte)
}

// Why no number stands at the place.
fn fault_of(list: &[u8], at: usize, item: Item) -> Fault
    ensures { result ≡ no_number list.now at item }
{
    let why = if is_cut(list, at) {
        Why::Cut
    } else {
        Why::Form
    };
    Fault { at, item, why }
}

/// Reads the number at the place `at`.
#[tactic(auto, unfolding(crate::specs::Reading::number_from))]
pub fn read_number(list: &[u8], at: usize, item: Item) -> Result<Read<u64>, Fault>
    ensures { result ≡ number_from list.now item at }
{
    groups::read_number(list, at).map_err(|fault| fault_of(list, fault.at, item))
}

/// Reads the number at the place `at`, which has to be `low` to `high`.
#[tactic(auto, unfolding(crate::specs::Reading::small_from))]
pub fn read_small(
    list: &[u8],
    at: usize,
    item: Item,
    low: u16,
    high: u16,
) -> Result<Read<u16>, Fault>
    ensures result_value { result ≡ small_from list.now item low high at }
    ensures most { IfOk result (λ number. number.value ≤ high) }
{
    let number = read_number(list, at, item)?;
    let value = number.value;
    if value < u64::from(low) || u64::from(high) < value {
        return Err(Fault {
            at,
            item,
            why: Why::Range { value, low, high },
        });
    }
    Ok(Read {
        value: value as u16,
        next: number.next,
    })
}

// No list has the number there.
fn unlisted(at: usize, item: Item, value: u16) -> Fault
    ensures { result ≡ not_listed at item value }
{
    Fault {
        at,
        item,
        why: Why::Unlisted {
            value: u64::from(value),
        },
    }
}

/// Reads the tag at the place `at`: that of a case, of such a case with stops, or of one in a width mode.
#[tactic(auto, unfolding(crate::specs::Reading::tag_from))]
pub fn read_tag(
    list: &[u8],
    at: usize,
    plain: u16,
    stopped: u16,
    moded: u16,
) -> Result<Read<Form>, Fault>
    ensures { result ≡ tag_from list.now plain stopped moded at }
{
    let tag = read_small(list, at, Item::Tag, plain, moded)?;
    let value = if tag.value == plain {
        Form::Plain
    } else if tag.value == stopped {
        Form::Stopped
    } else if tag.value == moded {
        Form::Moded
    } else {
        return Err(unlisted(at, Item::Tag, tag.value));
    };
    Ok(Read {
        value,
        next: tag.next,
    })
}

/// Reads the answer at the place `at`: 01's number, which has to be 0, or 7 to `high`.
#[tactic(auto, unfolding(crate::specs::Reading::answer_from))]
pub fn read_answer(list: &[u8], at: usize, high: u16) -> Result<Read<u16>, Fault>
    ensures { result ≡ answer_from list.now high at }
{
    let answer = read_small(list, at, Item::Answer, 0, high)?;
    if (answer.value == 0) | (7 <= answer.value) {
        return Ok(answer);
    }
    Err(unlisted(at, Item::Answer, answer.value))
}

/// Reads the f64 at the place `at`, which has to be finite.
#[tactic(auto, unfolding(crate::specs::Reading::float_from))]
pub fn read_float(list: &[u8], at: usize, item: Item) -> Result<Read<f64>, Fault>
    ensures { result ≡ float_from list.now item at }
{
    let number = read_number(list, at, item)?;
    let value = floats::of_bits(number.value);
    if floats::is_finite(value) {
        return Ok(Read {
            value,
            next: number.next,
        });
    }
    Err(Fault {
        at,
        item,
        why: Why::NotFinite,
    })
}

/// Passes over n numbers, and gives the place just past them.
pub fn pass_numbers(list: &[u8], at: usize, item: Item, n: usize) -> Result<usize, Fault>
    ensures { result ≡ (numbers_from list.now item n at).1 }
{
    let mut next = at;
    for _ in 0..n {
        next = read_number(list, next, item)?.next;
    }
    Ok(next)
}

/// Reads how many bytes there are at the place `at`, and passes over these.
#[tactic(auto, unfolding(crate::specs::Reading::bytes_from))]
pub fn read_bytes(list: &[u8], at: usize, item: Item) -> Result<Stretch, Fault>
    ensures result_value { result ≡ bytes_from list.now item at }
    ensures inside { IfOk result (λ bytes. (bytes.from ≤ bytes.to) × (bytes.to ≤ length list.now)) }
{
    let count = read_number(list, at, item)?;
    let from = count.next;
    if list.len() < from || ((list.len() - from) as u64) < count.value {
        return Err(Fault {
            at,
            item,
            why: Why::Cut,
        });
    }
    Ok(Stretch {
        from,
        to: from + count.value as usize,
    })
}

/// Reads what stands before the first case, and gives the number of cases.
#[tactic(auto, unfolding(crate::specs::Reading::opening_of))]
pub fn opening(list: &[u8]) -> Result<Read<u64>, Fault>
    ensures { result ≡ opening_of list.now }
{
    if MOST_BYTES < list.len() {
        return Err(Fault {
            at: MOST_BYTES,
            item: Item::End,
            why: Why::TooLong,
        });
    }
    let format = read_small(list, 0, Item::Format, 1, 1)?;
    read_number(list, format.next, Item::Cases)
}

/// Reads the end, which stands where the next tag would and is followed by nothing; gives the place past it.
#[tactic(auto, unfolding(crate::specs::Reading::closing_from))]
pub fn closing(list: &[u8], at: usize) -> Result<usize, Fault>
    ensures { result ≡ closing_from list.now at }
{
    let end = read_small(list, at, Item::End, 0, 0)?.next;
    if end < list.len() {
        return Err(Fault {
            at: end,
            item: Item::End,
            why: Why::LeftOver,
        });
    }
    Ok(end)
}
