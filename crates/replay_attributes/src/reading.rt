// What stands before the answer of an attribute case (oracle/FORMAT.md).
ghost use Rattle.std.specs.Prelude.{◌≤◌, IfOk};

use attributes::{Centre, Chart, Refusal, SampleSize};
use lists::{Fault, Item, Listed, Read};
use std::marker::PhantomData;

/// The longest slice that a case has.
pub const LONGEST_SLICE: usize = 4100;

/// The smallest f64, whose bits are 1: what an entry of a slice that is lent for writing is beforehand.
pub const LEAST: f64 = 5.0e-324;

/// A sample's size, which stands in a list as a number.
pub trait Stored: SampleSize + Listed {
    /// The size that stands as this number.
    fn of(number: u64) -> Self;
}

impl Stored for u64 {
    fn of(number: u64) -> u64 {
        number
    }
}

/// Units stand as their bits.
impl Stored for f64 {
    fn of(number: u64) -> f64 {
        floats::of_bits(number)
    }
}

/// A record, and the lengths of the two slices beside it.
#[derive(Clone, Copy)]
pub struct Head {
    pub centre: Centre,
    pub count: usize,
    pub counts: usize,
    pub sizes: usize,
}

impl Head {
    /// What making a chart with this centre answers.
    pub fn made<S: Stored>(self) -> Result<Chart<S>, Refusal> {
        match self.centre {
            Centre::Computed => Ok(Chart::new()),
            Centre::Given(x) => Chart::with_centre(x),
        }
    }

    /// The record: what was made, and else one that nothing of ours made, with the count of the head.
    pub fn record<S: Stored>(self, made: Result<Chart<S>, Refusal>) -> Chart<S> {
        let none = Chart {
            centre: self.centre,
            count: 0,
            size: PhantomData,
        };
        Chart {
            count: self.count,
            ..made.unwrap_or(none)
        }
    }
}

fn read_centre(list: &[u8], at: usize) -> Result<Read<Centre>, Fault> {
    let given = lists::read_small(list, at, Item::Centre, 0, 1)?;
    if given.value == 0 {
        return Ok(Read {
            value: Centre::Computed,
            next: given.next,
        });
    }
    let bits = lists::read_number(list, given.next, Item::Centre)?;
    Ok(Read {
        value: Centre::Given(floats::of_bits(bits.value)),
        next: bits.next,
    })
}

/// Reads the length of a slice.
pub fn read_length(list: &[u8], at: usize) -> Result<Read<usize>, Fault>
    ensures { IfOk result (λ length. length.value ≤ 4100) }
{
    let length = lists::read_small(list, at, Item::Room, 0, LONGEST_SLICE as u16)?;
    Ok(Read {
        value: usize::from(length.value),
        next: length.next,
    })
}

/// Reads a head at the place `at`.
pub fn read_head(list: &[u8], at: usize) -> Result<Read<Head>, Fault>
    ensures { IfOk result (λ head. (head.value.counts ≤ 4100) × (head.value.sizes ≤ 4100)) }
{
    let centre = read_centre(list, at)?;
    let count = lists::read_number(list, centre.next, Item::Samples)?;
    let counts = read_length(list, count.next)?;
    let sizes = read_length(list, counts.next)?;
    Ok(Read {
        value: Head {
            centre: centre.value,
            count: count.value as usize,
            counts: counts.value,
            sizes: sizes.value,
        },
        next: sizes.next,
    })
}

/// Reads the size of a sample at the place `at`.
pub fn read_size<S: Stored>(list: &[u8], at: usize) -> Result<Read<S>, Fault> {
    let number = lists::read_number(list, at, Item::Value)?;
    Ok(Read {
        value: S::of(number.value),
        next: number.next,
    })
}

/// Reads as many sizes as `out` has room for, and gives the place just past them. No `read_row`: units stand as any bits, and an f64
/// of a row has to be finite.
pub fn read_sizes<S: Stored>(list: &[u8], at: usize, out: &mut [S]) -> Result<usize, Fault> {
    let mut next = at;
    for size in out.iter_mut() {
        let read = read_size(list, next)?;
        *size = read.value;
        next = read.next;
    }
    Ok(next)
}
