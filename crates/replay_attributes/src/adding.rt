// Cases of adding.
ghost use Rattle.std.specs.Prelude.{◌≡◌, length};

use crate::answer;
use crate::reading::{LONGEST_SLICE, Stored, read_head, read_size};
use attributes::Chart;
use groups::TooShort;
use lists::{Bytes, Case, Fault, Item};
use numbers::Numbered;

// The bytes of the longest answer: two slices of 4,100 numbers, each of ten bytes, and some numbers more.
const LONGEST: usize = 100_000;

// Writes what making and adding answered, and then the record's count and both slices.
fn put<S: Stored>(
    ours: &mut Bytes<LONGEST>,
    made: u8,
    added: &[u8],
    chart: Chart<S>,
    counts: &[u64],
    sizes: &[S],
) -> Result<(), TooShort> {
    ours.put(u64::from(made))?;
    for number in added {
        ours.put(u64::from(*number))?;
    }
    ours.put(chart.count as u64)?;
    ours.put_row(counts)?;
    ours.put_row(sizes)
}

/// Replays a case of adding, whose tag ends at the place `at`, beside the longest slice of sizes, of which it takes as many as it has.
pub fn replay<S: Stored>(list: &[u8], at: usize, sizes: &mut [S]) -> Result<Case, Fault>
    requires { length sizes.old ≡ 4100 }
{
    let read = read_head(list, at)?;
    let head = read.value;
    let many = lists::read_small(list, read.next, Item::Samples, 0, LONGEST_SLICE as u16)?;
    let n = usize::from(many.value);
    let mut counts = [1u64; LONGEST_SLICE];
    let counts = &mut counts[..head.counts];
    let sizes = &mut sizes[..head.sizes];
    let made = head.made();
    let mut chart = head.record(made);
    let mut told = [0u8; LONGEST_SLICE];
    let told = &mut told[..n];
    let mut next = many.next;
    for number in told.iter_mut() {
        let damaged = lists::read_number(list, next, Item::Value)?;
        let size = read_size(list, damaged.next)?;
        next = size.next;
        let added = chart.add(counts, sizes, damaged.value, size.value);
        *number = added.number();
        chart = added.unwrap_or(chart);
    }
    let mut ours = Bytes::new();
    let put = put(&mut ours, made.number(), told, chart, counts, sizes);
    answer::settle(list, next, 2 + n + counts.len() + sizes.len(), &ours, put)
}
