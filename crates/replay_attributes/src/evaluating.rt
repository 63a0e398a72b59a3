// Cases of evaluating.
ghost use Rattle.std.specs.Prelude.{◌≡◌, ◌≤◌, length, IfOk};

use crate::answer;
use crate::reading::{Head, LEAST, LONGEST_SLICE, Stored, read_head, read_length, read_sizes};
use groups::TooShort;
use lists::{Bytes, Case, Fault, Item, Read};
use numbers::Numbered;

// The bytes of the longest answer: four slices of 4,100 f64, each of ten bytes, two of yes or no, and some numbers more.
const LONGEST: usize = 180_000;

// The lengths of the slices that a chart is evaluated into.
#[derive(Clone, Copy)]
struct Rooms {
    values: usize,
    ucl: usize,
    lcl: usize,
    out: usize,
    z: usize,
    has_z: usize,
}

// Reads the lengths one after another.
fn read_rooms(list: &[u8], at: usize) -> Result<Read<Rooms>, Fault>
    ensures series { IfOk result (λ rooms. (rooms.value.values ≤ 4100) × (rooms.value.ucl ≤ 4100) × (rooms.value.lcl ≤ 4100)) }
    ensures marks { IfOk result (λ rooms. (rooms.value.out ≤ 4100) × (rooms.value.z ≤ 4100) × (rooms.value.has_z ≤ 4100)) }
{
    let values = read_length(list, at)?;
    let ucl = read_length(list, values.next)?;
    let lcl = read_length(list, ucl.next)?;
    let out = read_length(list, lcl.next)?;
    let z = read_length(list, out.next)?;
    let has_z = read_length(list, z.next)?;
    let value = Rooms {
        values: values.value,
        ucl: ucl.value,
        lcl: lcl.value,
        out: out.value,
        z: z.value,
        has_z: has_z.value,
    };
    Ok(Read {
        value,
        next: has_z.next,
    })
}

// Evaluates a chart into slices of these lengths, and writes making's number, evaluating's, the centre, which is zero where there
// is none, and the slices.
fn put_evaluated<S: Stored>(
    ours: &mut Bytes<LONGEST>,
    head: Head,
    counts: &[u64],
    sizes: &[S],
    rooms: Rooms,
) -> Result<(), TooShort>
    requires series { (rooms.values ≤ 4100) × (rooms.ucl ≤ 4100) × (rooms.lcl ≤ 4100) }
    requires marks { (rooms.out ≤ 4100) × (rooms.z ≤ 4100) × (rooms.has_z ≤ 4100) }
{
    let mut values = [LEAST; LONGEST_SLICE];
    let mut ucl = [LEAST; LONGEST_SLICE];
    let mut lcl = [LEAST; LONGEST_SLICE];
    let mut out = [true; LONGEST_SLICE];
    let mut z = [LEAST; LONGEST_SLICE];
    let mut has_z = [true; LONGEST_SLICE];
    let values = &mut values[..rooms.values];
    let ucl = &mut ucl[..rooms.ucl];
    let lcl = &mut lcl[..rooms.lcl];
    let out = &mut out[..rooms.out];
    let z = &mut z[..rooms.z];
    let has_z = &mut has_z[..rooms.has_z];
    let made = head.made();
    let answer = head
        .record(made)
        .evaluate(counts, sizes, values, ucl, lcl, out, z, has_z);
    ours.put(u64::from(made.number()))?;
    ours.put(u64::from(answer.number()))?;
    ours.put_row(&[answer.unwrap_or(0.0)])?;
    ours.put_row(values)?;
    ours.put_row(ucl)?;
    ours.put_row(lcl)?;
    ours.put_row(out)?;
    ours.put_row(z)?;
    ours.put_row(has_z)
}

/// Replays a case of evaluating, whose tag ends at the place `at`, beside the longest slice of sizes, of which it takes as many as it has.
pub fn replay<S: Stored>(list: &[u8], at: usize, sizes: &mut [S]) -> Result<Case, Fault>
    requires { length sizes.old ≡ 4100 }
{
    let read = read_head(list, at)?;
    let head = read.value;
    let mut counts = [0u64; LONGEST_SLICE];
    let counts = &mut counts[..head.counts];
    let sizes = &mut sizes[..head.sizes];
    let sizes_at = lists::read_row(list, read.next, Item::Value, counts)?;
    let rooms_at = read_sizes(list, sizes_at, sizes)?;
    let read = read_rooms(list, rooms_at)?;
    let rooms = read.value;
    // making's number, evaluating's, the centre, and the slices
    let numbers = 3 + rooms.values + rooms.ucl + rooms.lcl + rooms.out + rooms.z + rooms.has_z;
    let mut ours = Bytes::new();
    let put = put_evaluated(&mut ours, head, counts, sizes, rooms);
    answer::settle(list, read.next, numbers, &ours, put)
}
