// The library's functions over bytes, which `twin_c` exports to C: values are bytes, eight to an f64, marks are bytes, two to a
// point, low byte first. Each answer but that of the root, which is an f64, has document 01's number in bits 0 to 7.
#![tactic(auto)]

ghost use Rattle.std.specs.Prelude.{◌≡◌, ◌*◌, ◌/◌, ◌^◌, ◌≤◌, ◌<◌, length};
ghost use Rattle.laws.specs.Front.{at_front};
ghost use Rattle.rules.specs.Terms.{told, unstopped};
ghost use Rattle.rules.specs.Marking.{most};
ghost use Rattle.sheets.specs.Answers.{faulted};
ghost use Rattle.twin.specs.Bytes.{floats_of, bytes_of};
ghost use Rattle.twin.specs.Answers.{terms_of, mark_number, mark_room, packed, check_number};
ghost use Rattle.twin.specs.Answers.{packed_length, write_number, write_room, root_number};
ghost use Rattle.twin.specs.Steps.{number, numbered, as_fault, checked, written, early, values_after};
ghost use Rattle.twin.specs.declared.Refusal.TheVariants.{Series};
ghost use Rattle.twin.specs.declared.Fault.TheVariants.{Sheet};

use numbers::Numbered;
use rules::{Limits, MOST, SAME_WIDTHS, Terms};
use sets::RuleSet;

// Why a series in bytes is not marked, and no sheet of it is written.
#[derive(Clone, Copy)]
enum Refusal {
    // The bytes are not eight to a value (2).
    Ragged,
    // The series is refused (5, 4, 3, or 6 for the room).
    Series(rules::Refusal),
}

impl Numbered for Refusal {
    ghost number = { number };

    fn number(&self) -> u8 {
        match self {
            Refusal::Ragged => 2,
            Refusal::Series(why) => why.number(),
        }
    }
}

impl From<rules::Refusal> for Refusal {
    ghost from_gives = { λ why refusal. refusal ≡ Series why };

    fn from(why: rules::Refusal) -> Refusal {
        Refusal::Series(why)
    }
}

// Why a sheet is not accepted for a series in bytes. Beside the enum above it and no generic one of both: each says what is refused.
#[derive(Clone, Copy)]
enum Fault {
    // The bytes of the series are not eight to a value (2).
    Ragged,
    // The series is refused, or the sheet (9, 10, 11).
    Sheet(sheets::Fault),
}

impl From<Refusal> for Fault {
    ghost from_gives = { λ why fault. fault ≡ as_fault why };

    fn from(why: Refusal) -> Fault {
        match why {
            Refusal::Ragged => Fault::Ragged,
            Refusal::Series(why) => Fault::Sheet(sheets::Fault::Refused(why)),
        }
    }
}

impl From<sheets::Fault> for Fault {
    ghost from_gives = { λ found fault. fault ≡ Sheet found };

    fn from(found: sheets::Fault) -> Fault {
        Fault::Sheet(found)
    }
}

// Rooms for so few values are cleared faster than those for 4,096.
const FEW: usize = 128;

// The values that the bytes mean, at the front of `out`.
fn read_floats(b: &[u8], out: &mut [f64])
    requires { length b.now / 8 ≤ length out.old }
    ensures { out.new ≡ at_front (floats_of b.now) out.old }
{
    let (words, _) = b.as_chunks::<8>();
    for (i, word) in words.iter().enumerate() {
        out[i] = floats::of_bits(u64::from_le_bytes(*word));
    }
}

// How each call begins: the values at the front of `vs`, or what is refused before one of them is read.
fn read_values(b: &[u8], set: u32, vs: &mut [f64]) -> Result<(), Refusal>
    requires { length b.now / 8 ≤ most → length b.now / 8 ≤ length vs.old }
    ensures answer { numbered result ≡ early b.now set }
    ensures room { vs.new ≡ values_after b.now set vs.old }
{
    if b.len() % 8 != 0 {
        return Err(Refusal::Ragged);
    }
    if MOST < b.len() / 8 {
        return Err(Refusal::Series(rules::Refusal::TooMany));
    }
    if u32::from(RuleSet::ALL) < set {
        return Err(Refusal::Series(rules::Refusal::SetTooLarge));
    }
    read_floats(b, vs);
    Ok(())
}

// The bytes of the marks, at the front of `out`.
fn put_marks(ms: &[u16], out: &mut [u8])
    requires { 2 * length ms.now ≤ length out.old }
    ensures { out.new ≡ at_front (bytes_of ms.now) out.old }
{
    for (i, m) in ms.iter().enumerate() {
        out[2 * i..2 * i + 2].copy_from_slice(&m.to_le_bytes());
    }
}

// The word of a fault of a sheet, its number as C reads it in bits 0 to 7, which has room for every place and every position that the checker gives (proofs/Packing.antt).
fn pack_fault(fault: sheets::Fault) -> u64
    requires { packed (faulted fault) < 2 ^ 64 }
    ensures { result ≡ packed (faulted fault) }
{
    match fault {
        sheets::Fault::Refused(why) => u64::from(why.number()),
        sheets::Fault::Form { at } => 9 + 256 * (at as u64),
        sheets::Fault::Differs => 10,
        sheets::Fault::Wrong { at, right, stated } => 11
            + 256 * (at as u64)
            + 16777216 * u64::from(right)
            + 1099511627776 * u64::from(stated),
    }
}

// A verdict in one word.
fn pack(verdict: Result<(), Fault>) -> u64
    requires { packed (checked verdict) < 2 ^ 64 }
    ensures { result ≡ packed (checked verdict) }
{
    match verdict {
        Ok(()) => 0,
        Err(Fault::Ragged) => 2,
        Err(Fault::Sheet(fault)) => pack_fault(fault),
    }
}

// The same of a writer's answer, with the sheet's length.
fn pack_length(answer: Result<usize, Refusal>) -> u64
    requires { packed_length (written answer) < 2 ^ 64 }
    ensures { result ≡ packed_length (written answer) }
{
    match answer {
        Ok(len) => 256 * (len as u64),
        Err(why) => u64::from(why.number()),
    }
}

// What a series is asked under: no stops come through the boundary, and no width mode.
fn unstopped<'a>(limits: Limits) -> Terms<'a>
    ensures { told result ≡ unstopped limits }
{
    Terms::alone(limits, SAME_WIDTHS)
}

// The three calls on the bytes of the values, with rooms for what is read of them and for its marks: these hold as many as there
// are values, unless the values are too many. Each begins alike: there is no heap to hand a room on with what was read into it.

fn mark_in<const ROOM: usize>(
    values: &[u8],
    limits: Limits,
    set: u32,
    marks: &mut [u8],
) -> Result<(), Refusal>
    requires { (length values.now / 8 ≤ most → length values.now / 8 ≤ ROOM) × (ROOM ≤ 4096) }
    ensures answer { numbered result ≡ mark_number (unstopped limits) set values.now marks.old }
    ensures marks { marks.new ≡ mark_room (unstopped limits) set values.now marks.old }
{
    let n = values.len() / 8;
    let mut vs = [0.0f64; ROOM];
    read_values(values, set, &mut vs)?;
    let mut ms = [0u16; ROOM];
    let set = RuleSet { mask: set as u16 };
    rules::mark(&vs[..n], unstopped(limits), set, &mut ms)?;
    if marks.len() / 2 < n {
        return Err(Refusal::Series(rules::Refusal::TooShort));
    }
    put_marks(&ms[..n], marks);
    Ok(())
}

fn check_in<const ROOM: usize>(
    values: &[u8],
    limits: Limits,
    set: u32,
    sheet: &[u8],
) -> Result<(), Fault>
    requires { (length values.now / 8 ≤ most → length values.now / 8 ≤ ROOM) × (ROOM ≤ 4096) }
    ensures { packed (checked result) ≡ check_number (unstopped limits) set values.now sheet.now }
{
    let n = values.len() / 8;
    let mut vs = [0.0f64; ROOM];
    read_values(values, set, &mut vs)?;
    let set = RuleSet { mask: set as u16 };
    Ok(sheets::check(&vs[..n], unstopped(limits), set, sheet)?)
}

fn write_in<const ROOM: usize>(
    values: &[u8],
    limits: Limits,
    set: u32,
    sheet: &mut [u8],
) -> Result<usize, Refusal>
    requires { (length values.now / 8 ≤ most → length values.now / 8 ≤ ROOM) × (ROOM ≤ 4096) }
    ensures answer { packed_length (written result) ≡ write_number (unstopped limits) set values.now sheet.old }
    ensures room { sheet.new ≡ write_room (unstopped limits) set values.now sheet.old }
{
    let n = values.len() / 8;
    let mut vs = [0.0f64; ROOM];
    read_values(values, set, &mut vs)?;
    let set = RuleSet { mask: set as u16 };
    Ok(sheets::write(&vs[..n], unstopped(limits), set, sheet)?)
}

/// Marks every point of a series: two bytes a point at the front of `marks`, low byte first, with test b of the set in
/// bit b exactly where the window of the test that ends at the point fits and shows the test's pattern.
///
/// `values` has eight bytes a value, low byte first. Gives 0; bytes of `marks` past the last one written are untouched.
///
/// # Refusals
///
/// In this order, with `marks` as it came: 2 where the length of `values` is not a multiple of eight, 5 for more than 4,096
/// values, 4 for a set over 511, 3 for limits that are not all finite, 3 for values that are not all finite, 6 where `marks`
/// is shorter than two bytes a point.
///
/// # Example
///
/// The value 28.5 (`00 00 00 00 00 80 3c 40`) under the limits 28.0, 25.0, 22.0 and the set 1 gives 0 and leaves `01 00` at
/// the front of `marks`: it lies beyond a limit. With its last byte missing it is 2.
pub fn dramulenz_mark(values: &[u8], ucl: f64, cl: f64, lcl: f64, set: u32, marks: &mut [u8]) -> u64
    ensures answer { result ≡ mark_number (terms_of ucl cl lcl) set values.now marks.old }
    ensures marks { marks.new ≡ mark_room (terms_of ucl cl lcl) set values.now marks.old }
{
    let limits = Limits { ucl, cl, lcl };
    if values.len() <= 8 * FEW {
        return u64::from(mark_in::<FEW>(values, limits, set, marks).number());
    }
    u64::from(mark_in::<MOST>(values, limits, set, marks).number())
}

/// Checks the bytes `sheet`, whoever made them, against a series, its limits and a rule set.
///
/// `values` has eight bytes a value, low byte first. Gives 0 exactly if `sheet` is the one mark sheet of these, which is
/// the one that [`dramulenz_write`] writes.
///
/// # Refusals
///
/// In bits 0 to 7 the number, in this order: 2 where the length of `values` is not a multiple of eight, 5 for more than
/// 4,096 values, 4 for a set over 511, 3 for limits that are not all finite, 3 for values that are not all finite, 9 for bytes
/// that are no sheet, 10 for another number of points or another set, 11 for wrong marks.
///
/// At 9 the place of the fault is in bits 8 and up. At 11 the first wrong position is in bits 8 to 23, the right marks there
/// are in bits 24 to 39, and the stated ones in bits 40 to 55. All other bits are zero.
///
/// # Example
///
/// With no values and the set 1, `00 01 00` gives 0, `00 01` gives `0x209` (a fault at place 2), and `00 00 00` gives 10.
pub fn dramulenz_check(values: &[u8], ucl: f64, cl: f64, lcl: f64, set: u32, sheet: &[u8]) -> u64
    ensures { result ≡ check_number (terms_of ucl cl lcl) set values.now sheet.now }
{
    let limits = Limits { ucl, cl, lcl };
    if values.len() <= 8 * FEW {
        return pack(check_in::<FEW>(values, limits, set, sheet));
    }
    pack(check_in::<MOST>(values, limits, set, sheet))
}

/// Writes the mark sheet of a series, its limits and a rule set at the front of `sheet`.
///
/// `values` has eight bytes a value, low byte first. Gives the sheet's length in bits 8 and up, and 0 in bits 0 to 7; bytes
/// of `sheet` past the last one written are untouched. No sheet is longer than 16,390 bytes.
///
/// # Refusals
///
/// In this order, with `sheet` as it came: 2 where the length of `values` is not a multiple of eight, 5 for more than 4,096
/// values, 4 for a set over 511, 3 for limits that are not all finite, 3 for values that are not all finite, 6 where `sheet`
/// is shorter than the mark sheet.
///
/// # Example
///
/// With no values and the set 1, `00 01 00` is written and `0x300` is given.
pub fn dramulenz_write(
    values: &[u8],
    ucl: f64,
    cl: f64,
    lcl: f64,
    set: u32,
    sheet: &mut [u8],
) -> u64
    ensures answer { result ≡ write_number (terms_of ucl cl lcl) set values.now sheet.old }
    ensures room { sheet.new ≡ write_room (terms_of ucl cl lcl) set values.now sheet.old }
{
    let limits = Limits { ucl, cl, lcl };
    if values.len() <= 8 * FEW {
        return pack_length(write_in::<FEW>(values, limits, set, sheet));
    }
    pack_length(write_in::<MOST>(values, limits, set, sheet))
}

/// The square root of `x`, rounded to the nearest f64; that of +0.0 and of -0.0 is the same zero.
///
/// # Refusal
///
/// +0.0 where `x` is a NaN, an infinity or below zero.
///
/// # Example
///
/// `dramulenz_root(4.0)` is 2.0, `dramulenz_root(-4.0)` is +0.0.
pub fn dramulenz_root(x: f64) -> f64
    ensures { result ≡ root_number x }
{
    root::root(x).unwrap_or(0.0)
}
