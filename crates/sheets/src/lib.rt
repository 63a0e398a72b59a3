// The mark sheet: a list of a series' marks in bytes, its writer, and its checker, which accepts the one true list only.
#![tactic(auto)]

mod checker;
mod reader;
mod writer;

ghost use Rattle.std.specs.Prelude.{◌≡◌, ◌≤◌, length};
ghost use Rattle.rules.specs.Terms.{told};
ghost use Rattle.rules.specs.Marking.{most};
ghost use Rattle.sheets.specs.Answers.{checked, written, check_of, write_of, room_after, fault_number};
ghost use Rattle.sheets.specs.declared.Fault.TheVariants.{Refused, Form};

use numbers::Numbered;
use rules::{MOST, Refusal, Terms};
use sets::RuleSet;

/// Why a sheet is not accepted.
#[derive(Clone, Copy, Debug, PartialEq, Eq)]
pub enum Fault {
    /// The series cannot be marked (5, 15, 4, 21 or 3).
    Refused(Refusal),
    /// The bytes are no sheet (9). The place is that of the first byte of the number at fault, or of the first byte left over.
    Form { at: usize },
    /// The sheet names another number of points or another set (10).
    Differs,
    /// The sheet states wrong marks (11): the first such position, the right marks, and those stated.
    Wrong { at: usize, right: u16, stated: u16 },
}

impl Numbered for Fault {
    ghost number = { fault_number };

    /// 01's number of the fault.
    fn number(&self) -> u8 {
        match self {
            Fault::Refused(why) => why.number(),
            Fault::Form { at: _ } => 9,
            Fault::Differs => 10,
            Fault::Wrong {
                at: _,
                right: _,
                stated: _,
            } => 11,
        }
    }
}

impl From<Refusal> for Fault {
    ghost from_gives = { λ why fault. fault ≡ Refused why };

    fn from(why: Refusal) -> Fault {
        Fault::Refused(why)
    }
}

impl From<groups::Fault> for Fault {
    ghost from_gives = { λ found fault. fault ≡ Form found.at };

    fn from(fault: groups::Fault) -> Fault {
        Fault::Form { at: fault.at }
    }
}

/// No sheet is longer: a room of so many bytes holds any.
pub const LONGEST: usize = 16_390;

// A room for so few marks is cleared faster than one for 4,096.
const FEW: usize = 128;

// Checks in a room for the right marks that holds them unless the values are too many.
fn check_in<const ROOM: usize>(
    values: &[f64],
    terms: Terms,
    set: RuleSet,
    sheet: &[u8],
) -> Result<(), Fault>
    requires { (length values.now ≤ most → length values.now ≤ ROOM) × (ROOM ≤ 4096) }
    ensures { checked result ≡ check_of (told terms.entry) set.mask values.now sheet.now }
{
    let mut marks = [0u16; ROOM];
    rules::mark(values, terms, set, &mut marks)?;
    checker::check_marks(&marks[..values.len()], set.mask, sheet)
}

// Writes with such a room.
fn write_in<const ROOM: usize>(
    values: &[f64],
    terms: Terms,
    set: RuleSet,
    out: &mut [u8],
) -> Result<usize, Refusal>
    requires { (length values.now ≤ most → length values.now ≤ ROOM) × (ROOM ≤ 4096) }
    ensures answer { written result ≡ write_of (told terms.entry) set.mask values.now (length out.old) }
    ensures room { out.new ≡ room_after (told terms.entry) set.mask values.now out.old }
{
    let mut marks = [0u16; ROOM];
    rules::mark(values, terms, set, &mut marks)?;
    writer::write_marks(&marks[..values.len()], set.mask, out)
}

/// Checks the bytes `sheet`, whoever made them, against a series, its stops, its limits and a rule set.
///
/// Gives `Ok` exactly if the bytes are the sheet that [`write`] gives for these: well formed, with this number of
/// points and this set, and with test b marked at point i exactly where the set has the test and its window that ends
/// at i fits, with no stop in it, and shows its pattern. There is exactly one such sheet. What the terms are says [`Terms`]; the
/// width mode is the caller's and not in the sheet, so a sheet of one mode may be wrong by the other.
///
/// # Refusals
///
/// In this order: more than 4,096 values (5), stops that are none of the series (15), a set over 511 (4), a width mode
/// that is not 0 or 1 (21), limits that are not all finite (3), values that are not all finite (3), bytes that are no sheet (9,
/// with the place), another number of points or another set (10), wrong marks (11, with the first such position, the right marks
/// and the stated ones).
///
/// # Example
///
/// With no values and the set shewhart, `00 01 00` is accepted, `00 01` is `Form { at: 2 }`, and `00 00 00` is `Differs`.
pub fn check(values: &[f64], terms: Terms, set: RuleSet, sheet: &[u8]) -> Result<(), Fault>
    ensures { checked result ≡ check_of (told terms.entry) set.mask values.now sheet.now }
{
    if values.len() <= FEW {
        return check_in::<FEW>(values, terms, set, sheet);
    }
    check_in::<MOST>(values, terms, set, sheet)
}

/// Writes the mark sheet of a series, its stops, its limits and a rule set at the front of the room `out`. What the terms are says
/// [`Terms`].
///
/// Gives `Ok` with the sheet's length; what lies past it is untouched.
///
/// # Refusals
///
/// In this order and with `out` as it came: more than 4,096 values (5), stops that are none of the series (15), a set over 511
/// (4), a width mode that is not 0 or 1 (21), limits that are not all finite (3), values that are not all finite (3), a room
/// shorter than the sheet (6).
///
/// # Example
///
/// Ten values of 26.5 with the limits 28.0, 25.0, 22.0 and the set nelson give the nineteen bytes
/// `0A FF 01 06 04 20 00 20 00 20 00 A0 01 00 A2 01 00 A2 01`.
pub fn write(values: &[f64], terms: Terms, set: RuleSet, out: &mut [u8]) -> Result<usize, Refusal>
    ensures answer { written result ≡ write_of (told terms.entry) set.mask values.now (length out.old) }
    ensures room { out.new ≡ room_after (told terms.entry) set.mask values.now out.old }
{
    if values.len() <= FEW {
        return write_in::<FEW>(values, terms, set, out);
    }
    write_in::<MOST>(values, terms, set, out)
}
