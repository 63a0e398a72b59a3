// The checker: the bytes are read once, and no count in them is trusted.
ghost use Rattle.std.specs.Prelude.{◌≡◌, ◌≤◌, length};
ghost use Rattle.sheets.specs.Said.{said};
ghost use Rattle.sheets.specs.Steps.{behind};
ghost use Rattle.sheets.specs.Answers.{checked, first_wrong, judged};

use crate::reader::Head;
use crate::{FEW, Fault, reader};
use rules::MOST;

// The first point whose right and stated marks differ.
fn first_wrong(right: &[u16], stated: &[u16]) -> Result<(), Fault>
    requires { length right.now ≡ length stated.now }
    ensures { checked result ≡ first_wrong 0 right.now stated.now }
{
    // Most sheets are right, and one comparison of all marks is faster than one for each point.
    if right == stated {
        return Ok(());
    }
    match right.iter().zip(stated).position(|(r, m)| r != m) {
        None => Ok(()),
        Some(at) => Err(Fault::Wrong {
            at,
            right: right[at],
            stated: stated[at],
        }),
    }
}

// The entries behind a head, against a set and its right marks, in a room that holds those of every point.
fn check_entries<const ROOM: usize>(
    s: &[u8],
    head: Head,
    right: &[u16],
    set: u16,
) -> Result<(), Fault>
    requires { (head.points ≤ ROOM) × (ROOM ≤ 4096) }
    ensures { checked result ≡ judged set right.now (behind s.now head) }
{
    let mut room = [0u16; ROOM];
    let stated = &mut room[..head.points];
    reader::read_entries(s, head, stated)?;
    if stated.len() != right.len() || head.set != set {
        return Err(Fault::Differs);
    }
    first_wrong(right, stated)
}

// Whether the bytes are the sheet of the set and its right marks: the form first, then points and set, then the marks.
pub fn check_marks(marks: &[u16], set: u16, s: &[u8]) -> Result<(), Fault>
    ensures { checked result ≡ judged set marks.now (said s.now) }
{
    let head = reader::read_head(s)?;
    if head.points <= FEW {
        return check_entries::<FEW>(s, head, marks, set);
    }
    check_entries::<MOST>(s, head, marks, set)
}
