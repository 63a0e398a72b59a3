// The writer: the sheet is measured first, and each entry goes into what is left of the room.
ghost use Rattle.std.specs.Prelude.{◌≡◌, ◌++◌, ◌≤◌, length};
ghost use Rattle.laws.specs.Front.{at_front, at_front_if_room, room_for};
ghost use Rattle.groups.specs.Groups.{groups};
ghost use Rattle.rules.specs.Marking.{most};
ghost use Rattle.sheets.specs.Sheet.{entries_of, sheet_of};
ghost use Rattle.sheets.specs.Answers.{written};
ghost use Rattle.sheets.specs.Steps.{Measured};

use rules::Refusal;

// How many groups a number of a sheet has.
fn size(x: u16) -> usize
    ensures { (result ≡ length (groups x)) × (result ≤ 10) }
{
    groups::size(u64::from(x))
}

// Writes a number at the front of a room that holds it, and gives how many bytes it takes: there is no refusal to hand on.
fn put(out: &mut [u8], x: u16) -> usize
    requires { length (groups x) ≤ length out.old }
    ensures count { result ≡ length (groups x) }
    ensures room { out.new ≡ at_front (groups x) out.old }
{
    groups::write_number(out, u64::from(x)).unwrap_or(0)
}

// Writes the entry of one marked point.
fn write_entry(out: &mut [u8], skip: u16, marks: u16) -> usize
    requires { length (groups skip ++ groups marks) ≤ length out.old }
    ensures count { result ≡ length (groups skip ++ groups marks) }
    ensures room { out.new ≡ at_front (groups skip ++ groups marks) out.old }
{
    let a = put(out, skip);
    let b = put(&mut out[a..], marks);
    a + b
}

// Writes the numbers at the head.
fn write_head(out: &mut [u8], points: u16, set: u16, marked: u16) -> usize
    requires { length (groups points ++ (groups set ++ groups marked)) ≤ length out.old }
    ensures count { result ≡ length (groups points ++ (groups set ++ groups marked)) }
    ensures room { out.new ≡ at_front (groups points ++ (groups set ++ groups marked)) out.old }
{
    let a = put(out, points);
    let b = write_entry(&mut out[a..], set, marked);
    a + b
}

// How many points are marked, and how many bytes their entries take.
#[derive(Clone, Copy)]
struct Extent {
    marked: u16,
    len: usize,
}

fn measure(marks: &[u16]) -> Extent
    requires { length marks.now ≤ most }
    ensures { Measured marks.now result.marked result.len }
{
    let mut skip: u16 = 0;
    let mut marked: u16 = 0;
    let mut len: usize = 0;
    for m in marks {
        if *m == 0 {
            skip += 1;
        } else {
            len = len + size(skip) + size(*m);
            marked += 1;
            skip = 0;
        }
    }
    Extent { marked, len }
}

// Writes the entries of all marked points.
fn write_entries(out: &mut [u8], marks: &[u16]) -> usize
    requires { (length marks.now ≤ most) × (length (entries_of 0 marks.now) ≤ length out.old) }
    ensures count { result ≡ length (entries_of 0 marks.now) }
    ensures room { out.new ≡ at_front (entries_of 0 marks.now) out.old }
{
    let mut skip: u16 = 0;
    let mut at: usize = 0;
    for m in marks {
        if *m == 0 {
            skip += 1;
        } else {
            at += write_entry(&mut out[at..], skip, *m);
            skip = 0;
        }
    }
    at
}

// Writes the sheet of the set and the marks, or nothing where the room is shorter than the sheet.
pub fn write_marks(marks: &[u16], set: u16, out: &mut [u8]) -> Result<usize, Refusal>
    requires { length marks.now ≤ most }
    ensures answer { written result ≡ room_for (sheet_of set marks.now) (length out.old) }
    ensures room { out.new ≡ at_front_if_room (sheet_of set marks.now) out.old }
{
    let points = marks.len() as u16;
    let measured = measure(marks);
    let marked = measured.marked;
    let head = size(points) + size(set) + size(marked);
    if out.len() < head + measured.len {
        return Err(Refusal::TooShort);
    }
    let a = write_head(out, points, set, marked);
    let b = write_entries(&mut out[a..], marks);
    Ok(a + b)
}
