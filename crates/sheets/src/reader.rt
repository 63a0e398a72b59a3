// Reading a sheet from bytes of any origin: the numbers at its head, and its entries into the marks of every point.
ghost use Rattle.std.specs.Prelude.{◌≡◌, ◌+◌, ◌-◌, ◌*◌, ◌%◌, ◌<◌, length, replicate};
ghost use Rattle.groups.specs.Groups.{number_at};
ghost use Rattle.sets.specs.Sets.{largest};
ghost use Rattle.rules.specs.Marking.{most};
ghost use Rattle.sheets.specs.Said.{said_from, entries};
ghost use Rattle.sheets.specs.Steps.{at_most, after_head, Few, FirstEntry, Blank, Onward, tells};

use groups::{Fault, Read};
use rules::MOST;
use sets::RuleSet;

// The three numbers at the head of a sheet, and the place past them.
#[derive(Clone, Copy)]
pub struct Head {
    pub points: usize,
    pub set: u16,
    pub marked: usize,
    pub next: usize,
}

// One marked point: how many unmarked ones are skipped before it, its marks, and the place past it.
#[derive(Clone, Copy)]
struct Entry {
    skip: usize,
    marks: u16,
    next: usize,
}

// How far reading has come: the first point that is not passed, the place in the bytes, and how many entries are left.
#[derive(Clone, Copy)]
struct Reach {
    point: usize,
    at: usize,
    left: usize,
}

// The number at a place, where it is at most so much.
fn read_at_most(s: &[u8], at: usize, most: u64) -> Result<Read<u64>, Fault>
    ensures { result ≡ at_most most at (number_at s.now at) }
{
    let number = groups::read_number(s, at)?;
    if most < number.value {
        return Err(Fault { at });
    }
    Ok(number)
}

// The head of a sheet.
pub fn read_head(s: &[u8]) -> Result<Head, Fault>
    ensures said { said_from most largest s.now 0 ≡ after_head s.now result }
    ensures few { Few result }
{
    let points = read_at_most(s, 0, MOST as u64)?;
    let set = read_at_most(s, points.next, u64::from(RuleSet::ALL))?;
    let marked = read_at_most(s, set.next, points.value)?;
    Ok(Head {
        points: points.value as usize,
        set: set.value as u16,
        marked: marked.value as usize,
        next: marked.next,
    })
}

// The entry at a place, among the points that are left.
fn read_entry(s: &[u8], at: usize, left: usize, set: u16) -> Result<Entry, Fault>
    ensures { FirstEntry s.now set left at result }
{
    let skip = groups::read_number(s, at)?;
    if skip.value >= left as u64 {
        return Err(Fault { at });
    }
    let marks = groups::read_number(s, skip.next)?;
    if marks.value == 0 {
        return Err(Fault { at: skip.next });
    }
    if marks.value & u64::from(set) != marks.value {
        return Err(Fault { at: skip.next });
    }
    Ok(Entry {
        skip: skip.value as usize,
        marks: marks.value as u16,
        next: marks.next,
    })
}

// The number of two groups.
fn joined(low: u16, high: u16) -> u16
    requires { high < 256 }
    ensures { result ≡ low % 128 + high * 128 }
{
    (low & 127) | (high << 7)
}

// Goes on over entries of two bytes each. Two in a turn take fewer tests than one after the other.
fn read_pairs(s: &[u8], set: u16, stated: &mut [u16], from: Reach) -> Reach
    requires { Blank stated.old from }
    ensures { Onward s.now set stated.old from stated.new result }
{
    let near_end = s.len().saturating_sub(3);
    let mut r = from;
    // By hand: the place moves by four bytes in a turn, and how far it came is given back.
    while 1 < r.left && r.at < near_end {
        // skip, marks, skip, marks
        let a = u16::from(s[r.at]);
        let b = u16::from(s[r.at + 1]);
        let c = u16::from(s[r.at + 2]);
        let d = u16::from(s[r.at + 3]);
        let first = r.point + usize::from(a);
        let second = first + 1 + usize::from(c);
        if (stated.len() <= second) | (b == 0) | (d == 0) {
            break;
        }
        if (b & set != b) | (d & set != d) | ((a | b | c | d) >= 128) {
            break;
        }
        stated[first] = b;
        stated[second] = d;
        r = Reach {
            point: second + 1,
            at: r.at + 4,
            left: r.left - 2,
        };
    }
    r
}

// Goes on over entries of three bytes, whose marks are two groups.
fn read_long(s: &[u8], set: u16, stated: &mut [u16], from: Reach) -> Reach
    requires { Blank stated.old from }
    ensures { Onward s.now set stated.old from stated.new result }
{
    let near_end = s.len().saturating_sub(3);
    let mut r = from;
    // By hand: the place moves by three bytes in a turn, and how far it came is given back.
    while 0 < r.left && r.at < near_end {
        let skip = u16::from(s[r.at]);
        let low = u16::from(s[r.at + 1]);
        let high = u16::from(s[r.at + 2]);
        let first = r.point + usize::from(skip);
        let marks = joined(low, high);
        if (stated.len() <= first) | (low < 128) | (high == 0) {
            break;
        }
        if (marks & set != marks) | ((skip | high) >= 128) {
            break;
        }
        stated[first] = marks;
        r = Reach {
            point: first + 1,
            at: r.at + 3,
            left: r.left - 1,
        };
    }
    r
}

// The entries behind a head, to the end of the bytes: `stated`, which is all zero, gets the marks of every point.
pub fn read_entries(s: &[u8], head: Head, stated: &mut [u16]) -> Result<(), Fault>
    requires { stated.old ≡ replicate (length stated.old) 0 }
    ensures { tells head.set result stated.new ≡ entries s.now head.set head.marked (length stated.old) head.next }
{
    let set = head.set;
    let mut r = Reach {
        point: 0,
        at: head.next,
        left: head.marked,
    };
    // By hand: entries are of any length, and how far reading has come is in `r`.
    while 0 < r.left {
        // Most entries are short: they are read without a call for each number.
        r = read_pairs(s, set, stated, r);
        r = read_long(s, set, stated, r);
        if 0 < r.left {
            let entry = read_entry(s, r.at, stated.len() - r.point, set)?;
            let last = r.point + entry.skip;
            stated[last] = entry.marks;
            r = Reach {
                point: last + 1,
                at: entry.next,
                left: r.left - 1,
            };
        }
    }
    if r.at < s.len() {
        return Err(Fault { at: r.at });
    }
    Ok(())
}
