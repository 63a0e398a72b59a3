// Runs the sheet's writer and checker: 01's rows 10 and 11; a hundred sheets, about half of them in width mode 1, each
// accepted, and refused with any one byte changed, cut at any place, or with any byte more; and the longest sheet. Writes how
// often the checker gave each number, and one number that all answers come to, with their places and marks: `oracle/runs`
// works it out from 01 and 02 by itself.
#![tactic(auto)]

ghost use Rattle.std.specs.Prelude.{◌<◌, ◌≤◌, ◌≡◌, length, IfSome};

use numbers::Numbered;
use rules::{Limits, MOST, OWN_WIDTHS, Refusal, SAME_WIDTHS, Terms};
use sets::RuleSet;
use sheets::{Fault, LONGEST};
use std::io;

// Takes a number into another, so that every number taken in tells.
fn fold(all: u64, x: u64) -> u64 {
    (all % 4_294_967_291 * 31 + x % 4_294_967_291) % 4_294_967_291
}

// What the checker answered: how often it gave each number, and what all its answers come to.
#[derive(Default, Drop)]
struct Tally {
    numbers: [u64; 12],
    all: u64,
}

impl Tally {
    fn fold(&mut self, x: u64) {
        self.all = fold(self.all, x);
    }

    // Counts an answer by its number, and takes it in: the number, the place or position, the right marks, the stated marks.
    fn count(&mut self, answer: Result<(), Fault>) {
        let number = answer.number();
        if let Some(n) = self.numbers.get_mut(usize::from(number)) {
            *n = n.wrapping_add(1);
        }
        let (at, right, stated) = match answer {
            Err(Fault::Form { at }) => (at, 0, 0),
            Err(Fault::Wrong { at, right, stated }) => (at, right, stated),
            _ => (0, 0, 0),
        };
        self.fold(u64::from(number));
        self.fold(at as u64);
        self.fold(u64::from(right));
        self.fold(u64::from(stated));
    }
}

// A series with no stops and its set. A set with eight on one side, which no set of 01's rows has, is tried in width mode 1, under
// a lower limit that is nearer than the upper one.
#[derive(Clone, Copy)]
struct Case<'a> {
    values: &'a [f64],
    set: RuleSet,
}

impl<'a> Case<'a> {
    fn terms(self) -> Terms<'static> {
        let (width, lcl) = if 255 < self.set.mask {
            (OWN_WIDTHS, 23.5)
        } else {
            (SAME_WIDTHS, 22.0)
        };
        let limits = Limits {
            ucl: 28.0,
            cl: 25.0,
            lcl,
        };
        Terms::alone(limits, width)
    }

    fn check(self, sheet: &[u8]) -> Result<(), Fault> {
        sheets::check(self.values, self.terms(), self.set, sheet)
    }

    fn write(self, room: &mut [u8]) -> Result<usize, Refusal> {
        sheets::write(self.values, self.terms(), self.set, room)
    }

    // Writes a sheet into the room, and gives its length, unless it is refused.
    fn sheet(self, room: &mut [u8]) -> Option<usize>
        ensures { IfSome result (λ n. n ≤ length room.new) }
    {
        let n = self.write(room).ok()?;
        Some(n.min(room.len()))
    }

    // Checks the sheet cut at each place.
    fn cut(self, sheet: &[u8], tally: &mut Tally) {
        for n in 0..sheet.len() {
            tally.count(self.check(&sheet[..n]));
        }
    }

    // Checks the sheet with its byte at a place changed in each way.
    fn change_at(self, sheet: &mut [u8], at: usize, tally: &mut Tally)
        requires { at < length sheet.old }
        ensures { length sheet.new ≡ length sheet.old }
    {
        let was = sheet[at];
        for by in (1..=255).rev() {
            sheet[at] = was ^ by;
            tally.count(self.check(sheet));
        }
        sheet[at] = was;
    }

    // Checks the sheet with each of its bytes changed in each way.
    fn change(self, sheet: &mut [u8], tally: &mut Tally) {
        for at in 0..sheet.len() {
            self.change_at(sheet, at, tally);
        }
    }

    // Checks the sheet, which ends one byte before the end of the room, with each byte more.
    fn extend(self, room: &mut [u8], tally: &mut Tally)
        requires { 0 < length room.old }
    {
        let last = room.len() - 1;
        for more in (0..=255).rev() {
            room[last] = more;
            tally.count(self.check(room));
        }
    }

    // Writes a sheet into the room, and checks it as it is, changed, cut and extended. Gives its length,
    // unless it is refused.
    fn trial(self, room: &mut [u8], tally: &mut Tally) -> Option<usize> {
        let n = self.sheet(room)?;
        tally.count(self.check(&room[..n]));
        self.cut(&room[..n], tally);
        self.change(&mut room[..n], tally);
        if n < room.len() {
            self.extend(&mut room[..n + 1], tally);
        }
        Some(n)
    }

    // Whether a room one byte shorter than the sheet is refused.
    fn short_refused(self, room: &mut [u8]) -> bool {
        match self.sheet(room) {
            Some(n) if 0 < n => self.write(&mut room[..n - 1]) == Err(Refusal::TooShort),
            _ => false,
        }
    }

    // Whether the sheet is these bytes.
    fn written(self, bytes: &[u8]) -> bool {
        let mut room = [0u8; 64];
        match self.sheet(&mut room) {
            Some(n) => &room[..n] == bytes,
            None => false,
        }
    }
}

// The next of a run of numbers below 2 ^ 32 that are hard to foresee; `histories_run` says why both have it.
fn next(x: u64) -> u64 {
    (x % 0x1_0000_0000 * 1_664_525 + 1_013_904_223) % 0x1_0000_0000
}

// A value from 21 to 29, by halves.
fn value(x: u64) -> f64 {
    let half = (x % 0x1_0000_0000 / 0x10_0000 % 17) as u32;
    21.0 + f64::from(half) / 2.0
}

// Fills a series with values that follow from a number.
fn fill(values: &mut [f64], seed: u64) {
    let mut x = next(seed);
    for v in values.iter_mut() {
        x = next(x);
        *v = value(x);
    }
}

// 01's rows 10 and 11.
fn rows() -> bool {
    let ten = Case {
        values: &[26.5; 10],
        set: RuleSet::nelson(),
    };
    let none = Case {
        values: &[],
        set: RuleSet::shewhart(),
    };
    ten.written(b"\x0a\xff\x01\x06\x04\x20\x00\x20\x00\x20\x00\xa0\x01\x00\xa2\x01\x00\xa2\x01")
        && none.written(b"\x00\x01\x00")
}

// A hundred series, of 0 to 16 values, each with a set. Gives the number of bytes of their sheets.
fn hundred(tally: &mut Tally) -> u64 {
    let mut values = [0.0f64; 16];
    let mut room = [0u8; 128];
    let mut bytes: u64 = 0;
    for k in 0..100u64 {
        fill(&mut values, k);
        let case = Case {
            values: &values[..(k % 17) as usize],
            set: RuleSet {
                mask: (next(k) / 128 % 512) as u16,
            },
        };
        if let Some(n) = case.trial(&mut room, tally) {
            bytes = bytes.wrapping_add(n as u64);
        }
    }
    bytes
}

// The longest sheet: 4,096 points, all marked. Gives its length where it is accepted.
fn longest() -> Option<usize> {
    let case = Case {
        values: &[100.0; MOST],
        set: RuleSet { mask: RuleSet::ALL },
    };
    let mut room = [0u8; LONGEST];
    if !case.short_refused(&mut room) {
        return None;
    }
    let n = case.sheet(&mut room)?;
    case.check(&room[..n]).ok()?;
    Some(n)
}

fn main(rt: HostRuntime) -> io::Result<()> {
    if !rows() {
        println!(rt; "row 10 or row 11 is wrong")?;
    }
    let mut tally = Tally::default();
    let bytes = hundred(&mut tally);
    let by = tally.numbers;
    print!(rt;
        "{} sheets accepted, {bytes} bytes; refused {} by form, ",
        by[0], by[9]
    )?;
    print!(rt; "{} by count or set, {} by marks; ", by[10], by[11])?;
    print!(rt; "all answers come to {}; ", tally.all)?;
    println!(rt; "the longest has {} bytes", longest().unwrap_or(0))
}
