// Runs the engine that keeps histories in bits over a hundred thousand values, with calls between them that have to be
// refused. Both width modes come in turn: the limits are symmetric to the bit, so the marks are those of mode 0. Writes how
// many were taken and refused, how often each test was marked, and one number that all marks come to: `oracle/runs` has the
// published Rust work them out.
#![tactic(auto)]

use histories::Lane;
use rules::{Limits, Refusal};
use sets::RuleSet;
use std::io;

const VALUES: u64 = 100_000;

// How many values of one kind follow each other.
const STRETCH: u64 = 40;

// After so many values come five calls that have to be refused.
const BETWEEN: u64 = 1000;

const ALL: RuleSet = RuleSet { mask: RuleSet::ALL };

fn limits(ucl: f64) -> Limits {
    Limits {
        ucl,
        cl: 25.0,
        lcl: 22.0,
    }
}

// The next of a run of numbers below 2 ^ 32 that are hard to foresee, and what is taken of one. `sheets_run` has it as well: no
// crate beneath both is about such numbers, and one for a line is no plainer.
fn next(x: u64) -> u64 {
    (x % 0x1_0000_0000 * 1_664_525 + 1_013_904_223) % 0x1_0000_0000
}

fn drawn(x: u64) -> u64 {
    x % 0x1_0000_0000 / 0x10_0000
}

// How the values of a stretch lie.
#[derive(Clone, Copy)]
enum Kind {
    Anywhere,
    WithinOneSigma,
    ByTurns,
    Rising,
    AboveOneSigma,
}

impl Kind {
    fn drawn(r: u64) -> Kind {
        match r % 5 {
            0 => Kind::Anywhere,
            1 => Kind::WithinOneSigma,
            2 => Kind::ByTurns,
            3 => Kind::Rising,
            _ => Kind::AboveOneSigma,
        }
    }

    // How many halves above 21 the value at i lies.
    fn halves(self, i: u64, r: u64) -> u32 {
        let halves = match self {
            Kind::Anywhere => r % 17,
            Kind::WithinOneSigma => 6 + r % 5,
            Kind::ByTurns => i % 2 * 9 + r % 8,
            Kind::Rising => i % 17,
            Kind::AboveOneSigma => 11 + r % 6,
        };
        halves as u32
    }

    fn value(self, i: u64, r: u64) -> f64 {
        21.0 + f64::from(self.halves(i, r)) / 2.0
    }
}

// What is counted: the marks of each test, the values taken and refused, and all marks in one number.
#[derive(Default, Drop)]
struct Tally {
    marked: [u64; 9],
    taken: u64,
    refused: u64,
    all: u64,
}

impl Tally {
    // Counts the marks at a value by their tests, and takes them in, so that every number taken in tells.
    fn count_marks(&mut self, marks: u16) {
        for (bit, n) in self.marked.iter_mut().enumerate() {
            if marks >> bit & 1 == 1 {
                *n = n.wrapping_add(1);
            }
        }
        self.all = (self.all % 4_294_967_291 * 31 + u64::from(marks)) % 4_294_967_291;
    }

    // Counts what is answered.
    fn count(&mut self, answer: Result<u16, Refusal>) {
        match answer {
            Ok(marks) => {
                self.taken = self.taken.wrapping_add(1);
                self.count_marks(marks);
            }
            Err(_) => self.refused = self.refused.wrapping_add(1),
        }
    }
}

// Calls that have to be refused, and leave the lane as it is: a value that is not finite, either way, a set that is none, a
// width mode that is none, and a limit that is not finite.
fn refused(lane: &mut Lane, tally: &mut Tally) {
    let none = RuleSet { mask: 512 };
    tally.count(lane.take(f64::NAN, limits(28.0), 0, ALL));
    tally.count(lane.take(f64::INFINITY, limits(28.0), 0, ALL));
    tally.count(lane.take(29.0, limits(28.0), 0, none));
    tally.count(lane.take(29.0, limits(28.0), 2, ALL));
    tally.count(lane.take(29.0, limits(f64::INFINITY), 0, ALL));
}

// Runs all values through a lane.
fn run(tally: &mut Tally) {
    let mut lane = Lane::start();
    let mut x: u64 = 1;
    let mut kind = Kind::Anywhere;
    for i in 0..VALUES {
        x = next(x);
        if i % STRETCH == 0 {
            kind = Kind::drawn(drawn(x));
            x = next(x);
        }
        tally.count(lane.take(kind.value(i, drawn(x)), limits(28.0), i % 2, ALL));
        if (i + 1) % BETWEEN == 0 {
            refused(&mut lane, tally);
        }
    }
}

fn main(rt: HostRuntime) -> io::Result<()> {
    let mut tally = Tally::default();
    run(&mut tally);
    print!(rt;
        "{} values taken, {} refused; marked by each test",
        tally.taken, tally.refused
    )?;
    for marked in &tally.marked {
        print!(rt; " {marked}")?;
    }
    println!(rt; "; all marks come to {}", tally.all)
}
