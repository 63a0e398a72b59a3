// Runs `root::root` on stored bit patterns, and counts where its answer differs from the stored
// one. The file holds pairs of u64, low byte first: the bits of a number, and those of its root as
// the processor's own instruction gave it, or every bit set where the root is refused.
#![tactic(auto)]

ghost use Rattle.std.specs.Prelude.{◌≡◌, ◌/◌, ◌%◌, ◌≤◌, ◌<◌, length, MatchOption};
ghost use Rattle.std.specs.Float.{binary64};
ghost use Rattle.std.specs.Float.Ieee.{of_bits};
ghost use Rattle.root.specs.Root.{root_of};
ghost use Rattle.root_run.specs.Pairs.{stored, differing, Fronts};

use root::NoRoot;
use std::process::ExitCode;
use std::{fs, io};

// What the file holds where the root is refused.
const REFUSED: u64 = 0xffff_ffff_ffff_ffff;

// What the file ought to hold for the number whose bits are b.
fn answer(b: u64) -> u64
    ensures { result ≡ stored (root_of (of_bits binary64 b)) }
{
    match root::root(floats::of_bits(b)) {
        Ok(r) => f64::to_bits(r),
        Err(NoRoot) => REFUSED,
    }
}

// How many bytes a pair has.
const PAIR: usize = 16;

// The pair at the front of what is left of the file; none where that is shorter than one.
fn first_pair(rest: &[u8]) -> Option<(u64, u64)>
    ensures { MatchOption result (length rest.now < 16) (λ pair. Fronts rest.now pair) }
{
    let (x, after) = rest.split_first_chunk::<8>()?;
    let root = after.first_chunk::<8>()?;
    Some((u64::from_le_bytes(*x), u64::from_le_bytes(*root)))
}

// How many pairs were compared and how many of them differ, which pair is the first of those, if any,
// counted from 0, and how many bytes of a pair are left over at the end of the file.
#[derive(Clone, Copy)]
struct Tally {
    pairs: u64,
    differ: u64,
    first: Option<u64>,
    cut: u64,
}

// Compares each whole pair of a file with our own answer.
fn compare(file: &[u8]) -> Tally
    ensures within { result.differ ≤ result.pairs }
    ensures pairs { result.pairs ≡ length file.now / 16 }
    ensures differ { result.differ ≡ differing file.now result.pairs }
    ensures cut { result.cut ≡ length file.now % 16 }
{
    // no `chunks_exact(PAIR)`: its chunks are slices, whose two numbers come in an Option again, and here one Option says both
    // whether there is a pair and what it is
    let mut rest = file;
    let mut pairs: u64 = 0;
    let mut differ: u64 = 0;
    let mut first: Option<u64> = None;
    while let Some((x, root)) = first_pair(rest) {
        if answer(x) != root {
            first = first.or(Some(pairs));
            differ += 1;
        }
        pairs += 1;
        rest = &rest[PAIR..];
    }
    Tally {
        pairs,
        differ,
        first,
        cut: rest.len() as u64,
    }
}

// Writes what was counted.
fn tell(rt: &impl Print, t: Tally) -> io::Result<()> {
    println!(rt; "{} roots, {} differ", t.pairs, t.differ)?;
    if let Some(first) = t.first {
        println!(rt; "the first at pair {first}")?;
    }
    if t.cut > 0 {
        println!(rt;
            "the file is cut in pair {}, after {} of its 16 bytes",
            t.pairs, t.cut
        )?;
    }
    Ok(())
}

// Where the file cannot be read, a line on standard error says so, and the status is 1.
fn main(rt: HostRuntime) -> io::Result<ExitCode> {
    let path = "roots";
    match fs::read(&rt, path) {
        Ok(file) => {
            tell(&rt, compare(&file))?;
            Ok(ExitCode::SUCCESS)
        }
        Err(e) => {
            eprintln!(rt; "{path}: {e}")?;
            Ok(ExitCode::FAILURE)
        }
    }
}
