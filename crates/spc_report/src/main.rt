// The report program: reads a flow file from standard input and writes its report to standard output. Where either
// cannot be done it says so in a line on standard error, and ends with status 1.
#![tactic(auto)]

ghost use Rattle.std.specs.Prelude.{◌≤◌, ◌≡◌, length, IfOk};
ghost use Rattle.laws.specs.Front.{at_front};
ghost use Rattle.reports.specs.Report.{text_of};

use reports::LONGEST;
use std::io::Read;
use std::process::ExitCode;
use std::{fmt, io};

// What could not be done.
#[derive(Clone, Copy)]
enum Failure {
    Read,
    Written,
}

impl fmt::Display for Failure {
    fn fmt<W: fmt::Write>(&self, f: &mut fmt::Formatter<W>) -> fmt::Result {
        match self {
            Failure::Read => write!(f, "the input could not be read"),
            Failure::Written => write!(f, "the report could not be written whole"),
        }
    }
}

// Reads to the end of the input, or until the room is full, and gives how many bytes came. Fails only where a read fails: what came
// before it is not the whole input, however much it was.
fn read_input(input: &mut impl Read, room: &mut [u8]) -> io::Result<usize>
    ensures { IfOk result (λ n. n ≤ length room.new) }
{
    // A loop over `read`: `read_to_end` reads into a Vec, and this program, as the library that it runs, uses no heap. That of
    // `lists::read_input` is the same; but `lists` serves the tests alone, and this program stands on no test's crate.
    let mut done = 0;
    while done < room.len() {
        let n = input.read(&mut room[done..])?;
        if n == 0 {
            break;
        }
        done += n;
    }
    Ok(done)
}

// The report of the input, whatever it is, at the front of a room that holds any; gives its length.
fn report(input: &[u8], out: &mut [u8]) -> usize
    requires { 405704 ≤ length out.old }
    ensures length { result ≡ length (text_of input.now) }
    ensures text { out.new ≡ at_front (text_of input.now) out.old }
    ensures within { result ≤ length out.new }
{
    // no report is longer than the room (`text-short` of reports/proofs/Longest.antt)
    reports::report(input, out).unwrap()
}

// Writes the report of the input.
fn run(rt: &HostRuntime) -> Result<(), Failure> {
    // one byte more than a flow file may have, so that a longer one is seen
    let mut input = [0u8; 24_577];
    let n = read_input(&mut rt.stdin(), &mut input).map_err(|_| Failure::Read)?;
    let mut out = [0u8; LONGEST];
    let len = report(&input[..n], &mut out);
    rt.write_all(&out[..len]).map_err(|_| Failure::Written)
}

fn main(rt: HostRuntime) -> ExitCode {
    match run(&rt) {
        Ok(()) => ExitCode::SUCCESS,
        Err(what) => {
            // as far as that can be written
            let _ = rt.eprintln(format_args!("spc_report: {what}"));
            ExitCode::FAILURE
        }
    }
}
