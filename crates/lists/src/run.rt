// How a program goes through a list case by case, and what it says of the whole.
ghost use Rattle.std.specs.Prelude.{◌≡◌, ◌+◌, ◌<◌, ◌^◌};
ghost use Rattle.lists.specs.Runs.{Past};
ghost use Rattle.lists.specs.declared.run.Ended.TheVariants.{NoList, Unwritten};

use crate::outcome::{Outcome, tell};
use crate::{Fault, closing, opening};
use std::io;

/// What a case comes to, and the place just past it. It is no `Read`: the outcome is worked out, and stands nowhere in the list.
#[derive(Clone, Copy, Debug, PartialEq, Eq)]
pub struct Case {
    pub outcome: Outcome,
    pub next: usize,
}

// How far the replay of a list has come: the place where the next case begins, and how many of those before it differ.
#[derive(Clone, Copy)]
struct Run {
    at: usize,
    differ: u64,
}

// Why a replay ends before the list does.
#[derive(Debug, Drop)]
enum Ended {
    // The bytes are no list.
    NoList(Fault),
    // A line could not be written.
    Unwritten(io::Error),
}

impl From<Fault> for Ended {
    ghost from_gives = { λ fault ended. ended ≡ NoList fault };

    fn from(fault: Fault) -> Ended {
        Ended::NoList(fault)
    }
}

impl From<io::Error> for Ended {
    ghost from_gives = { λ error ended. ended ≡ Unwritten error };

    fn from(error: io::Error) -> Ended {
        Ended::Unwritten(error)
    }
}

// The run past case k, which is told where it differs, or its end at a fault. Fails besides only where a case cannot be told.
fn past<P: Print>(rt: &P, k: u64, run: Run, replayed: Result<Case, Fault>) -> Result<Run, Ended>
    requires { run.differ + 1 < 2 ^ 64 }
    ensures { Past run replayed result }
{
    let case = replayed?;
    let differs = tell(rt, k, case.outcome)?;
    Ok(Run {
        at: case.next,
        differ: run.differ + u64::from(differs),
    })
}

// Goes through all cases, and says how many there were and how many of them differ.
fn go<P: Print, F: FnMut(usize) -> Result<Case, Fault>>(
    rt: &P,
    list: &[u8],
    mut replay_case: F,
) -> Result<(), Ended>
    requires { F.IsAlwaysCallable replay_case }
{
    let cases = opening(list)?;
    let mut run = Run {
        at: cases.next,
        differ: 0,
    };
    for k in 0..cases.value {
        run = past(rt, k, run, replay_case(run.at))?;
    }
    closing(list, run.at)?;
    println!(rt; "{} cases, {} differ", cases.value, run.differ)?;
    Ok(())
}

/// Replays every case of a list, where `replay_case` replays the one that begins at a place: writes a line for each that differs,
/// and last how many there are and how many of them differ, or why the bytes are no list. Fails only where that cannot be written.
///
/// The room for the list and the reading of it stay with each program: what replays a report case requires that the list fits in
/// the room, and a closure that is handed a list here may require nothing of it.
pub fn replay<P: Print, F: FnMut(usize) -> Result<Case, Fault>>(
    rt: &P,
    list: &[u8],
    replay_case: F,
) -> io::Result<()>
    requires { F.IsAlwaysCallable replay_case }
{
    match go(rt, list, replay_case) {
        Ok(()) => Ok(()),
        Err(Ended::NoList(fault)) => println!(rt; "{fault}"),
        Err(Ended::Unwritten(error)) => Err(error),
    }
}
