// The answer of an attribute case (oracle/FORMAT.md): ours in the bytes in which a list has it, held to a stored one.
ghost use Rattle.std.specs.Prelude.{◌≡◌, IfOk};
ghost use Rattle.lists.specs.Outcomes.{OnlyIf, stretch};

use groups::TooShort;
use lists::{Bytes, Case, Fault, Item};

/// What a case comes to whose answer of so many numbers is stored from `at` on. Ours was written, or is longer than N bytes.
pub fn settle<const N: usize>(
    list: &[u8],
    at: usize,
    numbers: usize,
    ours: &Bytes<N>,
    put: Result<(), TooShort>,
) -> Result<Case, Fault>
    ensures { IfOk result (λ case. OnlyIf (ours.now ≡ stretch at case.next list.now) case.outcome) }
{
    let next = lists::pass_numbers(list, at, Item::Answer, numbers)?;
    let outcome = lists::hold(ours, put, lists::stored(list, at, next));
    Ok(Case { outcome, next })
}
