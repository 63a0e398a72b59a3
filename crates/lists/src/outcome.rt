// What a case comes to: holding what is ours to what is right, and telling where they part.
ghost use Rattle.std.specs.Prelude.{◌≡◌, IfOk};
ghost use Rattle.lists.specs.Outcomes.{Compared, OnlyIf, stretch, differs};

use std::{fmt, io};

/// A place where two rows of bytes part, with what stands there.
#[derive(Clone, Copy, Debug, PartialEq, Eq)]
pub struct Parting {
    pub at: usize,
    pub ours: u8,
    pub right: u8,
}

/// How a case differs from what it ought to come to.
#[derive(Clone, Copy, Debug, PartialEq, Eq)]
pub enum Difference {
    /// The first byte of the answer that is not as stored.
    Byte(Parting),
    /// The length of our answer, where it is not that of the stored one though each byte of the shorter is.
    Length(usize),
    /// A call that ought to answer is refused, by 01's number: of whichever crate the call is.
    Refused(u8),
    /// What ought to be refused is not, or by another number.
    Taken,
    /// An entry that is no part of the answer is not as it ought to be.
    Overrun,
}

/// What a case comes to: all is as it ought to be, or how it differs.
pub type Outcome = Result<(), Difference>;

impl fmt::Display for Difference {
    fn fmt<W: fmt::Write>(&self, f: &mut fmt::Formatter<W>) -> fmt::Result {
        match self {
            Difference::Byte(Parting { at, ours, right }) => {
                write!(f, "byte {at} of the answer: stored {right}, ours {ours}")
            }
            Difference::Length(n) => write!(f, "the answer's length, ours {n}"),
            Difference::Refused(number) => write!(f, "refused by {number}"),
            Difference::Taken => write!(f, "not refused as it ought to be"),
            Difference::Overrun => write!(f, "an entry past the answer is not as it ought to be"),
        }
    }
}

/// Holds our bytes to the right ones.
pub fn compare(ours: &[u8], right: &[u8]) -> Outcome
    ensures parts { Compared ours.now right.now result }
    ensures same { OnlyIf (ours.now ≡ right.now) result }
{
    if let Some(at) = ours.iter().zip(right).position(|(is, ought)| is != ought) {
        return Err(Difference::Byte(Parting {
            at,
            ours: ours[at],
            right: right[at],
        }));
    }
    if ours.len() != right.len() {
        return Err(Difference::Length(ours.len()));
    }
    Ok(())
}

/// What stands in a list from one place to another, as far as the list goes.
pub fn stored(list: &[u8], from: usize, to: usize) -> &[u8]
    ensures { result.now ≡ stretch from to list.now }
{
    let end = to.min(list.len());
    &list[from.min(end)..end]
}

/// Whether a case does not come to what it ought to; writes its line where that is so. Fails only where that cannot be written.
pub fn tell<P: Print>(rt: &P, k: u64, outcome: Outcome) -> io::Result<bool>
    ensures { IfOk result (λ told. told ≡ differs outcome) }
{
    if let Err(difference) = outcome {
        println!(rt; "case {k}: {difference}")?;
    }
    Ok(outcome.is_err())
}
