// What is ours, as a list has it: numbers in groups of seven, one after another.
ghost use Rattle.std.specs.Prelude.{◌≡◌, ℕ, ◌≤◌, ◌++◌, List, [], cond, map, take, OnOk, IsOk};
ghost use Rattle.std.specs.Float.{binary64};
ghost use Rattle.std.specs.Float.Ieee.{to_bits};
ghost use Rattle.groups.specs.Groups.{groups};
ghost use Rattle.lists.specs.Ours.{in_groups, all_are};
ghost use Rattle.lists.specs.Outcomes.{OnlyIf};

use crate::outcome::{Difference, Outcome, compare};
use groups::TooShort;
use std::marker::Model;

/// The bits of an f64. A NaN has those of the quiet one with nothing in it: no list has any.
pub fn bits(x: f64) -> u64
    ensures { result ≡ to_bits binary64 x }
{
    // only a NaN differs from itself
    if x != x {
        return 0x7ff8_0000_0000_0000;
    }
    f64::to_bits(x)
}

/// What stands in a list as a number.
pub trait Listed {
    ghost listed: { Self → ℕ };

    /// That number.
    fn listed(&self) -> u64
        ensures { result ≡ listed self.now };
}

/// An f64 stands as its bits.
impl Listed for f64 {
    ghost listed = { to_bits binary64 };

    fn listed(&self) -> u64 {
        bits(*self)
    }
}

/// The marks of a point stand as they are.
impl Listed for u16 {
    ghost listed = { λ marks. marks };

    fn listed(&self) -> u64 {
        u64::from(*self)
    }
}

/// A number stands as it is.
impl Listed for u64 {
    ghost listed = { λ n. n };

    fn listed(&self) -> u64 {
        *self
    }
}

/// Yes stands as 1, and no as 0.
impl Listed for bool {
    ghost listed = { λ yes. cond yes 1 0 };

    fn listed(&self) -> u64 {
        u64::from(*self)
    }
}

/// Numbers that were written one after another, in at most N bytes. No ArrayVec: `groups::write_number` writes into a slice that
/// is lent to it, and an ArrayVec lends none past its length.
#[derive(Debug, Drop)]
pub struct Bytes<const N: usize> {
    room: [u8; N],
    len: usize,
}

// Clauses see the bytes that were written.
impl<const N: usize> Model for Bytes<N> {
    ghost Value = { List ℕ };

    ghost view = { λ b. take b.len b.room };

    ghost invariant = { λ b. b.len ≤ N };
}

impl<const N: usize> Bytes<N> {
    /// None yet.
    pub fn new() -> Self
        ensures { result ≡ [] }
    {
        Bytes {
            room: [0; N],
            len: 0,
        }
    }

    /// Writes a number behind what was written.
    pub fn put(&mut self, x: u64) -> Result<(), TooShort>
        ensures { OnOk result (self.new ≡ self.old ++ groups x) }
    {
        // the whole first: a part of an array whose length is a parameter could not be proved lent
        let room = &mut self.room[..];
        self.len += groups::write_number(&mut room[self.len..], x)?;
        Ok(())
    }

    /// Writes the numbers of a row one after another.
    pub fn put_row<T: Listed>(&mut self, xs: &[T]) -> Result<(), TooShort>
        ensures { OnOk result (self.new ≡ self.old ++ in_groups (map T.listed xs.now)) }
    {
        for x in xs {
            self.put(x.listed())?;
        }
        Ok(())
    }

    /// What was written.
    pub fn as_slice(&self) -> &[u8]
        ensures { result.now ≡ self.now }
    {
        &self.room[..self.len]
    }
}

/// Holds what was written, where all of it was (`put`), to what is stored.
pub fn hold<const N: usize>(ours: &Bytes<N>, put: Result<(), TooShort>, stored: &[u8]) -> Outcome
    ensures whole { OnlyIf (IsOk put) result }
    ensures same { OnlyIf (ours.now ≡ stored.now) result }
{
    match put {
        Ok(()) => compare(ours.as_slice(), stored),
        Err(_) => Err(Difference::Length(N + 1)),
    }
}

/// Whether all entries from a place on are this one, by their numbers.
pub fn all_are<T: Listed>(xs: &[T], from: usize, x: &T) -> bool
    ensures { result ≡ all_are (map T.listed xs.now) from (T.listed x.now) }
{
    let right = x.listed();
    xs.iter().skip(from).all(|y| y.listed() == right)
}
