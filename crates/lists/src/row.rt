// Rows of a list: as many entries of one kind as there is room for, one after another.
ghost use Rattle.std.specs.Prelude.{◌≡◌, ℕ, List, Result, length};
ghost use Rattle.laws.specs.Front.{at_front};
ghost use Rattle.groups.specs.declared.Read.{Read};
ghost use Rattle.lists.specs.declared.Fault.{Fault};
ghost use Rattle.lists.specs.declared.Item.{Item};
ghost use Rattle.lists.specs.Reading.{number_from, float_from, row_from};

use crate::{Fault, Item, Read, read_float, read_number};

/// What may be an entry of a row that is read.
pub trait Entry: Copy {
    ghost found: { List ℕ → Item → ℕ → Result (Read Self) Fault };

    /// Reads the entry at the place `at`.
    fn read(list: &[u8], at: usize, item: Item) -> Result<Read<Self>, Fault>
        ensures { result ≡ found list.now item at };
}

/// Any number.
impl Entry for u64 {
    ghost found = { number_from };

    fn read(list: &[u8], at: usize, item: Item) -> Result<Read<u64>, Fault> {
        read_number(list, at, item)
    }
}

/// Any number, as a position.
impl Entry for usize {
    ghost found = { number_from };

    fn read(list: &[u8], at: usize, item: Item) -> Result<Read<usize>, Fault> {
        let number = read_number(list, at, item)?;
        Ok(Read {
            value: number.value as usize,
            next: number.next,
        })
    }
}

/// A finite f64.
impl Entry for f64 {
    ghost found = { float_from };

    fn read(list: &[u8], at: usize, item: Item) -> Result<Read<f64>, Fault> {
        read_float(list, at, item)
    }
}

/// Reads as many entries as `out` has room for, and gives the place just past them. Those before a fault stand at its front.
pub fn read_row<T: Entry>(list: &[u8], at: usize, item: Item, out: &mut [T]) -> Result<usize, Fault>
    ensures result_value { result ≡ (row_from (T.found list.now item) (length out.old) at).1 }
    ensures values { out.new ≡ at_front (row_from (T.found list.now item) (length out.old) at).0 out.old }
{
    let mut next = at;
    for entry in out.iter_mut() {
        let read = T::read(list, next, item)?;
        *entry = read.value;
        next = read.next;
    }
    Ok(next)
}
