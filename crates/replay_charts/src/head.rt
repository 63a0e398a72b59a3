// What stands before the samples of a chart case, from its kind on.
ghost use Rattle.std.specs.Prelude.{◌≡◌, ◌≤◌, IfOk};
ghost use Rattle.replay_charts.specs.Head.{size_from, head_from};

use charts::{INDIVIDUALS, X_BAR_S};
use lists::{Fault, Item, Read};

/// The most samples that a case has, and the most values of one of them.
pub const MOST_SAMPLES: usize = 4096;

pub const MOST_VALUES: usize = 25;

/// What chart it is, and the number of its samples. The kind is a number, as a record has it.
#[derive(Clone, Copy)]
pub struct Head {
    pub kind: u16,
    pub size: u16,
    pub set: u16,
    pub count: u16,
}

// Reads the size, which the kind bounds.
fn read_size(list: &[u8], at: usize, kind: u16) -> Result<Read<u16>, Fault>
    ensures result_value { result ≡ size_from list.now kind at }
    ensures most { IfOk result (λ size. size.value ≤ 25) }
{
    if u64::from(kind) == INDIVIDUALS {
        return lists::read_small(list, at, Item::Size, 1, 1);
    }
    lists::read_small(list, at, Item::Size, 2, MOST_VALUES as u16)
}

/// Reads the head that begins at the place `at`.
#[tactic(auto, unfolding(crate::specs::Head::head_from))]
pub fn read_head(list: &[u8], at: usize) -> Result<Read<Head>, Fault>
    ensures result_value { result ≡ head_from list.now at }
    ensures within { IfOk result (λ head. (head.value.size ≤ 25) × (head.value.count ≤ 4096)) }
{
    let kind = lists::read_small(list, at, Item::Kind, INDIVIDUALS as u16, X_BAR_S as u16)?;
    let size = read_size(list, kind.next, kind.value)?;
    let set = lists::read_small(list, size.next, Item::Set, 0, lists::ALL_TESTS)?;
    let count = lists::read_small(list, set.next, Item::Samples, 0, MOST_SAMPLES as u16)?;
    let value = Head {
        kind: kind.value,
        size: size.value,
        set: set.value,
        count: count.value,
    };
    Ok(Read {
        value,
        next: count.next,
    })
}
