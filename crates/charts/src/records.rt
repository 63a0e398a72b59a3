// Which sizes a record may have.
ghost use Rattle.std.specs.Prelude.{◌≡◌};
ghost use Rattle.charts.specs.Records.{size_wrong};

use super::INDIVIDUALS;

#[tactic(auto, unfolding(crate::specs::Records::size_wrong, crate::specs::Records::by_kind))]
pub fn size_wrong(kind: u64, size: usize) -> bool
    ensures { result ≡ size_wrong kind size }
{
    if kind == INDIVIDUALS {
        return size != 1;
    }
    (size < 2) | (25 < size)
}
