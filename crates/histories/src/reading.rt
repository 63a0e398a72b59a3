// Reading the tests off the histories of a lane, by masks and counts of ones.
ghost use Rattle.std.specs.Prelude.{◌≡◌, [], ◌∷◌, ◌-◌, ◌^◌, ◌≤◌};
ghost use Rattle.laws.specs.Bits.{from_bits};
ghost use Rattle.sets.specs.Sets.{set_of};
ghost use Rattle.rules.specs.Columns.{judge};
ghost use Rattle.rules.specs.Columns.Rule.{AllOf, SomeOf, InTurns};
ghost use Rattle.histories.specs.Lanes.{column};
ghost use Rattle.histories.specs.Taking.{read, marks_at};

use super::Lane;

// The tests whose window is within so many values, a bit for each. By the values seen, from none on: marking's own table is by positions.
const FITTING: [u16; 16] = [
    0b0_0000_0000,
    0b0_0000_0001,
    0b0_0000_0001,
    0b0_0001_0001,
    0b0_0001_0001,
    0b0_0011_0001,
    0b0_0011_0101,
    0b0_0011_0101,
    0b1_1011_0101,
    0b1_1011_0111,
    0b1_1011_0111,
    0b1_1011_0111,
    0b1_1011_0111,
    0b1_1011_0111,
    0b1_1011_1111,
    0b1_1111_1111,
];

// The mask of the newest n bits.
fn newest(n: u16) -> u16
    requires { n ≤ 15 }
    ensures { result ≡ 2 ^ n - 1 }
{
    (1 << n) - 1
}

// Whether all of the newest n bits of one history are set, or of the other.
fn all(up: u16, down: u16, n: u16) -> bool
    requires { n ≤ 15 }
    ensures { result ≡ judge (AllOf n) (column up) (column down) }
{
    let mask = newest(n);
    (up & mask == mask) | (down & mask == mask)
}

// Whether at least k of the newest n bits of one history are set, or of the other.
fn some(up: u16, down: u16, k: u32, n: u16) -> bool
    requires { n ≤ 15 }
    ensures { result ≡ judge (SomeOf k n) (column up) (column down) }
{
    let mask = newest(n);
    (k <= (up & mask).count_ones()) | (k <= (down & mask).count_ones())
}

// Whether the newest thirteen bits are set by turns, the newest of one history, the one before it of the other, and so on.
fn by_turns(up: u16, down: u16) -> bool
    ensures { result ≡ judge (InTurns 13) (column up) (column down) }
{
    ((up & 0x1555) | (down & 0x0aaa) == 0x1fff) | ((down & 0x1555) | (up & 0x0aaa) == 0x1fff)
}

// The number of the tests that stand, from what is said of each. By casts: the laws of bits (`from_bits`) speak of them, and by
// `u16::from` it is no plainer.
fn pack(
    beyond: bool,
    nine: bool,
    trend: bool,
    turns: bool,
    two: bool,
    four: bool,
    fifteen: bool,
    outside: bool,
    eight: bool,
) -> u16
    ensures { result ≡ from_bits (beyond ∷ nine ∷ trend ∷ turns ∷ two ∷ four ∷ fifteen ∷ outside ∷ eight ∷ []) }
{
    (beyond as u16)
        | ((nine as u16) << 1)
        | ((trend as u16) << 2)
        | ((turns as u16) << 3)
        | ((two as u16) << 4)
        | ((four as u16) << 5)
        | ((fifteen as u16) << 6)
        | ((outside as u16) << 7)
        | ((eight as u16) << 8)
}

// The tests whose patterns the histories show, whether or not their windows fit.
fn standing(h: Lane) -> u16
    ensures { result ≡ set_of (read h) }
{
    pack(
        all(h.beyond, h.beyond, 1),
        all(h.above, h.below, 9),
        all(h.rising, h.falling, 5),
        by_turns(h.rising, h.falling),
        some(h.above2, h.below2, 2, 3),
        some(h.above1, h.below1, 4, 5),
        all(h.within1, h.within1, 15),
        all(h.beyond1, h.beyond1, 8),
        all(h.above, h.below, 8),
    )
}

/// The marks of a set that a lane shows.
pub fn marks(lane: Lane, set: u16) -> u16
    requires { lane.seen ≤ 15 }
    ensures { result ≡ marks_at set lane }
{
    set & (FITTING[usize::from(lane.seen)] & standing(lane))
}
