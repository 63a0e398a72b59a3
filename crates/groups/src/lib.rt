// Numbers in groups of seven bits: low group first, top bit set on all but the last group, shortest form.
#![tactic(auto)]

ghost use Rattle.std.specs.Prelude.{◌≡◌, ◌≤◌, length, Err};
ghost use Rattle.laws.specs.Front.{at_front_if_room, room_for};
ghost use Rattle.groups.specs.Groups.{groups, number_at, found, written};

use numbers::Numbered;

/// What was read, and the place just past it.
#[derive(Clone, Copy, Debug, PartialEq, Eq)]
pub struct Read<T> {
    pub value: T,
    pub next: usize,
}

/// No number stands at the place, which is that of its first byte: the bytes end inside it or before it, or it is longer
/// than shortest, or over 64 bits (9).
#[derive(Clone, Copy, Debug, PartialEq, Eq)]
pub struct Fault {
    pub at: usize,
}

/// The room is too short for what is to be written, and is as it came (6).
#[derive(Clone, Copy, Debug, PartialEq, Eq)]
pub struct TooShort;

impl Numbered for Fault {
    ghost number = { λ fault. (found (Err fault)).0 };

    /// 01's number of the refusal.
    fn number(&self) -> u8 {
        9
    }
}

impl Numbered for TooShort {
    ghost number = { λ short. (written (Err short)).0 };

    /// 01's number of the refusal.
    fn number(&self) -> u8 {
        6
    }
}

/// Reads the number that stands at the place `at` of the bytes `s`.
///
/// Gives `Ok` with its value and the place past it.
///
/// # Refusal
///
/// `Fault` with the place of the number's first byte, `at`, where no number in shortest form and of at most 64 bits
/// stands there (9). A place past the end is a fault too.
///
/// # Example
///
/// `read_number(&[128, 1, 7], 0)` is `Ok(Read { value: 128, next: 2 })`; `read_number(&[128, 0], 0)` is
/// `Err(Fault { at: 0 })`.
pub fn read_number(s: &[u8], at: usize) -> Result<Read<u64>, Fault>
    ensures { result ≡ number_at s.now at }
{
    let fault = Fault { at };
    let mut value: u64 = 0;
    let rest = s.get(at..).ok_or(fault)?;
    for (n, byte) in rest.iter().enumerate() {
        let b = u64::from(*byte);
        let shift = 7 * n;
        let next = at + n + 1;
        if shift == 63 {
            // nine groups are 63 bits, so a tenth can only be the one bit that is left
            if b == 1 {
                return Ok(Read {
                    value: value | (1 << 63),
                    next,
                });
            }
            return Err(fault);
        }
        if b < 128 {
            // only the number zero ends in a zero
            if b == 0 && shift != 0 {
                return Err(fault);
            }
            return Ok(Read {
                value: value | (b << shift),
                next,
            });
        }
        value = value | ((b & 127) << shift);
    }
    Err(fault)
}

/// How many groups the number `x` has, from 1 to 10.
///
/// # Example
///
/// `size(127)` is 1 and `size(128)` is 2.
pub fn size(x: u64) -> usize
    ensures { (result ≡ length (groups x)) × (result ≤ 10) }
{
    // It counts groups, and no index of a list: the bits' logarithm, of which no lemma tells the groups, is no plainer.
    let mut left = x;
    let mut n: usize = 1;
    while 128 <= left {
        left = left >> 7;
        n += 1;
    }
    n
}

/// Writes the number `x` at the front of the room `out`.
///
/// Gives `Ok` with the count of bytes taken; what lies past them is untouched.
///
/// # Refusal
///
/// `TooShort` where the room is shorter than the number; nothing is written then (6).
///
/// # Example
///
/// `write_number(out, 128)` writes `80 01` and gives `Ok(2)`; into a room of one byte it gives `Err(TooShort)`.
pub fn write_number(out: &mut [u8], x: u64) -> Result<usize, TooShort>
    ensures answer { written result ≡ room_for (groups x) (length out.old) }
    ensures room { out.new ≡ at_front_if_room (groups x) out.old }
{
    let last = size(x) - 1;
    if out.len() <= last {
        return Err(TooShort);
    }
    let mut rest = x;
    for byte in out[..last].iter_mut() {
        *byte = (rest & 127 | 128) as u8;
        rest = rest >> 7;
    }
    out[last] = rest as u8;
    Ok(last + 1)
}
