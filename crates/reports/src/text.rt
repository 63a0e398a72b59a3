// The lines of a report, byte by byte from a place of the room on. Each function either writes its bytes or, without WRITE, only
// goes past them, so that a room too short for a text is known before anything is written. They print by hand: there is no heap
// to format into, and each promises its exact bytes. The room and the place stay two parameters: what a struct leaves behind a
// reference of its own a contract can name only by its place in nested pairs.
ghost use Rattle.std.specs.Prelude.{◌≡◌, ◌∷◌, [], true, ◌≤◌, ◌<◌, length};
ghost use Rattle.laws.specs.Bits.{has_bit};
ghost use Rattle.rules.specs.Finite.{finite_limits};
ghost use Rattle.rules.specs.Marking.{most};
ghost use Rattle.reports.specs.Text.{glyph as glyph_of, decimal, digits, line, l_line, r_line, v_lines, point_marks, listed};
ghost use Rattle.reports.specs.TextSteps.{Put, word_of, words_of, Tells, text_by};

use charts::Chart;
use evaluating::Evaluation;
use rules::Limits;

// The character of a digit.
#[tactic(auto, unfolding(crate::specs::Text::glyph))]
fn glyph(d: u64) -> u8
    requires { d < 16 }
    ensures { result ≡ glyph_of d }
{
    if d < 10 {
        return b'0' + d as u8;
    }
    b'a' - 10 + d as u8
}

// How many decimal digits a number has.
fn decimal_len(x: u64) -> usize
    ensures { result ≡ length (decimal x) }
{
    if x == 0 {
        return 1;
    }
    x.ilog10() as usize + 1
}

// One byte, and the place past it. Where the room does not reach so far, that is one past its end.
fn put_byte<const WRITE: bool>(out: &mut [u8], at: usize, b: u8) -> usize
    ensures { Put WRITE (b ∷ []) at out.old result out.new }
{
    if out.len() <= at {
        return out.len() + 1;
    }
    if WRITE {
        out[at] = b;
    }
    at + 1
}

// The last k digits of a number in a base.
fn put_digits<const WRITE: bool>(out: &mut [u8], at: usize, base: u64, k: usize, x: u64) -> usize
    requires { (1 < base) × (base ≤ 16) }
    ensures { Put WRITE (digits base k x) at out.old result out.new }
{
    if k == 0 {
        return at;
    }
    let last = put_digits::<WRITE>(out, at, base, k - 1, x / base);
    put_byte::<WRITE>(out, last, glyph(x % base))
}

// A number as a word of a line: its decimal digits, or all its hex ones.
#[derive(Clone, Copy)]
enum Word {
    Decimal(u64),
    Hex(u64),
}

// One word.
fn put_word<const WRITE: bool>(out: &mut [u8], at: usize, word: Word) -> usize
    ensures { Put WRITE (word_of word) at out.old result out.new }
{
    match word {
        Word::Decimal(x) => put_digits::<WRITE>(out, at, 10, decimal_len(x), x),
        Word::Hex(x) => put_digits::<WRITE>(out, at, 16, 16, x),
    }
}

// A line: its letter and its words.
fn put_line<const WRITE: bool>(out: &mut [u8], at: usize, letter: u8, words: &[Word]) -> usize
    ensures { Put WRITE (line letter (words_of words.now)) at out.old result out.new }
{
    let mut to = put_byte::<WRITE>(out, at, letter);
    for word in words {
        let next = put_byte::<WRITE>(out, to, b' ');
        to = put_word::<WRITE>(out, next, *word);
    }
    put_byte::<WRITE>(out, to, b'\n')
}

// The limits of a series, of which none is a NaN. Series and refusals come by the numbers that the lines show.
fn put_limits<const WRITE: bool>(out: &mut [u8], at: usize, series: u64, limits: Limits) -> usize
    requires { finite_limits limits ≡ true }
    ensures { Put WRITE (l_line series limits) at out.old result out.new }
{
    let words = [
        Word::Decimal(series),
        Word::Hex(limits.ucl.to_bits()),
        Word::Hex(limits.cl.to_bits()),
        Word::Hex(limits.lcl.to_bits()),
    ];
    put_line::<WRITE>(out, at, b'L', &words)
}

// Whether bit k is set.
fn has_bit(m: u16, k: u64) -> bool
    requires { k < 16 }
    ensures { result ≡ has_bit m k }
{
    m >> k & 1 == 1
}

// The lines of the marks of a point, test by test.
fn put_point<const WRITE: bool>(out: &mut [u8], at: usize, series: u64, index: u64, m: u16) -> usize
    ensures { Put WRITE (v_lines (point_marks series index m)) at out.old result out.new }
{
    let mut to = at;
    for t in 0..9 {
        if has_bit(m, t) {
            to = put_line::<WRITE>(
                out,
                to,
                b'V',
                &[
                    Word::Decimal(series),
                    Word::Decimal(index),
                    Word::Decimal(t),
                ],
            );
        }
    }
    to
}

// The lines of the marks of a series whose first index is given.
fn put_marks<const WRITE: bool>(
    out: &mut [u8],
    at: usize,
    series: u64,
    first: u64,
    marks: &[u16],
) -> usize
    requires { (length marks.now ≤ most) × (first ≤ 1) }
    ensures { Put WRITE (v_lines (listed series first marks.now)) at out.old result out.new }
{
    let mut to = at;
    for (i, m) in marks.iter().enumerate() {
        if *m != 0 {
            to = put_point::<WRITE>(out, to, series, first + i as u64, *m);
        }
    }
    to
}

/// The text of an evaluated chart, told the first index of its second series and the marks of both, from the front of the room on.
pub fn put_chart<const WRITE: bool>(
    out: &mut [u8],
    chart: Chart,
    e: Evaluation,
    first: u64,
    marks: &[u16],
    others: &[u16],
) -> usize
    requires { Tells e first marks.now others.now }
    ensures { Put WRITE (text_by chart e first marks.now others.now) 0 out.old result out.new }
{
    let head = [
        Word::Decimal(chart.kind),
        Word::Decimal(chart.size as u64),
        Word::Decimal(u64::from(chart.set.mask)),
    ];
    let lines = [Word::Decimal(e.marks as u64)];
    let one = put_line::<WRITE>(out, 0, b'C', &head);
    let two = put_limits::<WRITE>(out, one, 0, e.main);
    let three = put_limits::<WRITE>(out, two, 1, e.dispersion);
    let four = put_marks::<WRITE>(out, three, 0, 0, marks);
    let five = put_marks::<WRITE>(out, four, 1, first, others);
    put_line::<WRITE>(out, five, b'E', &lines)
}

/// The line of a refusal, from the front of the room on.
pub fn put_refusal<const WRITE: bool>(out: &mut [u8], why: u8) -> usize
    ensures { Put WRITE (r_line why) 0 out.old result out.new }
{
    put_line::<WRITE>(out, 0, b'R', &[Word::Decimal(u64::from(why))])
}
