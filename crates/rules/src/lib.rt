// The nine tests on a series: what a mark means, and marking.
#![tactic(auto)]

mod codes;
mod cuts;

ghost use Rattle.std.specs.Prelude.{◌≡◌, length};
ghost use Rattle.rules.specs.Lines.{widths_of, lines_of};
ghost use Rattle.rules.specs.Tests.{window};
ghost use Rattle.rules.specs.Finite.{finite_limits};
ghost use Rattle.rules.specs.Terms.{alone, told};
ghost use Rattle.rules.specs.Marking.{number, numbered, refusal, answer_of, marks_after};

use codes::Marker;
use numbers::Numbered;
use sets::{RuleSet, Test};

/// The most values of a series.
pub const MOST: usize = 4096;

// Width modes are numbers and no enum: a caller may give any, and 21 refuses what is none.

/// The default width mode: one and two sigma are measured between the upper limit and the centre line, and serve below it too.
pub const SAME_WIDTHS: u64 = 0;

/// The width mode by which each side has the widths of its own limit: below the centre line they are measured between it and the
/// lower limit.
pub const OWN_WIDTHS: u64 = 1;

/// Control limits: the upper limit, the centre line, the lower limit.
#[derive(Clone, Copy, Debug, PartialEq)]
pub struct Limits {
    pub ucl: f64,
    pub cl: f64,
    pub lcl: f64,
}

/// What a series is asked under.
#[derive(Clone, Copy, Debug, PartialEq)]
pub struct Terms<'a> {
    /// Its control limits.
    pub limits: Limits,
    /// The width mode: 0 ([`SAME_WIDTHS`]), where one and two sigma below the centre line are as wide as above it, or 1
    /// ([`OWN_WIDTHS`]), where each side has the widths of its own limit.
    pub width: u64,
    /// The positions before which the belt stood still, of the main series where the values are its moving ranges. A window that
    /// reaches over one does not show its pattern.
    pub stops: &'a [usize],
    /// Whether the values are moving ranges. Only windows of length one hold a moving range that straddles a stop.
    // A fact by itself: no other field is there or not by it.
    pub moving: bool,
}

impl Terms<'_> {
    /// The terms of values by themselves: with no stops, where it does not matter of which kind the series is.
    ///
    /// Refuses nothing: the limits and the mode may be any, and marking judges them.
    ///
    /// `Terms::alone(limits, SAME_WIDTHS)` has no stops and `moving: false`.
    pub fn alone(limits: Limits, width: u64) -> Terms<'static>
        ensures { told result ≡ alone limits width }
    {
        Terms {
            limits,
            width,
            stops: &[],
            moving: false,
        }
    }
}

// The zone widths: one and two sigma above the centre line, and below it.
#[derive(Clone, Copy)]
struct Widths {
    above1: f64,
    above2: f64,
    below1: f64,
    below2: f64,
}

/// The lines that the tests compare with: the limits, and one and two sigma above and below the centre line.
#[derive(Clone, Copy, Debug, PartialEq)]
pub struct Lines {
    pub ucl: f64,
    pub cl: f64,
    pub lcl: f64,
    pub above1: f64,
    pub below1: f64,
    pub above2: f64,
    pub below2: f64,
}

// The third column of 01's table.
const WINDOWS: [usize; 9] = [1, 9, 6, 14, 3, 5, 15, 8, 8];

/// How many values the window of a test has.
///
/// Refuses nothing.
///
/// Of `Test::FifteenWithin1Sigma` it is 15.
pub fn window(t: Test) -> usize
    ensures { result ≡ window t }
{
    WINDOWS[t.bit() as usize]
}

/// Why a series is not marked, checked or written, or a value not taken.
#[derive(Clone, Copy, Debug, PartialEq, Eq)]
pub enum Refusal {
    /// There are more than 4,096 values (5).
    TooMany,
    /// The stops are none of the series (15): see [`stops::wrong`].
    Stops,
    /// The set's mask is over 511 (4).
    SetTooLarge,
    /// The width mode is not 0 or 1 (21).
    WidthMode,
    /// A limit or a value is not finite (3).
    NotFinite,
    /// The lent room is too short for what is to be written (6).
    TooShort,
}

impl Numbered for Refusal {
    ghost number = { number };

    /// 01's number of the refusal.
    ///
    /// `Refusal::Stops.number()` is 15.
    fn number(&self) -> u8 {
        match self {
            Refusal::TooMany => 5,
            Refusal::Stops => 15,
            Refusal::SetTooLarge => 4,
            Refusal::WidthMode => 21,
            Refusal::NotFinite => 3,
            Refusal::TooShort => 6,
        }
    }
}

/// Whether all three limits are finite.
///
/// Refuses nothing.
///
/// Of `Limits { ucl: 28.0, cl: 25.0, lcl: 22.0 }` it is yes.
pub fn finite_limits(l: Limits) -> bool
    ensures { result ≡ finite_limits l }
{
    floats::is_finite(l.ucl) & floats::is_finite(l.cl) & floats::is_finite(l.lcl)
}

// The zone widths of the limits, by the width mode.
fn widths_of(l: Limits, width: u64) -> Widths
    ensures { result ≡ widths_of width l }
{
    let s = (l.ucl - l.cl) / 3.0;
    let t = 2.0 * s;
    if width == OWN_WIDTHS {
        let below = (l.cl - l.lcl) / 3.0;
        return Widths {
            above1: s,
            above2: t,
            below1: below,
            below2: 2.0 * below,
        };
    }
    Widths {
        above1: s,
        above2: t,
        below1: s,
        below2: t,
    }
}

/// The lines of the limits, by the width mode: [`SAME_WIDTHS`] or [`OWN_WIDTHS`].
///
/// Refuses nothing: a mode that is neither, which marking refuses, has the lines of the default.
///
/// Of `Limits { ucl: 28.0, cl: 25.0, lcl: 19.0 }` one sigma above the centre line is 26.0, and one below it 24.0 by mode 0 and
/// 23.0 by mode 1.
pub fn lines_of(l: Limits, width: u64) -> Lines
    ensures { result ≡ lines_of width l }
{
    let w = widths_of(l, width);
    Lines {
        ucl: l.ucl,
        cl: l.cl,
        lcl: l.lcl,
        above1: l.cl + w.above1,
        below1: l.cl - w.below1,
        above2: l.cl + w.above2,
        below2: l.cl - w.below2,
    }
}

// What is refused before there is a room to look at: the first refusal that applies.
fn ahead(values: &[f64], terms: Terms, set: RuleSet) -> Result<(), Refusal>
    ensures { numbered result ≡ refusal (told terms.entry) set.mask values.now }
{
    if MOST < values.len() {
        return Err(Refusal::TooMany);
    }
    if stops::wrong(terms.stops, terms.moving, values.len()) {
        return Err(Refusal::Stops);
    }
    if RuleSet::ALL < set.mask {
        return Err(Refusal::SetTooLarge);
    }
    if OWN_WIDTHS < terms.width {
        return Err(Refusal::WidthMode);
    }
    if !finite_limits(terms.limits) {
        return Err(Refusal::NotFinite);
    }
    if !floats::all_finite(values) {
        return Err(Refusal::NotFinite);
    }
    Ok(())
}

/// Marks every position of a series: test b of the set is set in bit b of `marks[i]` exactly where the window of the
/// test that ends at position i fits and shows the test's pattern.
///
/// What the terms are says [`Terms`]: a window that reaches over a stop does not show its pattern, and only windows of length one
/// hold a moving range that straddles one.
///
/// Gives `Ok` and fills the front of `marks`, one entry for each value; entries past them are untouched. Infinite
/// zone widths and limits that lie the wrong way round are taken as they are.
///
/// # Refusals
///
/// In this order, with `marks` as it came: more than 4,096 values (5), stops that are none of the series (15, see
/// [`stops::wrong`]), a set over 511 (4), a width mode that is not 0 or 1 (21), limits that are not all finite (3), values that
/// are not all finite (3), a slice shorter than the series (6).
///
/// # Example
///
/// Nine values of 26.5 under the limits 28.0, 25.0, 22.0 and the set nelson: four of five lie beyond one sigma from
/// position 4 on (32), eight do at position 7 (160), and nine lie on one side at position 8 (162).
///
/// ```
/// let terms = Terms::alone(Limits { ucl: 28.0, cl: 25.0, lcl: 22.0 }, SAME_WIDTHS);
/// let mut marks = [0u16; 9];
/// rules::mark(&[26.5; 9], terms, RuleSet::nelson(), &mut marks);                           // 0, 0, 0, 0, 32, 32, 32, 160, 162
/// rules::mark(&[26.5; 9], Terms { stops: &[3], ..terms }, RuleSet::nelson(), &mut marks);  // 0, 0, 0, 0, 0, 0, 0, 32, 32
/// ```
pub fn mark(values: &[f64], terms: Terms, set: RuleSet, marks: &mut [u16]) -> Result<(), Refusal>
    ensures answer { numbered result ≡ answer_of (told terms.entry) set.mask values.now (length marks.old) }
    ensures marks { marks.new ≡ marks_after (told terms.entry) set.mask values.now marks.old }
{
    ahead(values, terms, set)?;
    let n = values.len();
    if marks.len() < n {
        return Err(Refusal::TooShort);
    }
    let marker = Marker {
        lines: lines_of(terms.limits, terms.width),
        set: set.mask,
    };
    marker.fill(values, marks);
    cuts::part(terms.stops, terms.moving, &mut marks[..n]);
    Ok(())
}
