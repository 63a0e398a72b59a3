// The window behind a mark.
#![tactic(auto)]

ghost use Rattle.std.specs.Prelude.{◌≡◌, true, false, length, MatchOption};
ghost use Rattle.rules.specs.Terms.{told};
ghost use Rattle.rules.specs.Tests.{window};
ghost use Rattle.evidence.specs.Evidence.{part_at, shown_at, evidence_of, IsPart};
ghost use Rattle.evidence.specs.Steps.{shows_alone};

use rules::{Limits, Terms};
use sets::{RuleSet, Test};

// Whether a window of a test's length shows its pattern, the width mode being one and its values and the limits finite: the
// window is marked as a series of its own, by a set with this test alone.
fn shows_pattern(part: &[f64], limits: Limits, width: u64, t: Test) -> bool
    requires { length part.now ≡ window t }
    ensures { result ≡ shows_alone limits width t part.now }
{
    let mut marks = [0u16; 15];
    let set = RuleSet { mask: 1 << t.bit() };
    if rules::mark(part, Terms::alone(limits, width), set, &mut marks).is_err() {
        return false;
    }
    marks[part.len() - 1] != 0
}

// The window of a series that ends at a position, where it shows the pattern of a test.
fn window_at<'a>(series: &'a [f64], terms: Terms, at: usize, bit: u64) -> Option<&'a [f64]>
    ensures { MatchOption result
        (shown_at series.now (told terms.entry) at bit ≡ false)
        (λ part. (shown_at series.now (told terms.entry) at bit ≡ true) × IsPart series.entry series.entry part (part_at false at bit)) }
{
    if series.len() <= at {
        return None;
    }
    if stops::wrong(terms.stops, terms.moving, series.len()) {
        return None;
    }
    let t = Test::from_bit(bit)?;
    let n = rules::window(t);
    let end = at + 1;
    if end < n {
        return None;
    }
    let start = end - n;
    if start < stops::since(terms.stops, terms.moving, at) {
        return None;
    }
    if shows_pattern(&series[start..end], terms.limits, terms.width, t) {
        return Some(&series[start..end]);
    }
    None
}

/// The window behind a mark: the part of the named series that ends at the position `at` and shows the pattern of the
/// test with the bit number `bit`.
///
/// The series' number and the bit may be any: out of range they have the empty part. `series` is 0 for `main` and 1 for `dispersion`, and `terms` are those of that series (see [`Terms`]). The part is one of the lent
/// series itself, not a copy.
///
/// # Refusals
///
/// The empty part at the front of `main` where the series' number, the position or the bit number is out of range, the
/// stops, wherever they lie, are none of the series (see [`stops::wrong`]), the width mode is not 0 or 1, the window does not fit
/// or reaches over a stop, its values or the limits are not all finite, or it does not show the pattern.
///
/// # Example
///
/// Under the limits 28.0, 25.0, 22.0 the evidence of bit 4 (two of three beyond two sigma) at position 2 of 27.5, 25.0,
/// 27.5 is all three values; at position 1 it is empty, since the window does not fit, and so it is at position 2 where the
/// belt stood still before position 1 or 2.
pub fn evidence<'a>(
    main: &'a [f64],
    dispersion: &'a [f64],
    series: u64,
    terms: Terms,
    at: usize,
    bit: u64,
) -> &'a [f64]
    ensures { IsPart main.entry dispersion.entry result (evidence_of main.now dispersion.now series (told terms.entry) at bit) }
{
    let nothing = &main[..0];
    if series == 0 {
        return window_at(main, terms, at, bit).unwrap_or(nothing);
    }
    if series == 1 {
        return window_at(dispersion, terms, at, bit).unwrap_or(nothing);
    }
    nothing
}
