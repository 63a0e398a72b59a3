// The record of a chart of individuals, of means and ranges or of means and deviations, and the calls that make one and change one.
#![tactic(auto)]

mod records;

ghost use Rattle.std.specs.Prelude.{◌≡◌};
ghost use Rattle.charts.specs.Records.{number, kind_wrong, changed, no_chart, new_of, with_set_of, with_stops_of, add_of, values_after, own_wrong, record_wrong};

use numbers::Numbered;
use rules::MOST;
use sets::RuleSet;

// Kinds are numbers and no enum: a stored record may hold any, and 14 refuses what is none.

/// The kind of a chart of individuals and moving ranges.
pub const INDIVIDUALS: u64 = 1;

/// The kind of a chart of means and ranges.
pub const X_BAR_R: u64 = 2;

/// The kind of a chart of means and deviations.
pub const X_BAR_S: u64 = 3;

/// A chart: what it is, and how many samples it holds. The values stand in a slice that the caller lends to each call,
/// one sample after the other from the front.
///
/// The numbers may be any. A record that is no chart is refused by every call (14): its kind is not 1 to 3, its size is
/// not one of the kind (1 for kind 1, 2 to 25 for kinds 2 and 3), its count is over 4,096, its set is over 511, or, where
/// values are lent, count times size is over their length.
#[derive(Clone, Copy, Debug, PartialEq, Eq)]
pub struct Chart {
    /// [`INDIVIDUALS`] (1), [`X_BAR_R`] (2) or [`X_BAR_S`] (3).
    pub kind: u64,
    /// How many values a sample has.
    pub size: usize,
    /// How many samples there are.
    pub count: usize,
    /// The tests that evaluating applies.
    pub set: RuleSet,
    /// How many of the positions that are lent to evaluating are stops. It may be any number: evaluating judges it (15).
    pub stops: usize,
}

/// Why a call is refused. The number is that of document 01, "Numbers a call may give back".
#[derive(Clone, Copy, Debug, PartialEq, Eq)]
pub enum Refusal {
    /// The size is not allowed for the kind (1).
    Size,
    /// The sample's length is not the chart's size (2).
    Length,
    /// A value is not finite (3).
    NotFinite,
    /// The set is over 511 (4).
    Set,
    /// The chart holds 4,096 samples (5).
    Full,
    /// A lent slice is shorter than needed (6).
    TooShort,
    /// A computed point or limit is not finite (7).
    Overflow,
    /// There is no subgroup, or there are fewer than 2 observations (8).
    TooFew,
    /// The record is no chart, or count times size is over the slice (14).
    Record,
    /// The stops are none of the chart, or more than the list holds (15).
    Stops,
    /// The width mode is not 0 or 1 (21).
    WidthMode,
}

impl Numbered for Refusal {
    ghost number = { number };

    /// The refusal's number in document 01.
    ///
    /// `Refusal::Record.number()` is 14.
    fn number(&self) -> u8 {
        match self {
            Refusal::Size => 1,
            Refusal::Length => 2,
            Refusal::NotFinite => 3,
            Refusal::Set => 4,
            Refusal::Full => 5,
            Refusal::TooShort => 6,
            Refusal::Overflow => 7,
            Refusal::TooFew => 8,
            Refusal::Record => 14,
            Refusal::Stops => 15,
            Refusal::WidthMode => 21,
        }
    }
}

impl Chart {
    /// A chart with no samples, the set nelson and no stops. [`Chart::with_set`] gives it another set.
    ///
    /// Gives `Ok` with the chart. Refuses, in this order: a kind that is not 1 to 3 (14, `Record`), a size that is not
    /// allowed for the kind (1, `Size`).
    ///
    /// `Chart::new(2, 5)` is `Ok(Chart { kind: 2, size: 5, count: 0, set: RuleSet::nelson(), stops: 0 })`.
    #[tactic(auto, unfolding(crate::specs::Records::new_of, laws::specs::Refusals::first_of))]
    pub fn new(kind: u64, size: usize) -> Result<Chart, Refusal>
        ensures { changed no_chart result ≡ new_of kind size }
    {
        if Chart::kind_wrong(kind) {
            return Err(Refusal::Record);
        }
        if records::size_wrong(kind, size) {
            return Err(Refusal::Size);
        }
        Ok(Chart {
            kind,
            size,
            count: 0,
            set: RuleSet::nelson(),
            stops: 0,
        })
    }

    /// Whether a number is that of no kind.
    ///
    /// Of [`X_BAR_S`] it is `false`, and of 4 it is `true`.
    pub fn kind_wrong(kind: u64) -> bool
        ensures { result ≡ kind_wrong kind }
    {
        (kind < INDIVIDUALS) | (X_BAR_S < kind)
    }

    /// Whether the record is no chart by its own numbers (14).
    ///
    /// Of a chart that [`Chart::new`] made it is `false`.
    #[tactic(auto, unfolding(crate::specs::Records::own_wrong))]
    pub fn own_wrong(self) -> bool
        ensures { result ≡ own_wrong self }
    {
        let kind = Chart::kind_wrong(self.kind);
        let size = records::size_wrong(self.kind, self.size);
        kind | size | (MOST < self.count) | (RuleSet::ALL < self.set.mask)
    }

    /// Whether the record is no chart beside a slice of so many values (14).
    ///
    /// Of a chart of size 5 that holds 3 samples, `record_wrong(14)` is `true`, and `record_wrong(15)` is `false`.
    #[tactic(auto, unfolding(crate::specs::Records::record_wrong))]
    pub fn record_wrong(self, values: usize) -> bool
        ensures { result ≡ record_wrong self values }
    {
        self.own_wrong() || values < self.count * self.size
    }

    /// This chart with another set.
    ///
    /// Gives `Ok` with the chart. Refuses, in this order: a record that is no chart, by its own numbers (14, `Record`),
    /// a set over 511 (4, `Set`).
    ///
    /// `chart.with_set(RuleSet::shewhart())` is `Ok` with the same chart, but for `set: RuleSet::shewhart()`.
    #[tactic(auto, unfolding(crate::specs::Records::with_set_of, laws::specs::Refusals::first_of))]
    pub fn with_set(self, set: RuleSet) -> Result<Chart, Refusal>
        ensures { changed self result ≡ with_set_of self set }
    {
        if self.own_wrong() {
            return Err(Refusal::Record);
        }
        if RuleSet::ALL < set.mask {
            return Err(Refusal::Set);
        }
        Ok(Chart { set, ..self })
    }

    /// This chart with another count of stops: of the positions that are lent to evaluating, so many are stops.
    ///
    /// Gives `Ok` with the chart, whatever the count. Refuses a record that is no chart, by its own numbers (14, `Record`).
    ///
    /// `chart.with_stops(2)` is `Ok` with the same chart, but for `stops: 2`.
    #[tactic(auto, unfolding(crate::specs::Records::with_stops_of, laws::specs::Refusals::first_of))]
    pub fn with_stops(self, stops: usize) -> Result<Chart, Refusal>
        ensures { changed self result ≡ with_stops_of self stops }
    {
        if self.own_wrong() {
            return Err(Refusal::Record);
        }
        Ok(Chart { stops, ..self })
    }

    /// Appends one sample: writes it behind the samples held, at count times size, and gives the chart with one sample
    /// more. Values past it are untouched.
    ///
    /// Refuses, in this order and with `values` as it came: a record that is no chart (14, `Record`), a sample that is not
    /// of the chart's size (2, `Length`), one that is not all finite (3, `NotFinite`), one more than 4,096 (5, `Full`), values
    /// with no room for it (6, `TooShort`).
    ///
    /// With a chart of kind 1 that holds nothing, `add(&mut values, &[8.0])` writes 8.0 to `values[0]` and gives the chart
    /// with count 1.
    #[tactic(auto, unfolding(crate::specs::Records::add_of, crate::specs::Records::values_after, laws::specs::Refusals::first_of))]
    pub fn add(self, values: &mut [f64], sample: &[f64]) -> Result<Chart, Refusal>
        ensures answer { changed self result ≡ add_of self values.old sample.now }
        ensures values { values.new
            ≡ values_after (changed self result).0 self sample.now values.old }
    {
        if self.record_wrong(values.len()) {
            return Err(Refusal::Record);
        }
        if sample.len() != self.size {
            return Err(Refusal::Length);
        }
        if !floats::all_finite(sample) {
            return Err(Refusal::NotFinite);
        }
        if MOST <= self.count {
            return Err(Refusal::Full);
        }
        let at = self.count * self.size;
        let end = at + self.size;
        if values.len() < end {
            return Err(Refusal::TooShort);
        }
        values[at..end].copy_from_slice(sample);
        Ok(Chart {
            count: self.count + 1,
            ..self
        })
    }
}
