// The attribute charts of damaged parcels: P, per parcel inspected, and U, per unit.
#![tactic(auto)]

mod checks;
mod plots;
mod proportions;
mod rates;
mod size;
mod totals;

ghost use Rattle.std.specs.Prelude.{◌≡◌, false, [], ◌∷◌, length};
ghost use Rattle.laws.specs.Front.{lent_after};
ghost use Rattle.floats.specs.Values.{plus_zero};
ghost use Rattle.points.specs.Points.{uppers, lowers, outs, zs, has_zs};
ghost use Rattle.points.specs.Plotting.{any_shorter};
ghost use Rattle.attributes.specs.Records.{number, plotting, changed, new_chart, with_centre, add, chart_wrong, centre_wrong, kept_after};
ghost use Rattle.attributes.specs.Evaluating.{evaluated, wrong, chart_centre, chart_plot, evaluate};
ghost use Rattle.attributes.specs.Steps.{Fine};

use numbers::Numbered;
use size::{Ours, Size};
use std::marker::PhantomData;

/// The centre of a chart. It has the shape of an `Option<f64>`, and is a type of its own, since its names say more
/// (docs/DECISIONS.md, 74).
#[derive(Clone, Copy, Debug, PartialEq)]
pub enum Centre {
    /// Computed from the samples.
    Computed,
    /// Given with the chart.
    Given(f64),
}

/// What the size of a sample may be: u64, how many parcels were inspected, of a P chart, or f64, units, of a U chart. No other type
/// can be one, since what a chart asks of a size is within this crate.
pub trait SampleSize: Size {}

impl SampleSize for u64 {}

impl SampleSize for f64 {}

/// A chart, whose samples have sizes of the type S. They stand in two slices that the caller lends to each call: `counts`, how many
/// were damaged, and `sizes`.
///
/// The fields may be any. A record that is no chart is refused by every call (14): its given centre is not allowed, its count is
/// over 4,096, or over the length of one of the slices; by [`Chart::evaluate`] also where a stored sample is one that
/// [`Chart::add`] refuses.
#[derive(Clone, Copy, Debug, PartialEq)]
pub struct Chart<S> {
    /// The centre: computed, or a given one.
    pub centre: Centre,
    /// How many samples there are.
    pub count: usize,
    /// What the sizes are.
    pub size: PhantomData<S>,
}

/// A P chart: the part of the parcels inspected that is damaged. The size of a sample is how many were inspected, and a centre is
/// allowed that is finite and strictly between 0 and 1.
pub type PChart = Chart<u64>;

/// A U chart: damaged parcels per unit, as per thousand. The size of a sample is in how many units they were, and a centre is
/// allowed that is finite and above 0.
pub type UChart = Chart<f64>;

/// Why a call is refused. The number is that of documents 01 and 02.
#[derive(Clone, Copy, Debug, PartialEq, Eq)]
pub enum Refusal {
    /// The chart holds 4,096 samples (5).
    Full,
    /// A lent slice is shorter than needed (6).
    TooShort,
    /// The centre, a value, a sigma or a limit is not finite (7).
    Overflow,
    /// There is no sample (8).
    TooFew,
    /// The record is no chart, or a stored sample is none (14).
    Record,
    /// A count is over 4,294,967,295 (16).
    Count,
    /// No parcel was inspected (17).
    NoSize,
    /// More are damaged than were inspected (18).
    Damaged,
    /// The units are not finite and above zero (19).
    Units,
    /// The centre is not allowed (20).
    Centre,
}

impl Numbered for Refusal {
    ghost number = { number };

    /// The refusal's number in documents 01 and 02.
    ///
    /// `Refusal::Record.number()` is 14.
    fn number(&self) -> u8 {
        match self {
            Refusal::Full => 5,
            Refusal::TooShort => 6,
            Refusal::Overflow => 7,
            Refusal::TooFew => 8,
            Refusal::Record => 14,
            Refusal::Count => 16,
            Refusal::NoSize => 17,
            Refusal::Damaged => 18,
            Refusal::Units => 19,
            Refusal::Centre => 20,
        }
    }
}

impl From<points::Refusal> for Refusal {
    ghost from_gives = { plotting };

    /// A refusal of plotting, with its number.
    ///
    /// `Refusal::from(points::Refusal::Overflow)` is `Refusal::Overflow`.
    fn from(why: points::Refusal) -> Refusal {
        match why {
            points::Refusal::TooShort => Refusal::TooShort,
            points::Refusal::Overflow => Refusal::Overflow,
        }
    }
}

impl<S: Size> Chart<S> {
    /// A chart with no samples, whose centre is computed from those that it gets.
    ///
    /// Refuses nothing.
    ///
    /// `PChart::new()` has the centre `Centre::Computed` and the count 0.
    pub fn new() -> Chart<S>
        ensures { result ≡ new_chart }
    {
        Chart {
            centre: Centre::Computed,
            count: 0,
            size: PhantomData,
        }
    }

    /// A chart with no samples and a given centre.
    ///
    /// Gives `Ok` with the chart. Refuses a centre that is not allowed (20, `Centre`).
    ///
    /// `PChart::with_centre(0.5)` is `Ok` with the centre `Centre::Given(0.5)` and the count 0; `UChart::with_centre(16.0)` is
    /// `Ok` with `Centre::Given(16.0)`.
    pub fn with_centre(centre: f64) -> Result<Chart<S>, Refusal>
        ensures { changed new_chart result ≡ with_centre S.kind centre }
    {
        if !S::allows(Ours, centre) {
            return Err(Refusal::Centre);
        }
        Ok(Chart {
            centre: Centre::Given(centre),
            count: 0,
            size: PhantomData,
        })
    }

    // Whether the given centre, if there is one, is not allowed.
    fn centre_wrong(self) -> bool
        ensures { result ≡ centre_wrong S.kind.allowed self.centre }
    {
        match self.centre {
            Centre::Computed => false,
            Centre::Given(x) => !S::allows(Ours, x),
        }
    }

    // Whether the record is no chart beside slices of these lengths.
    fn record_wrong(self, counts: usize, sizes: usize) -> bool
        ensures { result ≡ chart_wrong S.kind self counts sizes }
    {
        checks::record_wrong(self.centre_wrong(), self.count, counts, sizes)
    }

    // 14, in evaluating; and what the record tells where it is not wrong.
    fn wrong(self, counts: &[u64], sizes: &[S]) -> bool
        ensures is { result ≡ wrong S.kind self counts.now sizes.now }
        ensures fine { result ≡ false → Fine S.kind self counts.now sizes.now }
    {
        if self.record_wrong(counts.len(), sizes.len()) {
            return true;
        }
        !S::are_right(Ours, self.count, counts, sizes)
    }

    // The centre, computed or given.
    fn centre_of(self, counts: &[u64], sizes: &[S]) -> f64
        requires { Fine S.kind self counts.now sizes.now }
        ensures { result ≡ chart_centre S.kind self counts.now sizes.now }
    {
        match self.centre {
            Centre::Given(x) => x,
            Centre::Computed => {
                let n = self.count;
                let damaged = totals::total(&counts[..n]);
                std::num::nearest_u64_to_f64(damaged) / S::total(Ours, &sizes[..n])
            }
        }
    }

    /// Appends one sample: writes `damaged` to `counts` and `size` to `sizes`, at place count, and gives the chart with one sample
    /// more. Other entries are untouched.
    ///
    /// Refuses, in this order and with both slices as they came: a record that is no chart (14, `Record`), a count over
    /// 4,294,967,295, damaged or inspected (16, `Count`), no parcel inspected (17, `NoSize`), more damaged than inspected (18,
    /// `Damaged`), units that are not finite and above zero (19, `Units`), one more than 4,096 (5, `Full`), a slice with no room
    /// for it (6, `TooShort`).
    ///
    /// With a chart that holds nothing, `add(&mut counts, &mut sizes, 3, 100)` writes 3 to `counts[0]` and 100 to `sizes[0]`,
    /// and gives the chart with count 1.
    pub fn add(
        self,
        counts: &mut [u64],
        sizes: &mut [S],
        damaged: u64,
        size: S,
    ) -> Result<Chart<S>, Refusal>
        ensures answer { changed self result
            ≡ add S.kind self (length counts.old) (length sizes.old) damaged size }
        ensures counts { counts.new ≡ kept_after (changed self result).0 self.count damaged counts.old }
        ensures sizes { sizes.new ≡ kept_after (changed self result).0 self.count size sizes.old }
    {
        let wrong = self.record_wrong(counts.len(), sizes.len());
        let sample = S::sample(Ours, damaged, size);
        checks::adding(wrong, sample, self.count, counts.len(), sizes.len())?;
        let at = self.count;
        counts[at] = damaged;
        sizes[at] = size;
        Ok(Chart {
            count: at + 1,
            ..self
        })
    }

    /// Evaluates the chart: writes each point's value, limits, verdict and standardized value to the front of the lent
    /// slices, and gives the centre. Where a point has no standardized value, its sigma being zero, `z` gets +0.0 and `has_z`
    /// a no. Entries past the last point are untouched.
    ///
    /// Refuses, in this order: a record that is no chart (14, `Record`), no sample (8, `TooFew`), a slice too short for the
    /// points (6, `TooShort`), a centre, value, sigma or limit that is not finite (7, `Overflow`). At 7 all six slices are
    /// zero throughout; at any other refusal they are as they came.
    ///
    /// P: with the centre 0.5 and 36 inspected the limits are 0.75 and 0.25: 27 damaged are on the upper one, and in control.
    /// U: with the centre 16.0 and one unit the limits are 28.0 and 4.0: 29 damaged are out of control.
    //
    // Six slices and no struct of them, as in `points::plot`, which says why.
    pub fn evaluate(
        self,
        counts: &[u64],
        sizes: &[S],
        values: &mut [f64],
        ucl: &mut [f64],
        lcl: &mut [f64],
        out: &mut [bool],
        z: &mut [f64],
        has_z: &mut [bool],
    ) -> Result<f64, Refusal>
        ensures answer { evaluated result
            ≡ evaluate S.kind self counts.now sizes.now
            (any_shorter self.count (length values.old ∷ length ucl.old ∷ length lcl.old
            ∷ length out.old ∷ length z.old ∷ length has_z.old ∷ [])) }
        ensures values { values.new ≡ lent_after (evaluated result).0 plus_zero
            (chart_plot S.kind self counts.now sizes.now).values values.old }
        ensures ucl { ucl.new ≡ lent_after (evaluated result).0 plus_zero
            (uppers (chart_plot S.kind self counts.now sizes.now)) ucl.old }
        ensures lcl { lcl.new ≡ lent_after (evaluated result).0 plus_zero
            (lowers (chart_plot S.kind self counts.now sizes.now)) lcl.old }
        ensures out { out.new ≡ lent_after (evaluated result).0 false
            (outs (chart_plot S.kind self counts.now sizes.now)) out.old }
        ensures z { z.new ≡ lent_after (evaluated result).0 plus_zero
            (zs (chart_plot S.kind self counts.now sizes.now)) z.old }
        ensures has_z { has_z.new ≡ lent_after (evaluated result).0 false
            (has_zs (chart_plot S.kind self counts.now sizes.now)) has_z.old }
    {
        let n = self.count;
        let wrong = self.wrong(counts, sizes);
        let lengths = [
            values.len(),
            ucl.len(),
            lcl.len(),
            out.len(),
            z.len(),
            has_z.len(),
        ];
        let short = points::too_short(n, &lengths);
        checks::check(wrong, n, short)?;
        let cl = self.centre_of(counts, sizes);
        S::fill(Ours, n, sizes, ucl);
        let variance = S::variance(Ours, cl);
        plots::evaluate(cl, variance, n, counts, values, ucl, lcl, out, z, has_z)
    }
}
