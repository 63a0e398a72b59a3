// The limits of both series.
ghost use Rattle.std.specs.Prelude.{◌≡◌, ◌≤◌, length};
ghost use Rattle.laws.specs.Front.{at_front};
ghost use Rattle.evaluating.specs.Series.{points_in, series_of};
ghost use Rattle.evaluating.specs.Limits.{factor_for, main_limits, lower_limit, dispersion_limits};
ghost use Rattle.evaluating.specs.Steps.{row_of, asks, limits_from, measured};

use super::ChartLimits;
use super::factors::Factor;
use super::kinds::{Kind, kind_of};
use super::right::{Held, Right};
use super::series::{Series, lengths_in};
use charts::Refusal;
use rules::Limits;

impl Right {
    // A figure for individuals, and for subgroups the factor of the kind.
    #[tactic(auto, unfolding(crate::specs::Limits::factor_for, charts::specs::Records::by_kind))]
    pub fn factor_for(self, individuals: f64, ranges: Factor, deviations: Factor) -> f64
        ensures { result ≡ factor_for self.chart individuals (row_of ranges) (row_of deviations) }
    {
        match kind_of(self.chart) {
            Kind::Individuals => individuals,
            Kind::Ranges => ranges.of_size(self.chart.size),
            Kind::Deviations => deviations.of_size(self.chart.size),
        }
    }

    fn main_limits(self, m: f64, d: f64) -> Limits
        ensures { result ≡ main_limits self.chart m d }
    {
        let width = self.factor_for(2.660, Factor::A2, Factor::A3) * d;
        Limits {
            ucl: m + width,
            cl: m,
            lcl: m - width,
        }
    }

    #[tactic(auto, unfolding(crate::specs::Limits::lower_limit, charts::specs::Records::by_kind))]
    fn lower_limit(self, d: f64) -> f64
        ensures { result ≡ lower_limit self.chart d }
    {
        match kind_of(self.chart) {
            Kind::Individuals => 0.0,
            Kind::Ranges => Factor::D3.of_size(self.chart.size) * d,
            Kind::Deviations => Factor::B3.of_size(self.chart.size) * d,
        }
    }

    fn dispersion_limits(self, d: f64) -> Limits
        ensures { result ≡ dispersion_limits self.chart d }
    {
        Limits {
            ucl: self.factor_for(3.267, Factor::D4, Factor::B4) * d,
            cl: d,
            lcl: self.lower_limit(d),
        }
    }

    // The limits from the means of both series, unless one is not finite (7). Where they are finite, so are the points: a sum keeps
    // what is not.
    #[tactic(auto, unfolding(crate::specs::Steps::limits_from))]
    pub fn limits_from(self, m: f64, d: f64) -> Result<ChartLimits, Refusal>
        ensures { result ≡ limits_from self.chart m d }
    {
        let main = self.main_limits(m, d);
        let dispersion = self.dispersion_limits(d);
        if rules::finite_limits(main) & rules::finite_limits(dispersion) {
            return Ok(ChartLimits { main, dispersion });
        }
        Err(Refusal::Overflow)
    }
}

impl Held<'_> {
    // Writes both series, and gives their limits, unless one is not finite (7).
    pub fn measure(self, main: &mut [f64], dispersion: &mut [f64]) -> Result<ChartLimits, Refusal>
        requires { (points_in self.chart 0 ≤ length main.old) × (points_in self.chart 1 ≤ length dispersion.old) }
        ensures limits { result ≡ measured (asks self.entry) }
        ensures main { main.new ≡ at_front (series_of (asks self.entry) 0) main.old }
        ensures dispersion { dispersion.new ≡ at_front (series_of (asks self.entry) 1) dispersion.old }
    {
        let points = lengths_in(self.chart);
        self.fill(Series::Main, main);
        self.fill(Series::Dispersion, dispersion);
        let right = Right { chart: self.chart };
        right.limits_from(
            arith::mean_of(&main[..points.main]),
            arith::mean_of(&dispersion[..points.dispersion]),
        )
    }
}
