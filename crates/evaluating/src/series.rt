// The two series.
ghost use Rattle.std.specs.Prelude.{◌≡◌, ◌<◌, ◌≤◌, length};
ghost use Rattle.laws.specs.Front.{at_front};
ghost use Rattle.evaluating.specs.Asked.{sample_at};
ghost use Rattle.evaluating.specs.Series.{point_at, points_in, series_of};
ghost use Rattle.evaluating.specs.Steps.{place_of, asks};

use super::Lengths;
use super::kinds::{Kind, kind_of};
use super::right::Held;
use charts::Chart;

// A series of a chart.
#[derive(Clone, Copy)]
pub enum Series {
    Main,
    Dispersion,
}

// How many points a series has.
#[tactic(auto, unfolding(crate::specs::Series::points_in, crate::specs::Series::by_series, charts::specs::Records::by_kind))]
pub fn points_in(c: Chart, series: Series) -> usize
    ensures { result ≡ points_in c (place_of series) }
{
    match (series, kind_of(c)) {
        (Series::Dispersion, Kind::Individuals) => c.count.saturating_sub(1),
        _ => c.count,
    }
}

// How many points each series has.
pub fn lengths_in(c: Chart) -> Lengths
    ensures main { result.main ≡ points_in c 0 }
    ensures dispersion { result.dispersion ≡ points_in c 1 }
{
    Lengths {
        main: points_in(c, Series::Main),
        dispersion: points_in(c, Series::Dispersion),
    }
}

impl<'a> Held<'a> {
    // The sample at a place.
    fn sample_at(self, i: usize) -> &'a [f64]
        requires { i < self.chart.count }
        ensures { result.now ≡ sample_at (asks self.entry) i }
    {
        let at = i * self.chart.size;
        &self.values[at..at + self.chart.size]
    }

    // The observation at a place, or the mean of the sample there.
    #[tactic(auto, unfolding(crate::specs::Series::point_at, crate::specs::Series::by_series, charts::specs::Records::by_kind))]
    fn main_point(self, i: usize) -> f64
        requires { i < points_in self.chart 0 }
        ensures { result ≡ point_at (asks self.entry) 0 i }
    {
        match kind_of(self.chart) {
            Kind::Individuals => self.values[i],
            _ => arith::mean_of(self.sample_at(i)),
        }
    }

    // The moving range to the next observation, or the range or deviation of the sample at a place.
    #[tactic(auto, unfolding(crate::specs::Series::point_at, crate::specs::Series::by_series, charts::specs::Records::by_kind))]
    fn dispersion_point(self, i: usize) -> f64
        requires { i < points_in self.chart 1 }
        ensures { result ≡ point_at (asks self.entry) 1 i }
    {
        match kind_of(self.chart) {
            Kind::Individuals => arith::moving_range(self.values[i], self.values[i + 1]),
            Kind::Ranges => arith::range_of(self.sample_at(i)),
            Kind::Deviations => arith::deviation_of(self.sample_at(i)),
        }
    }

    // The point at a place.
    fn point(self, series: Series, i: usize) -> f64
        requires { i < points_in self.chart (place_of series) }
        ensures { result ≡ point_at (asks self.entry) (place_of series) i }
    {
        match series {
            Series::Main => self.main_point(i),
            Series::Dispersion => self.dispersion_point(i),
        }
    }

    // Writes a series to the front of a slice.
    pub fn fill(self, series: Series, out: &mut [f64])
        requires { points_in self.chart (place_of series) ≤ length out.old }
        ensures { out.new ≡ at_front (series_of (asks self.entry) (place_of series)) out.old }
    {
        let n = points_in(self.chart, series);
        for i in 0..n {
            out[i] = self.point(series, i);
        }
    }
}
