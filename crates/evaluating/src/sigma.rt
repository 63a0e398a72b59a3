// The sigma figures.
ghost use Rattle.std.specs.Prelude.{◌≡◌, ◌≤◌};
ghost use Rattle.evaluating.specs.Asked.{asked};
ghost use Rattle.evaluating.specs.Limits.{centre_of};
ghost use Rattle.evaluating.specs.Sigma.{figured, sigma_number, unless_refused, sigma_from, equivalent_df, range_cv2, deviation_cv2, df_of};
ghost use Rattle.evaluating.specs.Steps.{asks, measured};

use super::factors::Factor;
use super::kinds::{Kind, kind_of};
use super::right::{Held, Right};
use super::series::{Series, points_in};
use super::{ChartLimits, checks};
use charts::{Chart, Refusal};
use rules::MOST;

// So many points have rooms of their own, which take less to clear.
const FEW: usize = 128;

impl Held<'_> {
    // The limits of both series, measured in rooms for so many points that nobody keeps.
    fn measure_in<const ROOM: usize>(self) -> Result<ChartLimits, Refusal>
        requires { (self.chart.count ≤ ROOM) × (ROOM ≤ 4096) }
        ensures { result ≡ measured (asks self.entry) }
    {
        let mut main = [0.0f64; ROOM];
        let mut dispersion = [0.0f64; ROOM];
        self.measure(&mut main, &mut dispersion)
    }

    // The limits of both series.
    fn limits(self) -> Result<ChartLimits, Refusal>
        ensures { result ≡ measured (asks self.entry) }
    {
        if self.chart.count <= FEW {
            return self.measure_in::<FEW>();
        }
        self.measure_in::<MOST>()
    }
}

// The dispersion series' centre line, from which both figures are made, or why there is none.
pub fn centre(c: Chart, values: &[f64]) -> Result<f64, Refusal>
    ensures { figured result
        ≡ unless_refused (sigma_number (asked c values.now)) (centre_of (asked c values.now) 1) }
{
    checks::check(c, values, false, false, false)?;
    let held = Held { chart: c, values };
    Ok(held.limits()?.dispersion.cl)
}

fn equivalent_df(cv2: f64) -> f64
    ensures { result ≡ equivalent_df cv2 }
{
    let a = 2.0 * cv2;
    1.0 / a - 3.0 * a / 16.0 + 3.0 * a * a / 64.0 + 0.25
}

fn range_cv2(f: f64, m: f64) -> f64
    ensures { result ≡ range_cv2 f m }
{
    let cv = (f - 1.0) / 3.0;
    cv * cv / m
}

fn deviation_cv2(f: f64, m: f64) -> f64
    ensures { result ≡ deviation_cv2 f m }
{
    (1.0 - f * f) / (f * f * m)
}

impl Right {
    // The estimate of sigma, from the mean of the dispersion series.
    #[tactic(auto, unfolding(crate::specs::Sigma::sigma_from))]
    pub fn sigma_from(self, mean: f64) -> f64
        ensures { result ≡ sigma_from self.chart mean }
    {
        mean / self.factor_for(Factor::D2.of_size(2), Factor::D2, Factor::C4)
    }

    // The degrees of freedom.
    #[tactic(auto, unfolding(crate::specs::Sigma::df_of, charts::specs::Records::by_kind))]
    pub fn df_of(self) -> f64
        ensures { result ≡ df_of self.chart }
    {
        let n = std::num::nearest_usize_to_f64(points_in(self.chart, Series::Dispersion));
        match kind_of(self.chart) {
            Kind::Individuals => 0.62 * n,
            Kind::Ranges => equivalent_df(range_cv2(Factor::D4.of_size(self.chart.size), n)),
            Kind::Deviations => equivalent_df(deviation_cv2(
                Factor::C4.of_size(self.chart.size),
                n,
            )),
        }
    }
}
