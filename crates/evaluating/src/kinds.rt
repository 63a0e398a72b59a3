// The kind of a chart, by its number.
ghost use Rattle.std.specs.Prelude.{◌≡◌};
ghost use Rattle.charts.specs.Records.{by_kind};
ghost use Rattle.evaluating.specs.declared.kinds.Kind.TheVariants.{Individuals, Ranges, Deviations};

use charts::{Chart, INDIVIDUALS, X_BAR_R};

// What a chart has beside its main series: moving ranges of individuals, or the ranges or the deviations of samples.
#[derive(Clone, Copy)]
pub enum Kind {
    Individuals,
    Ranges,
    Deviations,
}

// Of a record that is a chart, its kind. A number that is that of no kind counts as that of deviations.
#[tactic(auto, unfolding(charts::specs::Records::by_kind))]
pub fn kind_of(c: Chart) -> Kind
    ensures { result ≡ by_kind c.kind Individuals Ranges Deviations }
{
    match c.kind {
        INDIVIDUALS => Kind::Individuals,
        X_BAR_R => Kind::Ranges,
        _ => Kind::Deviations,
    }
}
