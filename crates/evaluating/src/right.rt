// A chart that is one, by itself and beside its values.
ghost use Rattle.std.specs.Prelude.{◌≡◌, false, length};
ghost use Rattle.charts.specs.Records.{own_wrong, record_wrong};

use charts::Chart;

// A chart whose record is not wrong, by its own numbers.
#[derive(Clone, Copy)]
pub struct Right {
    pub chart: Chart,
    ghost own: { own_wrong chart ≡ false },
}

// A chart whose record is not wrong beside these values.
#[derive(Clone, Copy)]
pub struct Held<'a> {
    pub chart: Chart,
    pub values: &'a [f64],
    ghost held: { record_wrong chart (length values.now) ≡ false },
}
