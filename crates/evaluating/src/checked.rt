// The evaluation of a chart that no test ahead of the arithmetic refused.
ghost use Rattle.std.specs.Prelude.{◌≡◌, ◌+◌, false, length};
ghost use Rattle.laws.specs.Refusals.{first_of};
ghost use Rattle.laws.specs.Front.{at_front, lent_after};
ghost use Rattle.rules.specs.Lines.{width_wrong};
ghost use Rattle.rules.specs.Terms.{under};
ghost use Rattle.rules.specs.Marking.{marks_of, answer_of};
ghost use Rattle.floats.specs.Values.{plus_zero};
ghost use Rattle.evaluating.specs.Asked.{asked, interrupted, in_mode};
ghost use Rattle.evaluating.specs.Series.{series_of};
ghost use Rattle.evaluating.specs.Evaluating.{evaluated, positions_wrong, no_room, series_marks, number_of, evaluate_of};
ghost use Rattle.evaluating.specs.Steps.{ahead};

use super::right::Held;
use super::{Evaluation, marks, series};
use charts::{Chart, INDIVIDUALS, Refusal};
use rules::Terms;

// Evaluates a chart that passed the tests ahead of the arithmetic. What it is lent and asked is as in the public `evaluate`.
pub fn evaluate(
    c: Chart,
    values: &[f64],
    positions: &[usize],
    width: u64,
    main: &mut [f64],
    dispersion: &mut [f64],
    main_marks: &mut [u16],
    dispersion_marks: &mut [u16],
) -> Result<Evaluation, Refusal>
    requires { first_of (ahead (asked c values.now) (positions_wrong c positions.now) (width_wrong width)
        (no_room c (length main.old) (length dispersion.old) (length main_marks.old) (length dispersion_marks.old))) 0 ≡ 0 }
    ensures answer { evaluated result ≡ evaluate_of (in_mode (interrupted (asked c values.now) positions.now) width)
        (no_room c (length main.old) (length dispersion.old)
        (length main_marks.old) (length dispersion_marks.old)) }
    ensures main { main.new
        ≡ lent_after (evaluated result).number plus_zero (series_of (asked c values.now) 0) main.old }
    ensures dispersion { dispersion.new
        ≡ lent_after (evaluated result).number plus_zero (series_of (asked c values.now) 1) dispersion.old }
    ensures main_marks { main_marks.new
        ≡ lent_after (evaluated result).number 0 (series_marks (in_mode (interrupted (asked c values.now) positions.now) width) 0) main_marks.old }
    ensures dispersion_marks { dispersion_marks.new
        ≡ lent_after (evaluated result).number 0 (series_marks (in_mode (interrupted (asked c values.now) positions.now) width) 1) dispersion_marks.old }
{
    let points = series::lengths_in(c);
    let held = Held { chart: c, values };
    match held.measure(main, dispersion) {
        Err(why) => {
            super::clear(main, dispersion, main_marks, dispersion_marks);
            Err(why)
        }
        Ok(w) => {
            let of_main = Terms {
                limits: w.main,
                width,
                stops: &positions[..c.stops],
                moving: false,
            };
            let of_dispersion = Terms {
                limits: w.dispersion,
                moving: c.kind == INDIVIDUALS,
                ..of_main
            };
            let marks = marks::mark(&main[..points.main], of_main, c.set, main_marks);
            let others = marks::mark(
                &dispersion[..points.dispersion],
                of_dispersion,
                c.set,
                dispersion_marks,
            );
            Ok(Evaluation {
                main: w.main,
                dispersion: w.dispersion,
                marks: marks + others,
            })
        }
    }
}
