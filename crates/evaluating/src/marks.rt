// Marking a series, and counting its marks.
ghost use Rattle.std.specs.Prelude.{◌≡◌, ◌≤◌, length};
ghost use Rattle.laws.specs.Front.{at_front};
ghost use Rattle.rules.specs.Terms.{told};
ghost use Rattle.rules.specs.Marking.{most, marks_of, answer_of};
ghost use Rattle.evaluating.specs.Evaluating.{number_of};
ghost use Rattle.evaluating.specs.Steps.{ones_in};

use rules::Terms;
use sets::RuleSet;

// How many bits are set in all.
fn count(marks: &[u16]) -> usize
    requires { length marks.now ≤ most }
    ensures { result ≡ ones_in marks.now }
{
    marks.iter().map(|m| m.count_ones() as usize).sum()
}

// Marks the points of a series that marking does not refuse, and gives the number of marks.
pub fn mark(points: &[f64], terms: Terms, set: RuleSet, marks: &mut [u16]) -> usize
    requires { answer_of (told terms) set.mask points.now (length marks.old) ≡ 0 }
    ensures number { result ≡ number_of (marks_of (told terms.entry) set.mask points.now) }
    ensures few { result ≤ 65536 }
    ensures marks { marks.new ≡ at_front (marks_of (told terms.entry) set.mask points.now) marks.old }
{
    let n = points.len();
    let _ = rules::mark(points, terms, set, marks);
    count(&marks[..n])
}
