// Reading a flow file from bytes of any origin, number by number.
ghost use Rattle.std.specs.Prelude.{◌≡◌, ◌≤◌, ◌*◌, length};
ghost use Rattle.reports.specs.declared.flow.TheConstants.{MOST_VALUES};
ghost use Rattle.reports.specs.declared.flow.Refusal.TheVariants.{Form};
ghost use Rattle.reports.specs.Flow.{values_from, head_from, flow_of, count_wrong};
ghost use Rattle.reports.specs.Steps.{number, size, Legal, after_head, LegalHead, said_by, said_flow, LegalFlow};

use charts::Chart;
use groups::{Fault, Read, read_number};
use numbers::Numbered;
use rules::MOST;
use sets::RuleSet;

// "count 5 if over 4,096 or count times size is over 2,048" (01): no flow file has more values, and no chart of one more points.
pub const MOST_VALUES: usize = 2048;
// "over 24,576 bytes 12" (01): no flow file is longer.
const MOST_BYTES: usize = 24_576;

// Why some bytes are no flow file. The number is that of document 01.
#[derive(Clone, Copy)]
pub enum Refusal {
    // The size is not allowed for the kind (1).
    Size,
    // The set is over 511 (4).
    Set,
    // There are too many samples or values (5).
    Count,
    // A number's form, the kind, or the number of bytes (12).
    Form,
}

impl Numbered for Refusal {
    ghost number = { number };

    fn number(&self) -> u8 {
        match self {
            Refusal::Size => 1,
            Refusal::Set => 4,
            Refusal::Count => 5,
            Refusal::Form => 12,
        }
    }
}

impl From<Fault> for Refusal {
    ghost from_gives = { λ _ r. r ≡ Form };

    fn from(_: Fault) -> Refusal {
        Refusal::Form
    }
}

fn count_wrong(size: u64, count: u64) -> bool
    requires { size ≤ 25 }
    ensures { result ≡ count_wrong size count }
{
    (MOST as u64) < count || (MOST_VALUES as u64) < count * size
}

// The head of a flow file: the chart, and the place past it.
fn read_head(s: &[u8]) -> Result<Read<Chart>, Refusal>
    ensures said { head_from s.now 0 ≡ after_head s.now result }
    ensures legal { LegalHead result }
{
    let kind = read_number(s, 0)?;
    if Chart::kind_wrong(kind.value) {
        return Err(Refusal::Form);
    }
    let size = read_number(s, kind.next)?;
    let Ok(chart) = Chart::new(kind.value, size.value as usize) else {
        return Err(Refusal::Size);
    };
    let set = read_number(s, size.next)?;
    if set.value > RuleSet::ALL as u64 {
        return Err(Refusal::Set);
    }
    let count = read_number(s, set.next)?;
    if count_wrong(size.value, count.value) {
        return Err(Refusal::Count);
    }
    Ok(Read {
        value: Chart {
            set: RuleSet {
                mask: set.value as u16,
            },
            count: count.value as usize,
            ..chart
        },
        next: count.next,
    })
}

// Reads the chart's values from a place on into a room that they fill, and then the end.
fn read_values(s: &[u8], from: usize, chart: Chart, values: &mut [f64]) -> Result<(), Refusal>
    requires { length values.old ≡ size chart }
    ensures { values_from s.now chart (size chart) from ≡ said_by chart values.new result }
{
    let mut at = from;
    for value in values.iter_mut() {
        let read = read_number(s, at)?;
        *value = floats::of_bits(read.value);
        at = read.next;
    }
    if at < s.len() {
        return Err(Refusal::Form);
    }
    Ok(())
}

// Reads a flow file. The values stand at the front of the room afterwards; where the file is refused, the room holds what
// was read so far.
#[tactic(auto, unfolding(crate::specs::Flow::flow_of))]
pub fn read_flow(s: &[u8], values: &mut [f64]) -> Result<Chart, Refusal>
    requires { MOST_VALUES ≤ length values.old }
    ensures said { flow_of s.now ≡ said_flow values.new result }
    ensures legal { LegalFlow result }
{
    if MOST_BYTES < s.len() {
        return Err(Refusal::Form);
    }
    let head = read_head(s)?;
    let chart = head.value;
    let n = chart.count * chart.size;
    read_values(s, head.next, chart, &mut values[..n])?;
    Ok(chart)
}
