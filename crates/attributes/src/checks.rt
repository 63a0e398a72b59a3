// What the calls test ahead of their work.
ghost use Rattle.std.specs.Prelude.{◌≡◌};
ghost use Rattle.laws.specs.Refusals.{first_of};
ghost use Rattle.attributes.specs.Records.{record_wrong};
ghost use Rattle.attributes.specs.Steps.{tested, adding, ahead};

use super::Refusal;

// The largest count that is taken: the total of 4,096 is then exact as an f64.
pub const MOST: u64 = u32::MAX as u64;

// The most samples that a chart holds.
const ROOM: usize = 4096;

// Whether the record is no chart, by whether its centre is not allowed, its count, and the lengths of its slices.
pub fn record_wrong(centre: bool, count: usize, counts: usize, sizes: usize) -> bool
    ensures { result ≡ record_wrong centre count counts sizes }
{
    centre | (ROOM < count) | (counts < count) | (sizes < count)
}

// What was found and the lengths come apart, as the definitions take them (`adding`, `ahead`): methods of the chart would
// ask for the kind, of which these say nothing.

// 14, what the sample's own tests found, 5 and 6.
pub fn adding(
    wrong: bool,
    sample: Result<(), Refusal>,
    count: usize,
    counts: usize,
    sizes: usize,
) -> Result<(), Refusal>
    ensures { tested result ≡ first_of (adding wrong sample count counts sizes) 0 }
{
    if wrong {
        return Err(Refusal::Record);
    }
    sample?;
    if ROOM <= count {
        return Err(Refusal::Full);
    }
    if (counts <= count) | (sizes <= count) {
        return Err(Refusal::TooShort);
    }
    Ok(())
}

// 14, 8 and 6.
pub fn check(wrong: bool, count: usize, short: bool) -> Result<(), Refusal>
    ensures { tested result ≡ first_of (ahead wrong count short) 0 }
{
    if wrong {
        return Err(Refusal::Record);
    }
    if count == 0 {
        return Err(Refusal::TooFew);
    }
    if short {
        return Err(Refusal::TooShort);
    }
    Ok(())
}
