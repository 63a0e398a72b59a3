// The nine run tests by name, and the rule set: which of them are applied.
#![tactic(auto)]

ghost use Rattle.std.specs.Prelude.{◌≡◌, ◌^◌, ◌<◌, ◌≤◌, MatchResult};
ghost use Rattle.sets.specs.declared.Refusal.TheVariants.{TooLarge};
ghost use Rattle.sets.specs.Sets.{bit_of, test_at};
ghost use Rattle.sets.specs.Calls.{number, chosen, contained, counted, with_test, without_test, has_test, how_many, set_named};

use numbers::Numbered;

/// A run test, in the order of 01's table.
#[derive(Clone, Copy, Debug, PartialEq, Eq)]
pub enum Test {
    BeyondLimits,
    NineOneSide,
    SixTrend,
    FourteenAlternating,
    TwoOfThreeBeyond2Sigma,
    FourOfFiveBeyond1Sigma,
    FifteenWithin1Sigma,
    EightBeyond1Sigma,
    EightOneSide,
}

/// A rule set. Bit b of the mask is set where the set has the test of bit b. A mask over 511 is that of no set, and the calls
/// refuse it (4).
#[derive(Clone, Copy, Debug, PartialEq, Eq)]
pub struct RuleSet {
    pub mask: u16,
}

/// Why a call is refused. The number is that of document 01, "Numbers a call may give back".
#[derive(Clone, Copy, Debug, PartialEq, Eq)]
pub enum Refusal {
    /// The mask is over 511 (4).
    TooLarge,
    /// No set has that name (13).
    Unknown,
}

// The tests in the order of 01's table.
const TESTS: [Test; 9] = [
    Test::BeyondLimits,
    Test::NineOneSide,
    Test::SixTrend,
    Test::FourteenAlternating,
    Test::TwoOfThreeBeyond2Sigma,
    Test::FourOfFiveBeyond1Sigma,
    Test::FifteenWithin1Sigma,
    Test::EightBeyond1Sigma,
    Test::EightOneSide,
];

impl Test {
    /// The bit number of this test: its place in 01's table.
    ///
    /// `Test::EightOneSide.bit()` is 8.
    #[tactic(auto, unfolding(crate::specs::Sets::bit_of))]
    pub fn bit(self) -> u64
        ensures { result ≡ bit_of self }
    {
        // 01's table row by row, and no cast: so a changed row fails to prove.
        match self {
            Test::BeyondLimits => 0,
            Test::NineOneSide => 1,
            Test::SixTrend => 2,
            Test::FourteenAlternating => 3,
            Test::TwoOfThreeBeyond2Sigma => 4,
            Test::FourOfFiveBeyond1Sigma => 5,
            Test::FifteenWithin1Sigma => 6,
            Test::EightBeyond1Sigma => 7,
            Test::EightOneSide => 8,
        }
    }

    /// The test of a bit number.
    ///
    /// Gives `Some` with it, or `None` for a number over 8.
    ///
    /// `Test::from_bit(8)` is `Some(Test::EightOneSide)`; `Test::from_bit(9)` is `None`.
    pub fn from_bit(bit: u64) -> Option<Test>
        ensures { result ≡ test_at bit }
    {
        TESTS.get(bit as usize).copied()
    }
}

impl Numbered for Refusal {
    ghost number = { number };

    /// 01's number of the refusal.
    ///
    /// `Refusal::Unknown.number()` is 13.
    fn number(&self) -> u8 {
        match self {
            Refusal::TooLarge => 4,
            Refusal::Unknown => 13,
        }
    }
}

// The mask of the set that has this test only.
fn mask_of(t: Test) -> u16
    ensures { result ≡ 2 ^ bit_of t }
{
    1 << t.bit()
}

impl RuleSet {
    /// The mask of `shewhart()`.
    pub const SHEWHART: u16 = 1;
    /// The mask of `nelson()`.
    pub const NELSON: u16 = 255;
    /// The mask of `western_electric()`.
    pub const WESTERN_ELECTRIC: u16 = 305;
    /// The mask of `none()`.
    pub const NONE: u16 = 0;
    /// The mask of the set with all nine tests, the largest of a set.
    pub const ALL: u16 = 511;

    /// The test beyond limits alone: Shewhart's criterion.
    ///
    /// `RuleSet::shewhart().mask` is 1.
    pub fn shewhart() -> RuleSet
        ensures { result.mask ≡ 1 }
    {
        RuleSet {
            mask: Self::SHEWHART,
        }
    }

    /// Nelson's eight tests (1984): all but eight on one side.
    ///
    /// `RuleSet::nelson().mask` is 255.
    pub fn nelson() -> RuleSet
        ensures { result.mask ≡ 255 }
    {
        RuleSet { mask: Self::NELSON }
    }

    /// The four tests of the Western Electric handbook (1956): beyond limits, two of three beyond 2 sigma,
    /// four of five beyond 1 sigma, and eight on one side.
    ///
    /// `RuleSet::western_electric().mask` is 305.
    pub fn western_electric() -> RuleSet
        ensures { result.mask ≡ 305 }
    {
        RuleSet {
            mask: Self::WESTERN_ELECTRIC,
        }
    }

    /// The set with no test: limits only, or a base to add to.
    ///
    /// `RuleSet::none().mask` is 0.
    pub fn none() -> RuleSet
        ensures { result.mask ≡ 0 }
    {
        RuleSet { mask: Self::NONE }
    }

    /// The set that a name stands for: `shewhart`, `nelson` or `western_electric`, spelt exactly so.
    ///
    /// Gives `Ok` with that set. Refuses every other name, the empty one too (13, `Unknown`).
    ///
    /// `RuleSet::named(b"nelson")` is `Ok(RuleSet::nelson())`; `RuleSet::named(b"Nelson")` is
    /// `Err(Refusal::Unknown)`.
    pub fn named(name: &[u8]) -> Result<RuleSet, Refusal>
        ensures { chosen result ≡ set_named name.now }
    {
        if name == b"shewhart".as_slice() {
            return Ok(Self::shewhart());
        }
        if name == b"nelson".as_slice() {
            return Ok(Self::nelson());
        }
        if name == b"western_electric".as_slice() {
            return Ok(Self::western_electric());
        }
        Err(Refusal::Unknown)
    }

    // The mask, if it is that of a set.
    fn checked(self) -> Result<u16, Refusal>
        ensures { MatchResult result (λ mask. (mask ≡ self.mask) × (mask ≤ 511)) (λ why. (why ≡ TooLarge) × (511 < self.mask)) }
    {
        if Self::ALL < self.mask {
            return Err(Refusal::TooLarge);
        }
        Ok(self.mask)
    }

    /// This set with the test `t` added. A set that has it already stays as it is.
    ///
    /// Gives `Ok` with the new set. Refuses a mask over 511 (4, `TooLarge`).
    ///
    /// `RuleSet::none().with(Test::SixTrend)` is `Ok(RuleSet { mask: 4 })`.
    pub fn with(self, t: Test) -> Result<RuleSet, Refusal>
        ensures { chosen result ≡ with_test self.mask t }
    {
        let mask = self.checked()?;
        Ok(RuleSet {
            mask: mask | mask_of(t),
        })
    }

    /// This set with the test `t` removed. A set that does not have it stays as it is.
    ///
    /// Gives `Ok` with the new set. Refuses a mask over 511 (4, `TooLarge`).
    ///
    /// `RuleSet::nelson().without(Test::SixTrend)` is `Ok(RuleSet { mask: 251 })`.
    pub fn without(self, t: Test) -> Result<RuleSet, Refusal>
        ensures { chosen result ≡ without_test self.mask t }
    {
        let mask = self.checked()?;
        Ok(RuleSet {
            mask: mask & !mask_of(t),
        })
    }

    /// Whether this set has the test `t`.
    ///
    /// Gives `Ok` with yes or no. Refuses a mask over 511 (4, `TooLarge`).
    ///
    /// `RuleSet::nelson().contains(Test::EightOneSide)` is `Ok(false)`.
    pub fn contains(self, t: Test) -> Result<bool, Refusal>
        ensures { contained result ≡ has_test self.mask t }
    {
        let mask = self.checked()?;
        Ok(mask & mask_of(t) != 0)
    }

    /// How many tests this set has.
    ///
    /// Gives `Ok` with their number. Refuses a mask over 511 (4, `TooLarge`).
    ///
    /// `RuleSet::western_electric().len()` is `Ok(4)`.
    pub fn len(self) -> Result<u32, Refusal>
        ensures { counted result ≡ how_many self.mask }
    {
        Ok(self.checked()?.count_ones())
    }
}
