// The engine of marking. Every value gets a code: two bits for each test, one for each way in which the value can count towards
// it. The marks of a position are ands and ors of the fifteen codes that end there, so all tests are read off at once, and
// neither making nor reading codes branches on a value: several values go through each instruction.
//
// - `put` puts the bits of a family (a pair of lines, or the steps) into the codes of all values, sixteen at a time, and does
//   nothing for a family that the set has no test of; `families` goes through all six.
// - `standing` reads the tests off fifteen codes. What stands before the first value is free: `fit` takes from the first
//   fourteen marks the tests whose window does not fit there.
// - `block` marks up to some 500 positions in a room of codes that is clear, by their values and the fourteen before them; `fill`
//   gives short series one block with a small room, and a set of the first test alone a loop without codes.
ghost use Rattle.std.specs.Prelude.{◌≡◌, true, [], ◌∷◌, ℕ, Float, ◌+◌, ◌-◌, ◌≤◌, ◌<◌, length, get_or};
ghost use Rattle.std.specs.Int.Bits.{bit_and};
ghost use Rattle.std.specs.Float.{nan};
ghost use Rattle.laws.specs.Bits.{from_bits};
ghost use Rattle.laws.specs.Lists.{tabulate};
ghost use Rattle.laws.specs.Front.{at_front};
ghost use Rattle.stops.specs.Cuts.{unbroken};
ghost use Rattle.rules.specs.Marking.{marks_at, marks_by};
ghost use Rattle.rules.specs.Codes.{picked, zone_code, inside_code, step_code, family_at, Coded, Added, Clear, CodesOf, packed_bits, read_codes, last_of, marks_read, fits_at};

use super::Lines;

// The tests of each family.
const LIMITS: u16 = 0b0_0000_0001;

const CENTRE: u16 = 0b1_0000_0010;

const STEPS: u16 = 0b0_0000_1100;

const TWO_SIGMA: u16 = 0b0_0001_0000;

const ONE_SIGMA: u16 = 0b0_1010_0000;

const INSIDE: u16 = 0b0_0100_0000;

// The tests that a run of at most nine codes shows.
const RUNS: u16 = 0b1_1000_0111;

fn pick(b: bool, k: u16) -> u16
    ensures { result ≡ picked b k }
{
    if b {
        return k;
    }
    0
}

// What the tests of a family tell of the value v, which comes after u.
trait Family: Copy {
    ghost code: { Self → Float → Float → ℕ };

    fn code(self, u: f64, v: f64) -> u16
        ensures { result ≡ code self u v };
}

// How a value lies outside two lines.
#[derive(Clone, Copy)]
struct Zone {
    high: f64,
    low: f64,
    up: u16,
    down: u16,
}

// Whether it lies outside neither.
#[derive(Clone, Copy)]
struct Inside {
    high: f64,
    low: f64,
}

// How it lies to the one before it.
#[derive(Clone, Copy)]
struct Step;

impl Family for Zone {
    ghost code = { λ zone u v. zone_code zone.high zone.low zone.up zone.down v };

    #[tactic(auto, unfolding(crate::specs::Codes::zone_code))]
    fn code(self, _u: f64, v: f64) -> u16 {
        pick(self.high < v, self.up) | pick(v < self.low, self.down)
    }
}

impl Family for Inside {
    ghost code = { λ inside u v. inside_code inside.high inside.low v };

    #[tactic(auto, unfolding(crate::specs::Codes::inside_code))]
    fn code(self, _u: f64, v: f64) -> u16 {
        pick((self.low <= v) & (v <= self.high), 0x0040)
    }
}

impl Family for Step {
    ghost code = { λ step u v. step_code u v };

    #[tactic(auto, unfolding(crate::specs::Codes::step_code))]
    fn code(self, u: f64, v: f64) -> u16 {
        pick(u < v, 0x000c) | pick(v < u, 0x0c00)
    }
}

// What a family tells of sixteen values; `first` comes before the first. The codes go into an array of their own, and not into a
// slice: then nothing that is written can be one of the values, and LLVM compares and packs eight of them at a time.
fn codes_of<F: Family>(family: F, first: f64, v: &[f64]) -> [u16; 16]
    requires { length v.now ≡ 16 }
    ensures { Coded (family_at (F.code family) true first v.now) 16 result }
{
    let mut k = [0u16; 16];
    let mut u = first;
    for j in 0..16 {
        let x = v[j];
        k[j] = k[j] | family.code(u, x);
        u = x;
    }
    k
}

// Puts sixteen codes into those at the front of `c`.
fn join(k: &[u16; 16], c: &mut [u16])
    requires { 16 ≤ length c.old }
    ensures { Added (λ j. get_or k.now j 0) 16 c.old c.new }
{
    for j in 0..16 {
        c[j] = c[j] | k[j];
    }
}

// Where the next of the sixteens into which n values are cut ends, behind i of them. The last sixteen end with the values, so they
// may begin before i: to put a bit into a code twice is to put it in once.
fn next(i: usize, n: usize) -> usize
    requires { (i < n) × (16 ≤ n) }
    ensures { (i < result) × (result ≤ n) × (16 ≤ result) × (result ≤ i + 16) }
{
    if n - i < 16 {
        return n;
    }
    i + 16
}

// The value before that at i; the first value comes after itself, so that it neither rises nor falls.
fn before(values: &[f64], i: usize) -> f64
    requires { i < length values.now }
    ensures { result ≡ get_or (get_or values.now 0 nan ∷ values.now) i nan }
{
    if i == 0 {
        return values[0];
    }
    values[i - 1]
}

// What a family tells of all values, put into their codes where a test asks for it: the contract says both, so that six calls make
// six equations. It goes by sixteens, of which the last may begin
// before the one ahead of it ends: no iterator of the library does.
fn put<F: Family>(need: bool, family: F, values: &[f64], c: &mut [u16])
    requires { (16 ≤ length values.now) × (length values.now ≤ length c.old) }
    ensures { Added (family_at (F.code family) need (get_or values.now 0 nan) values.now) (length values.now) c.old c.new }
{
    if !need {
        return;
    }
    let n = values.len();
    let mut i = 0;
    while i < n {
        let e = next(i, n);
        let s = e - 16;
        join(
            &codes_of(family, before(values, s), &values[s..e]),
            &mut c[s..],
        );
        i = e;
    }
}

// The family of two lines, so that four of them stand in four lines.
fn outside(high: f64, low: f64, up: u16, down: u16) -> Zone
    ensures { result ≡ record { high = high; low = low; up = up; down = down } }
{
    Zone {
        high,
        low,
        up,
        down,
    }
}

// Up to sixteen values at the front of sixteen.
fn pad(values: &[f64], v: &mut [f64; 16])
    requires { (length values.now ≤ 16) × (length v.old ≡ 16) }
    ensures values { v.new ≡ at_front values.now v.old }
    ensures sixteen { length v.new ≡ 16 }
{
    v[..values.len()].copy_from_slice(values);
}

// The tests by their bits: of two signals, one and the one eight places above. Eight numbers, as the definition has them.
fn pack(
    c0: u16,
    all5: u16,
    all8: u16,
    all9: u16,
    all15: u16,
    turns: u16,
    two: u16,
    four: u16,
) -> u16
    ensures { result ≡ from_bits (packed_bits c0 all5 all8 all9 all15 turns two four) }
{
    let pairs = (((all9 & 0x0202) | (all5 & 0x0404)) | (two & 0x1010)) | (four & 0x2020);
    let folded = (pairs | (pairs >> 8)) & 0x0036;
    let sides = (all8 | (all8 >> 6)) & 0x0100;
    (((((c0 & 0x0001) | folded) | (turns & 0x0008)) | (all15 & 0x0040)) | (all8 & 0x0080)) | sides
}

// The tests that stand at a position, by the codes that end there: c0 is that of the position, c1 that of the one
// before it, and so on. Fifteen parameters and no array: the proof has each code by its name.
fn standing(
    c0: u16,
    c1: u16,
    c2: u16,
    c3: u16,
    c4: u16,
    c5: u16,
    c6: u16,
    c7: u16,
    c8: u16,
    c9: u16,
    c10: u16,
    c11: u16,
    c12: u16,
    c13: u16,
    c14: u16,
) -> u16
    ensures { result ≡ from_bits (read_codes (c0 ∷ c1 ∷ c2 ∷ c3 ∷ c4 ∷ c5 ∷ c6 ∷ c7 ∷ c8 ∷ c9 ∷ c10 ∷ c11 ∷ c12 ∷ c13 ∷ c14 ∷ [])) }
{
    let all5 = c0 & c1 & c2 & c3 & c4;
    let all8 = all5 & c5 & c6 & c7;
    let all9 = all8 & c8;
    let all15 = all9 & c9 & c10 & c11 & c12 & c13 & c14;
    let even = c0 & c2 & c4 & c6 & c8 & c10 & c12;
    let odd = c1 & c3 & c5 & c7 & c9 & c11;
    let turns = (even & (odd >> 8)) | ((even >> 8) & odd);
    let two = (c0 & c1) | (c2 & (c0 | c1));
    let four = (c0 & c1 & c2 & c3) | (c4 & ((c0 & c1 & (c2 | c3)) | ((c0 | c1) & c2 & c3)));
    pack(c0, all5, all8, all9, all15, turns, two, four)
}

// The tests that stand at a position, by the fifteen codes from i on.
fn standing_at(c: &[u16], i: usize) -> u16
    requires { i + 14 < length c.now }
    ensures { result ≡ from_bits (read_codes (last_of c.now i 15)) }
{
    standing(
        c[i + 14],
        c[i + 13],
        c[i + 12],
        c[i + 11],
        c[i + 10],
        c[i + 9],
        c[i + 8],
        c[i + 7],
        c[i + 6],
        c[i + 5],
        c[i + 4],
        c[i + 3],
        c[i + 2],
        c[i + 1],
        c[i],
    )
}

// The marks of m positions, read off the fifteen codes that end at each, wherever their windows reach. The room may be longer than
// the marks, so their number comes beside it, and the contract says that what follows is untouched. What is kept of the set is a
// constant, so that LLVM leaves out what only the other tests are for.
fn read<const KEPT: u16>(set: u16, c: &[u16], m: usize, out: &mut [u16])
    requires { (m + 14 ≤ length c.now) × (m ≤ length out.old) }
    ensures { out.new ≡ at_front (tabulate (marks_read (bit_and set KEPT) c.now) m) out.old }
{
    for i in 0..m {
        out[i] = (set & KEPT) & standing_at(c, i);
    }
}

// The marks of m positions, with no more worked out than the set has need of.
fn read_marks(set: u16, c: &[u16], m: usize, out: &mut [u16])
    requires { (m + 14 ≤ length c.now) × (m ≤ length out.old) }
    ensures { out.new ≡ at_front (tabulate (marks_read set c.now) m) out.old }
{
    if set & RUNS == set {
        read::<RUNS>(set, c, m, out);
    } else if set & INSIDE == set {
        read::<INSIDE>(set, c, m, out);
    } else if set & STEPS == set {
        read::<STEPS>(set, c, m, out);
    } else {
        read::<{ u16::MAX }>(set, c, m, out);
    }
}

// The tests whose window fits at each of the first fourteen positions.
const FITS: [u16; 14] = [
    0b0_0000_0001,
    0b0_0000_0001,
    0b0_0001_0001,
    0b0_0001_0001,
    0b0_0011_0001,
    0b0_0011_0101,
    0b0_0011_0101,
    0b1_1011_0101,
    0b1_1011_0111,
    0b1_1011_0111,
    0b1_1011_0111,
    0b1_1011_0111,
    0b1_1011_0111,
    0b1_1011_1111,
];

// Takes from k marks, the first of which is at position `from`, the tests whose window does not fit.
pub fn fit(from: usize, k: usize, out: &mut [u16])
    requires { (from + k ≤ 14) × (k ≤ length out.old) }
    ensures { out.new ≡ at_front (tabulate (λ i. bit_and (get_or out.old i 0) (fits_at (from + i))) k) out.old }
{
    let fits = FITS;
    for i in 0..k {
        out[i] = out[i] & fits[from + i];
    }
}

// What values are marked by.
#[derive(Clone, Copy)]
pub struct Marker {
    pub lines: Lines,
    pub set: u16,
}

impl Marker {
    // What all families put into codes that are clear.
    fn families(self, values: &[f64], c: &mut [u16])
        requires { (16 ≤ length values.now) × (length values.now ≤ length c.old) × Clear c.old }
        ensures { CodesOf self.set self.lines values.now c.new }
    {
        let limits = outside(self.lines.ucl, self.lines.lcl, 0x0001, 0x0001);
        let centre = outside(self.lines.cl, self.lines.cl, 0x0102, 0x4200);
        let two_sigma = outside(self.lines.above2, self.lines.below2, 0x0010, 0x1000);
        let one_sigma = outside(self.lines.above1, self.lines.below1, 0x00a0, 0x2080);
        let inside = Inside {
            high: self.lines.above1,
            low: self.lines.below1,
        };
        put(self.set & LIMITS != 0, limits, values, c);
        put(self.set & CENTRE != 0, centre, values, c);
        put(self.set & TWO_SIGMA != 0, two_sigma, values, c);
        put(self.set & ONE_SIGMA != 0, one_sigma, values, c);
        put(self.set & INSIDE != 0, inside, values, c);
        put(self.set & STEPS != 0, Step, values, c);
    }

    // The codes of every value, from the front of `c` on, which is clear. Fewer than sixteen are padded.
    fn codes(self, values: &[f64], c: &mut [u16])
        requires { (16 ≤ length c.old) × (length values.now ≤ length c.old) × Clear c.old }
        ensures { CodesOf self.set self.lines values.now c.new }
    {
        if values.len() < 16 {
            let mut v = [0.0f64; 16];
            pad(values, &mut v);
            self.families(&v[0..16], c);
            return;
        }
        self.families(values, c);
    }

    // The marks of a block, before which come the first p of the values, at most fourteen; `c` is room for codes, which is clear.
    fn block(self, values: &[f64], p: usize, c: &mut [u16], out: &mut [u16])
        requires { (p ≤ 14) × (p ≤ length values.now) × (length values.now + 14 ≤ length c.old + p) × (length values.now ≤ length out.old + p) × (30 ≤ length c.old) × Clear c.old }
        ensures { out.new ≡ at_front (tabulate (λ i. marks_at unbroken self.lines self.set values.now (p + i)) (length values.now - p)) out.old }
    {
        let free = 14 - p;
        let m = values.len() - p;
        self.codes(values, &mut c[free..]);
        read_marks(self.set, c, m, out);
        fit(p, free.min(m), out);
    }

    // The marks of every position of few values: one block, so that little room has to be cleared.
    fn mark_few(self, values: &[f64], out: &mut [u16])
        requires { (length values.now ≤ 50) × (length values.now ≤ length out.old) }
        ensures { out.new ≡ at_front (marks_by unbroken self.lines self.set values.now) out.old }
    {
        let mut c = [0u16; 64];
        self.block(values, 0, &mut c, out);
    }

    // The same for many, block by block: a block and its codes stay in the nearest cache. No iterator of the library gives each block
    // with the fourteen values before it.
    fn mark_many(self, values: &[f64], out: &mut [u16])
        requires { length values.now ≤ length out.old }
        ensures { out.new ≡ at_front (marks_by unbroken self.lines self.set values.now) out.old }
    {
        let n = values.len();
        let mut at = 0;
        while at < n {
            let p = at.min(14);
            let start = at - p;
            let end = at + (n - at).min(498);
            let mut c = [0u16; 512];
            self.block(&values[start..end], p, &mut c, &mut out[at..]);
            at = end;
        }
    }

    // The same for a set that has no test but the first, whose windows are single values: no codes are needed. The cast of a yes
    // or no is what the law of the first test speaks of.
    fn mark_beyond(self, values: &[f64], out: &mut [u16])
        requires { (self.set < 2) × (length values.now ≤ length out.old) }
        ensures { out.new ≡ at_front (marks_by unbroken self.lines self.set values.now) out.old }
    {
        for i in 0..values.len() {
            let v = values[i];
            out[i] = self.set & (((self.lines.ucl < v) | (v < self.lines.lcl)) as u16);
        }
    }

    // The marks of every position at the front of `out`.
    pub fn fill(self, values: &[f64], out: &mut [u16])
        requires { length values.now ≤ length out.old }
        ensures { out.new ≡ at_front (marks_by unbroken self.lines self.set values.now) out.old }
    {
        if self.set < 2 {
            self.mark_beyond(values, out);
            return;
        }
        if values.len() <= 50 {
            self.mark_few(values, out);
            return;
        }
        self.mark_many(values, out);
    }
}
