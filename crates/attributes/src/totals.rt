// Totals of counts.
ghost use Rattle.std.specs.Prelude.{◌≡◌, ◌≤◌, length};
ghost use Rattle.attributes.specs.Kinds.{total_of};
ghost use Rattle.attributes.specs.Steps.{Small};

// The total of counts that are few and small enough for it to fit.
pub fn total(counts: &[u64]) -> u64
    requires { (length counts.now ≤ 4096) × Small counts.now }
    ensures { result ≡ total_of counts.now }
{
    counts.iter().sum()
}
