// What a division of sizes leaves over, and sizes taken down to whole units. Each says of sizes what `rules`
// says of signed numbers.
ghost use Rattle.std.specs.Prelude.{◌≡◌, ◌≤◌, ◌<◌};
ghost use Rattle.rules.specs.Numbers.{residue_size};
ghost use Rattle.arithmetic.specs.Guarded.{down_size};

// What is left by d of a number of that sign and size n, from 0 to below d.
pub(crate) fn left_over(negative: bool, n: u64, d: u64) -> u64
    requires { 0 < d }
    ensures { result ≡ residue_size negative n d }
{
    if negative { (d - n % d) % d } else { n % d }
}

// The size of a value of that sign and size n, taken down to whole units.
pub(crate) fn down_to(negative: bool, n: u64) -> u64
    requires { n ≤ 999999999 }
    ensures { result ≡ down_size negative n }
{
    let past = left_over(negative, n, 10_000);
    if negative { n + past } else { n - past }
}
