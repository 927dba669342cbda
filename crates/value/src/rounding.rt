// Division of sizes to the nearest, and nearness to a multiple. Each says of sizes what `rules` says of
// signed numbers.
ghost use Rattle.std.specs.Prelude.{◌≡◌, ◌≤◌, ◌<◌};
ghost use Rattle.rules.specs.Numbers.{near};
ghost use Rattle.value.specs.Guarded.{nearest_size, near_size};

use super::is_below_zero;
use super::signs::{signed, size_of};
use rules::Value;

// n / d to the nearest whole number, halves up; 0 where d is 0.
pub fn rounded(n: u64, d: u64) -> u64
    ensures { result ≡ nearest_size n d }
{
    if d == 0 {
        return 0;
    }
    let whole = n / d;
    let rest = n % d;
    if rest < d - rest { whole } else { whole + 1 }
}

// Whether n is at most 1 from the nearest multiple of step, below it or above it.
fn is_near(n: u64, step: u64) -> bool
    requires { 0 < step }
    ensures { result ≡ near_size n step }
{
    let over = n % step;
    if over <= 1 {
        return true;
    }
    step - over <= 1
}

// The number of steps, of so many ten-thousandths each, that a value counts as.
pub(crate) fn near_steps(step: u64, a: Value) -> Option<i64>
    requires { 1000 ≤ step }
    ensures { result ≡ near step a.0 }
{
    let n = size_of(a.0);
    if is_near(n, step) {
        let steps = signed(is_below_zero(a), rounded(n, step));
        return Some(steps.0);
    }
    None
}
