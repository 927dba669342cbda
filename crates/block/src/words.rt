// The words of a line, as their values are held.
ghost use Rattle.std.specs.Prelude.{◌≡◌, take};
ghost use Rattle.block.specs.Execution.{all_in_range};

use rules::Value;

// Whether the first `count` values are in range, or all where there are fewer.
pub(crate) fn all_ranged(values: &[i64], count: usize) -> bool
    ensures { result ≡ all_in_range (take count values.now) }
{
    for value in &values[..count.min(values.len())] {
        if !value::in_range(Value(*value)) {
            return false;
        }
    }
    true
}
