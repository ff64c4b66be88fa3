// The figures of two tables beside each other.
ghost use Rattle.std.specs.Prelude.{◌≤◌, ◌≡◌, ◌↔◌, IsTrue, EachIndex, slice_index, length};
ghost use Rattle.base.specs.Numbers.{number_of};
ghost use Rattle.rough.specs.Rough.{bounds_refusal};

use base::Refusal;

// Whether no lower figure of a leg exceeds its upper.
fn ordered(lower: &[u32], upper: &[u32]) -> bool
    requires { length lower.now ≡ length upper.now }
    ensures { IsTrue result ↔ EachIndex lower.now (λ i. slice_index lower.now i ≤ slice_index upper.now i) }
{
    lower.iter().zip(upper).all(|(low, high)| low <= high)
}

// 15 if some lower figure exceeds its upper.
pub(crate) fn test(lower: &[u32], upper: &[u32]) -> Result<(), Refusal>
    requires { length lower.now ≡ length upper.now }
    ensures { number_of result ≡ bounds_refusal lower.now upper.now }
{
    if ordered(lower, upper) {
        Ok(())
    } else {
        Err(Refusal::Bounds)
    }
}
