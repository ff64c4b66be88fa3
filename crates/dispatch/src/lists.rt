// Lists of followers or of weights.
ghost use Rattle.std.specs.Prelude.{◌≡◌, ◌≤◌, length, get_or};
ghost use Rattle.base.specs.Lists.{padded};
ghost use Rattle.dispatch.specs.Legs.{plan_room};

use crate::legs;

// The list whose entries below a count are those of another one, and `rest` from there on.
pub(crate) fn copy<T: Copy>(count: usize, from: &[T], rest: T) -> [T; legs::ROOM]
    requires { (count ≤ plan_room) × (count ≤ length from.now) }
    ensures { result ≡ padded plan_room count (λ i. get_or from.now i rest) rest }
{
    let mut list = [rest; legs::ROOM];
    list[..count].copy_from_slice(&from[..count]);
    list
}
