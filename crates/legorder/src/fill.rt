// Filling the two columns with the places of legs.
ghost use Rattle.std.specs.Prelude.{◌≡◌, ◌+◌, ◌<◌, ◌≤◌, length};
ghost use Rattle.base.specs.Lists.{up_to, splice};
ghost use Rattle.road.specs.Table.{most_places, leg_count};

use road::Road;

// The legs to v, one from each earlier place, behind those to the earlier places.
pub(crate) fn legs_to(v: usize, firsts: &mut [u16], seconds: &mut [u16])
    requires { (v < most_places) × ((leg_count v + v ≤ length firsts.old) × (leg_count v + v ≤ length seconds.old)) }
    ensures { (firsts.new ≡ splice (leg_count v) (up_to v (λ u. u)) firsts.old) × (seconds.new ≡ splice (leg_count v) (up_to v (λ u. v)) seconds.old) }
{
    let from = Road::legs(v);
    for u in 0..v {
        firsts[from + u] = u as u16;
        seconds[from + u] = v as u16;
    }
}
