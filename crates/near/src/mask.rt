// A set of places as a word: bit p is set where place p belongs to it.
ghost use Rattle.std.specs.Prelude.{◌≡◌};
ghost use Rattle.road.specs.Table.{most_places};
ghost use Rattle.workfunction.specs.Movement.{contains};
ghost use Rattle.near.specs.Mask.{mask_of, InTable};

// The places of a list.
pub(crate) fn of_places(places: &[u16]) -> u64
    requires { InTable places.now }
    ensures { result ≡ mask_of most_places (λ p. contains p places.now) }
{
    let mut mask: u64 = 0;
    for place in places {
        mask |= 1u64 << *place;
    }
    mask
}
