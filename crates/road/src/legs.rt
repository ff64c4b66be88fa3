// The legs of a lent table: where each stands, and the limit of its metres.
ghost use Rattle.std.specs.Prelude.{◌≡◌, ◌<◌};
ghost use Rattle.base.specs.Numbers.{number_of};
ghost use Rattle.road.specs.Table.{metres_of, entry, legs_refusal};

use crate::Road;
use base::Refusal;

// The metres of the leg from u to the later place v; 0 past the most places, and past the run.
pub(crate) fn metres(table: &[u32], u: usize, v: usize) -> u32
    requires { u < v }
    ensures { result ≡ entry (metres_of table.now) u v }
{
    if Road::PLACES <= v {
        return 0;
    }
    let index = Road::legs(v) + u;
    if table.len() <= index {
        return 0;
    }
    table[index]
}

// 4 unless the metres of every leg are within the limit.
pub(crate) fn test(table: &[u32]) -> Result<(), Refusal>
    ensures { number_of result ≡ legs_refusal table.now }
{
    for metres in table {
        Road::test_metres(*metres)?;
    }
    Ok(())
}
