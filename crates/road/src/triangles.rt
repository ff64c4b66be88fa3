// The triangle rule of a lent table. Each three places are looked at once, in ascending order: none of the three legs between them is
// longer than the two others together.
ghost use Rattle.std.specs.Prelude.{◌≡◌, ◌+◌, ◌<◌, ◌≤◌, leb, length, get_or};
ghost use Rattle.base.specs.Numbers.{number_of, unless};
ghost use Rattle.base.specs.Tests.{all_below};
ghost use Rattle.road.specs.Table.{most_places, leg_count, metres_of, triangle_refusal};
ghost use Rattle.road.specs.Triangles.{sides_rule, pair_rule, place_rule};

use crate::Road;
use base::Refusal;

// Whether a leg is no longer than two others together. What is left of it past the first is compared with the second, since the sum
// may not fit.
fn no_longer(leg: u32, first: u32, second: u32) -> bool
    ensures { result ≡ leb leg (first + second) }
{
    if leg <= first {
        return true;
    }
    leg - first <= second
}

// Whether none of three legs is longer than the two others together.
fn sides_keep(a: u32, b: u32, c: u32) -> bool
    ensures { result ≡ sides_rule a b c }
{
    no_longer(a, b, c) & no_longer(b, a, c) & no_longer(c, a, b)
}

// Whether the rule holds of two places with each earlier one: `near` has the legs from these to the first of the two, `far` those to
// the second, and `across` is the leg between the two. The loop has no way out before its end, so that it can compile to several
// places at a time.
fn rows_keep(near: &[u32], far: &[u32], across: u32) -> bool
    requires { length near.now ≤ length far.now }
    ensures { result ≡ all_below (length near.now) (λ u. sides_rule (get_or near.now u 0) (get_or far.now u 0) across) }
{
    let mut kept = true;
    for (u, leg) in near.iter().enumerate() {
        kept &= sides_keep(*leg, far[u], across);
    }
    kept
}

// 8 unless the rule holds of v and the later place w with each place before v.
fn test_pair(table: &[u32], v: usize, w: usize) -> Result<(), Refusal>
    requires { (v < w) × ((w < most_places) × (leg_count w + w ≤ length table.now)) }
    ensures { number_of result ≡ unless (pair_rule (metres_of table.now) w v) 8 }
{
    let near = Road::legs(v);
    let far = Road::legs(w);
    let across = table[far + v];
    if rows_keep(&table[near..near + v], &table[far..far + v], across) {
        return Ok(());
    }
    Err(Refusal::Triangle)
}

// 8 unless the rule holds of w with each two places before it.
fn test_place(table: &[u32], w: usize) -> Result<(), Refusal>
    requires { (w < most_places) × (leg_count w + w ≤ length table.now) }
    ensures { number_of result ≡ unless (place_rule (metres_of table.now) w) 8 }
{
    for v in 0..w {
        test_pair(table, v, w)?;
    }
    Ok(())
}

// 8 unless every three places keep the triangle rule.
pub(crate) fn test(table: &[u32], places: usize) -> Result<(), Refusal>
    requires { (places ≤ most_places) × (leg_count places ≤ length table.now) }
    ensures { number_of result ≡ triangle_refusal places table.now }
{
    for w in 0..places {
        test_place(table, w)?;
    }
    Ok(())
}
