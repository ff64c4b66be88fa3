// What every layer shares: the refusals with their numbers; in specs/, tests over all numbers
// below a bound, lists that are filled or written into others, and the laws of a metric. Stands on nothing.
#![tactic(auto)]

ghost use Rattle.std.specs.Prelude.{◌≡◌};
ghost use Rattle.base.specs.Numbers.{refusal_number, number_of};

// One case for each row of document 01's refusal table, 1 to 11, for 12 of paper 3, 13 of paper 5, 14 of paper 10 and 15 of paper 11.
#[derive(Clone, Copy, Debug, PartialEq, Eq)]
pub enum Refusal {
    // The length of a file.
    Length,
    // The kind of a record, or a byte of it that must be 0.
    Record,
    // A record out of order, or legs missing; in memory, the number of places, or a table that has not as many legs.
    Order,
    // The metres of a leg.
    Metres,
    // A place not below the number of places; an index that no leg has, or a pair that is no leg.
    Place,
    // The number of cranes.
    Cranes,
    // The number of calls.
    Calls,
    // Three places that break the triangle rule.
    Triangle,
    // The plan.
    Plan,
    // The weights.
    Weights,
    // An output buffer shorter than the result.
    Buffer,
    // A crane to be sent whose number is not below the number of cranes.
    Crane,
    // The metres of a crane.
    Driven,
    // A date that is not real or not of the years that count; an edge of a window that no year has.
    Date,
    // A lower figure of a leg above its upper one.
    Bounds,
}

// The number of a refusal.
impl From<Refusal> for u8 {
    ghost from_gives = { λ r n. n ≡ refusal_number r };

    fn from(refusal: Refusal) -> u8 {
        match refusal {
            Refusal::Length => 1,
            Refusal::Record => 2,
            Refusal::Order => 3,
            Refusal::Metres => 4,
            Refusal::Place => 5,
            Refusal::Cranes => 6,
            Refusal::Calls => 7,
            Refusal::Triangle => 8,
            Refusal::Plan => 9,
            Refusal::Weights => 10,
            Refusal::Buffer => 11,
            Refusal::Crane => 12,
            Refusal::Driven => 13,
            Refusal::Date => 14,
            Refusal::Bounds => 15,
        }
    }
}

// The number of an answer, 0 where no refusal applies.
pub fn number<T: Copy>(answer: Result<T, Refusal>) -> u8
    ensures { result ≡ number_of answer }
{
    let Err(refusal) = answer else {
        return 0;
    };
    u8::from(refusal)
}
