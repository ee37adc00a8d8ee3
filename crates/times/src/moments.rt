// Moments: a day and a second of it.
ghost use Rattle.std.specs.Prelude.{◌≡◌};
ghost use Rattle.times.specs.Moments.{moment_made, later, LaterInSeconds};

use calendar::dates::LAST_DAY;
use refusals::Refusal;

/// The last second of a day.
pub const LAST_SECOND: u32 = 86_399;

/// A day and a second of it. A row that may still be wrong can hold any two numbers here; `new` lets none out of range in.
#[derive(Clone, Copy, Debug, Default, PartialEq, Eq, PartialOrd, Ord)]
pub struct Moment {
    pub day: u32,
    pub second: u32,
}

impl Moment {
    /// The moment of a day and a second; 40 for a day past the calendar or a second past the day.
    pub fn new(day: u32, second: u32) -> Result<Moment, Refusal>
        ensures answer { result ≡ moment_made day second }
    {
        if day > LAST_DAY || second > LAST_SECOND {
            return Err(Refusal::OutOfRange);
        }
        Ok(Moment { day, second })
    }

    // It says the theorem on seconds, which `>` cannot.
    /// Whether this moment comes after the other.
    pub fn is_later_than(self, other: Moment) -> bool
        ensures value { result ≡ later self other }
        ensures seconds { LaterInSeconds }
    {
        self > other
    }
}
