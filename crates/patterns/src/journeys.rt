// The pattern of a journey, which names it or another journey that does.
ghost use Rattle.std.specs.Prelude.{◌≡◌};
ghost use Rattle.patterns.specs.Journeys.{pattern_of};

use deposit::carrier::Carrier;

/// How many references to other journeys may lead to a pattern.
pub const STEPS_TO_PATTERN: usize = 1;

/// The pattern of a journey row: its own, or that of the journey that it refers to; nothing where neither names one.
pub fn pattern_of<C: Carrier>(c: &C, journey: usize) -> Option<usize>
    ensures value { result ≡ pattern_of (C.meaning c.now) journey }
{
    let mut row = c.journey(journey);
    for _ in 0..STEPS_TO_PATTERN {
        if row.pattern.is_none() {
            row = c.journey(usize::from(row.other?));
        }
    }
    row.pattern.map(usize::from)
}
