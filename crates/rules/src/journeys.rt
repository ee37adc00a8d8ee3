// Rules 17 and 19: what a journey refers to, and its overrides.
ghost use Rattle.std.specs.Prelude.{◌≡◌};
ghost use Rattle.deposit.specs.Deposit.{journey_of};
ghost use Rattle.patterns.specs.Links.{shown};
ghost use Rattle.rules.specs.Tests.{names_one, leads, has_profile, reference_kept, rise_end, overriding_kept};

use deposit::carrier::Carrier;
use deposit::rows::JourneyRow;
use patterns::cursor::Span;
use patterns::journeys::{STEPS_TO_PATTERN, pattern_of};
use patterns::links::has_links_past;
use refusals::Kind;

fn names_one(journey: JourneyRow<'_>) -> bool
    ensures { result ≡ names_one (journey_of journey.entry) }
{
    journey.pattern.is_some() != journey.other.is_some()
}

fn has_profile<C: Carrier>(c: &C, journey: JourneyRow<'_>) -> bool
    ensures { result ≡ has_profile (C.Carrier.meaning c.now) (journey_of journey.entry) }
{
    journey.profile.is_some() || c.head(0).profile.is_some()
}

// Whether a journey leads to a pattern by at most `steps` references, each to a lower row.
fn leads_to_pattern<C: Carrier>(c: &C, steps: usize, row: usize) -> bool
    ensures { result ≡ leads steps (C.Carrier.meaning c.now) row }
{
    let journey = c.journey(row);
    if journey.pattern.is_some() {
        return true;
    }
    let Some(other) = journey.other.map(usize::from) else {
        return false;
    };
    steps > 0 && other < row && leads_to_pattern(c, steps - 1, other)
}

pub(crate) fn reference_kept<C: Carrier>(c: &C, row: usize) -> bool
    ensures { result ≡ reference_kept (C.Carrier.meaning c.now) row }
{
    let journey = c.journey(row);
    names_one(journey) && leads_to_pattern(c, STEPS_TO_PATTERN, row) && has_profile(c, journey)
}

// Behind the last of the positions of overrides, which is 0 where there are none; nothing where they do not rise.
fn rise_end<C: Carrier>(c: &C, start: Span) -> Option<usize>
    ensures { result ≡ rise_end 0 (shown start (C.Carrier.meaning c.now).overrides) }
{
    let rows = c.count(Kind::Override);
    let mut least = 0;
    let mut span = start;
    // a second iterator like `Links`, for this one loop, would be no plainer: the span counts, and asks how many rows there are
    while let Some(at) = span.next(rows) {
        let position = usize::from(c.override_row(at).position);
        if position < least {
            return None;
        }
        least = position + 1;
    }
    Some(least)
}

pub(crate) fn overriding_kept<C: Carrier>(c: &C, row: usize) -> bool
    ensures { result ≡ overriding_kept (C.Carrier.meaning c.now) row }
{
    let journey = c.journey(row);
    let overrides = Span {
        at: usize::from(journey.first_override),
        left: usize::from(journey.overrides),
    };
    rise_end(c, overrides).is_some_and(|end| {
        end == 0 || pattern_of(c, row).is_some_and(|pattern| has_links_past(c, pattern, end - 1))
    })
}
