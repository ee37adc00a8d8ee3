// What is asked of a row of each kind: its values in their ranges, and its references within the lists of its deposit.
ghost use Rattle.std.specs.Prelude.{◌≡◌, ◌&&◌, Bool, true};
ghost use Rattle.deposit.specs.Deposit.{Deposit, head_of, line_of, stop_of, journey_of};
ghost use Rattle.ranges.specs.Values as test;

use crate::limits::{
    GREATEST_ACTIVITY, HOLIDAYS, LAST_POSITION, LONGEST_CODE, LONGEST_DESCRIPTION, LONGEST_RUN,
    LONGEST_STOP_CODE, LONGEST_STOP_NAME, LONGEST_WAIT, WEEKDAYS,
};
use crate::texts::{is_code, is_name};
use calendar::dates::LAST_DAY;
use deposit::carrier::Carrier;
use deposit::rows::{
    HeadRow, JourneyRow, LineRow, LinkRow, OverrideRow, PatternRow, ProfileRow, SectionRow,
    SpecialRow, StopRow, UseRow,
};
use refusals::Kind;
use times::moments::{LAST_SECOND, Moment};

// A row of one kind, whose values have ranges and whose references have lists.
pub(crate) trait Judged: Copy {
    ghost values: { Self → Bool };

    ghost refs: { Deposit → Self → Bool };

    // Whether its values are in their ranges, whatever its deposit.
    fn fits(self) -> bool
        ensures { result ≡ values self };

    // Whether its references are within the lists of its deposit.
    fn refers<C: Carrier>(self, c: &C) -> bool
        ensures { result ≡ refs (C.Carrier.meaning c.now) self };

    final fn is_in_range<C: Carrier>(self, c: &C) -> bool
        ensures { result ≡ (values self && refs (C.Carrier.meaning c.now) self) }
    {
        self.fits() && self.refers(c)
    }
}

fn is_moment(moment: Moment) -> bool
    ensures { result ≡ test.is_moment moment }
{
    moment.day <= LAST_DAY && moment.second <= LAST_SECOND
}

fn is_within(first: u16, count: u16, length: usize) -> bool
    ensures { result ≡ test.within first count length }
{
    usize::from(first) + usize::from(count) <= length
}

fn is_below(reference: u16, length: usize) -> bool
    ensures { result ≡ test.below length reference }
{
    usize::from(reference) < length
}

fn is_below_if_given(reference: Option<u16>, length: usize) -> bool
    ensures { result ≡ test.given (test.below length) reference }
{
    reference.is_none_or(|reference| is_below(reference, length))
}

impl Judged for HeadRow<'_> {
    ghost values = { λ row. test.head_values (head_of row) };

    ghost refs = { λ d row. test.head_refs d (head_of row) };

    // Every revision that a `u16` holds is in its range.
    fn fits(self) -> bool {
        is_code(self.service, LONGEST_CODE)
            && is_moment(self.created)
            && self.modified.is_none_or(is_moment)
            && (1..=2).contains(&self.modification)
            && self.start <= LAST_DAY
            && self.end.is_none_or(|end| end <= LAST_DAY)
    }

    fn refers<C: Carrier>(self, c: &C) -> bool {
        is_below_if_given(self.profile, c.count(Kind::Profile))
    }
}

impl Judged for LineRow<'_> {
    ghost values = { λ row. test.line_values (line_of row) };

    ghost refs = { λ d row. true };

    fn fits(self) -> bool {
        is_name(self.name, LONGEST_CODE)
            && self.outbound.len() <= LONGEST_DESCRIPTION
            && self.inbound.len() <= LONGEST_DESCRIPTION
    }

    fn refers<C: Carrier>(self, _c: &C) -> bool {
        true
    }
}

impl Judged for StopRow<'_> {
    ghost values = { λ row. test.stop_values (stop_of row) };

    ghost refs = { λ d row. true };

    fn fits(self) -> bool {
        is_code(self.code, LONGEST_STOP_CODE) && is_name(self.name, LONGEST_STOP_NAME)
    }

    fn refers<C: Carrier>(self, _c: &C) -> bool {
        true
    }
}

impl Judged for ProfileRow {
    ghost values = { test.profile_values };

    ghost refs = { test.profile_refs };

    fn fits(self) -> bool {
        self.weekdays <= WEEKDAYS && self.runs <= HOLIDAYS && self.not_runs <= HOLIDAYS
    }

    fn refers<C: Carrier>(self, c: &C) -> bool {
        is_within(self.first_special, self.specials, c.count(Kind::Special))
    }
}

impl Judged for SpecialRow {
    ghost values = { test.special_values };

    ghost refs = { λ d row. true };

    fn fits(self) -> bool {
        self.first <= LAST_DAY && self.last <= LAST_DAY && self.runs <= 1
    }

    fn refers<C: Carrier>(self, _c: &C) -> bool {
        true
    }
}

impl Judged for LinkRow {
    ghost values = { test.link_values };

    ghost refs = { test.link_refs };

    fn fits(self) -> bool {
        self.run <= LONGEST_RUN
            && self.from_wait <= LONGEST_WAIT
            && self.to_wait <= LONGEST_WAIT
            && (1..=GREATEST_ACTIVITY).contains(&self.from_activity)
            && (1..=GREATEST_ACTIVITY).contains(&self.to_activity)
    }

    fn refers<C: Carrier>(self, c: &C) -> bool {
        let stops = c.count(Kind::Stop);
        is_below(self.from, stops) && is_below(self.to, stops)
    }
}

impl Judged for SectionRow {
    ghost values = { test.section_values };

    ghost refs = { test.section_refs };

    fn fits(self) -> bool {
        1 <= self.links
    }

    fn refers<C: Carrier>(self, c: &C) -> bool {
        is_within(self.first_link, self.links, c.count(Kind::Link))
    }
}

impl Judged for UseRow {
    ghost values = { λ row. true };

    ghost refs = { test.use_refs };

    fn fits(self) -> bool {
        true
    }

    fn refers<C: Carrier>(self, c: &C) -> bool {
        is_below(self.section, c.count(Kind::Section))
    }
}

impl Judged for PatternRow {
    ghost values = { test.pattern_values };

    ghost refs = { test.pattern_refs };

    fn fits(self) -> bool {
        (1..=2).contains(&self.direction) && 1 <= self.uses
    }

    fn refers<C: Carrier>(self, c: &C) -> bool {
        is_within(self.first_use, self.uses, c.count(Kind::Use))
    }
}

impl Judged for OverrideRow {
    ghost values = { test.override_values };

    ghost refs = { λ d row. true };

    fn fits(self) -> bool {
        self.position <= LAST_POSITION
            && self.run.is_none_or(|run| run <= LONGEST_RUN)
            && self.from_wait.is_none_or(|wait| wait <= LONGEST_WAIT)
            && self.to_wait.is_none_or(|wait| wait <= LONGEST_WAIT)
    }

    fn refers<C: Carrier>(self, _c: &C) -> bool {
        true
    }
}

impl Judged for JourneyRow<'_> {
    ghost values = { λ row. test.journey_values (journey_of row) };

    ghost refs = { λ d row. test.journey_refs d (journey_of row) };

    fn fits(self) -> bool {
        is_code(self.code, LONGEST_CODE) && self.departure <= LAST_SECOND && self.day_shift <= 1
    }

    fn refers<C: Carrier>(self, c: &C) -> bool {
        is_below(self.line, c.count(Kind::Line))
            && is_below_if_given(self.pattern, c.count(Kind::Pattern))
            && is_below_if_given(self.other, c.count(Kind::Journey))
            && is_below_if_given(self.profile, c.count(Kind::Profile))
            && is_within(self.first_override, self.overrides, c.count(Kind::Override))
    }
}
