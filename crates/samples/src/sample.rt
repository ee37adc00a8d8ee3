// The sample: one service with one line, three stops and one journey.
ghost use Rattle.std.specs.Prelude.{◌≡◌};
ghost use Rattle.deposit.specs.Tables.{tables_mean};
ghost use Rattle.samples.specs.Sample.{sample};

use deposit::rows::{
    HeadRow, JourneyRow, LineRow, LinkRow, PatternRow, ProfileRow, SectionRow, StopRow, UseRow,
};
use deposit::tables::Tables;
use times::moments::Moment;

pub(crate) const HEAD: HeadRow<'static> = HeadRow {
    service: b"S",
    revision: 0,
    created: Moment {
        day: 8000,
        second: 0,
    },
    modified: None,
    modification: 1,
    start: 8067,
    end: None,
    profile: Some(0),
};

pub(crate) const LINE: LineRow<'static> = LineRow {
    name: b"1",
    outbound: b"A to C",
    inbound: b"",
};

pub(crate) const ABBEY: StopRow<'static> = StopRow {
    code: b"A",
    name: b"Abbey",
};

pub(crate) const BRIDGE: StopRow<'static> = StopRow {
    code: b"B",
    name: b"Bridge",
};

pub(crate) const CASTLE: StopRow<'static> = StopRow {
    code: b"C",
    name: b"Castle",
};

pub(crate) const PROFILE: ProfileRow = ProfileRow {
    weekdays: 127,
    runs: 0,
    not_runs: 0,
    first_special: 0,
    specials: 0,
};

pub(crate) const FIRST_LINK: LinkRow = LinkRow {
    from: 0,
    to: 1,
    run: 300,
    from_wait: 30,
    to_wait: 30,
    from_activity: 3,
    to_activity: 3,
};

pub(crate) const SECOND_LINK: LinkRow = LinkRow {
    from: 1,
    to: 2,
    run: 420,
    from_wait: 60,
    to_wait: 0,
    from_activity: 3,
    to_activity: 3,
};

const SECTION: SectionRow = SectionRow {
    first_link: 0,
    links: 2,
};

const USE: UseRow = UseRow { section: 0 };

const PATTERN: PatternRow = PatternRow {
    direction: 1,
    first_use: 0,
    uses: 1,
};

pub(crate) const JOURNEY: JourneyRow<'static> = JourneyRow {
    code: b"J1",
    line: 0,
    pattern: Some(0),
    other: None,
    profile: None,
    departure: 28_800,
    day_shift: 0,
    first_override: 0,
    overrides: 0,
};

/// The sample.
pub fn sample() -> Tables<'static, 'static>
    ensures value { tables_mean result ≡ sample }
{
    Tables {
        heads: &[HEAD],
        lines: &[LINE],
        stops: &[ABBEY, BRIDGE, CASTLE],
        profiles: &[PROFILE],
        specials: &[],
        links: &[FIRST_LINK, SECOND_LINK],
        sections: &[SECTION],
        uses: &[USE],
        patterns: &[PATTERN],
        overrides: &[],
        journeys: &[JOURNEY],
    }
}
