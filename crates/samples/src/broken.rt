// Broken deposits: each is the sample but for the rows that break one rule.
ghost use Rattle.std.specs.Prelude.{◌≡◌};
ghost use Rattle.deposit.specs.Tables.{tables_mean};
ghost use Rattle.samples.specs.Broken.{broken};

use crate::sample::{
    ABBEY, BRIDGE, CASTLE, FIRST_LINK, HEAD, JOURNEY, LINE, PROFILE, SECOND_LINK, sample,
};
use deposit::rows::{HeadRow, JourneyRow, LineRow, LinkRow, OverrideRow, ProfileRow, StopRow};
use deposit::tables::Tables;
use refusals::Rule;

// It runs one second longer than any link may.
const LONG_LINK: LinkRow = LinkRow {
    run: 21_601,
    ..SECOND_LINK
};

// Revision 1, and still New.
const NEW_AT_ONE: HeadRow<'static> = HeadRow {
    revision: 1,
    ..HEAD
};

// The period ends on the day before it starts.
const ENDS_BEFORE: HeadRow<'static> = HeadRow {
    end: Some(8066),
    ..HEAD
};

// A line with no description.
const BARE_LINE: LineRow<'static> = LineRow {
    name: b"2",
    outbound: b"",
    inbound: b"",
};

// Boxing Day is a day to run on and one not to.
const TORN_PROFILE: ProfileRow = ProfileRow {
    runs: 128,
    not_runs: 192,
    ..PROFILE
};

// It names a pattern and another journey.
const TWICE_NAMED: JourneyRow<'static> = JourneyRow {
    code: b"J2",
    other: Some(0),
    departure: 32_400,
    ..JOURNEY
};

// The first link ends at B, and this one begins at A.
const APART_LINK: LinkRow = LinkRow {
    from: 0,
    ..SECOND_LINK
};

// The pattern has positions 0 and 1.
const PAST_THE_PATTERN: OverrideRow = OverrideRow {
    position: 2,
    run: Some(240),
    from_wait: None,
    to_wait: None,
};

const OVERRIDDEN: JourneyRow<'static> = JourneyRow {
    overrides: 1,
    ..JOURNEY
};

// It has the code of the bridge.
const SAME_CODE: StopRow<'static> = StopRow {
    code: b"B",
    ..CASTLE
};

// One arm for each rule of a closed enum.
/// A deposit that breaks a rule and no earlier one.
pub fn broken(rule: Rule) -> Tables<'static, 'static>
    ensures value { tables_mean result ≡ broken rule }
{
    match rule {
        Rule::Counts => Tables {
            journeys: &[],
            ..sample()
        },
        Rule::Ranges => Tables {
            links: &[FIRST_LINK, LONG_LINK],
            ..sample()
        },
        Rule::Revision => Tables {
            heads: &[NEW_AT_ONE],
            ..sample()
        },
        Rule::Period => Tables {
            heads: &[ENDS_BEFORE],
            ..sample()
        },
        Rule::Description => Tables {
            lines: &[LINE, BARE_LINE],
            ..sample()
        },
        Rule::Days => Tables {
            profiles: &[TORN_PROFILE],
            ..sample()
        },
        Rule::Reference => Tables {
            journeys: &[JOURNEY, TWICE_NAMED],
            ..sample()
        },
        Rule::Joining => Tables {
            links: &[FIRST_LINK, APART_LINK],
            ..sample()
        },
        Rule::Overriding => Tables {
            overrides: &[PAST_THE_PATTERN],
            journeys: &[OVERRIDDEN],
            ..sample()
        },
        Rule::Codes => Tables {
            stops: &[ABBEY, BRIDGE, SAME_CODE],
            ..sample()
        },
    }
}
