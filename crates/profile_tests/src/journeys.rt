// Journeys: their values, what they refer to, and their codes.
use crate::edges::judge_cases;
use crate::heads;
use deposit::rows::{HeadRow, JourneyRow};
use deposit::tables::Tables;
use profile::check::verdict;
use refusals::{DepositFault, Kind, Rule};
use samples::sample::sample;

const FIRST: JourneyRow<'static> = JourneyRow {
    code: b"J1",
    line: 0,
    pattern: Some(0),
    other: None,
    profile: None,
    departure: 28_800,
    day_shift: 0,
    first_override: 0,
    overrides: 0,
};

const SECOND: JourneyRow<'static> = JourneyRow {
    code: b"J2",
    ..FIRST
};

const REFERRING: JourneyRow<'static> = JourneyRow {
    pattern: None,
    other: Some(0),
    ..SECOND
};

// A journey behind the first, and the rule that it breaks.
const JOURNEYS: [(JourneyRow<'static>, Option<Rule>); 20] = [
    (SECOND, None),
    (
        JourneyRow {
            code: b"~23456789!23456789.12345",
            ..SECOND
        },
        None,
    ),
    (
        JourneyRow {
            code: b"123456789.123456789.12345",
            ..SECOND
        },
        Some(Rule::Ranges),
    ),
    (
        JourneyRow {
            code: b"A B",
            ..SECOND
        },
        Some(Rule::Ranges),
    ),
    (
        JourneyRow {
            departure: 86_399,
            ..SECOND
        },
        None,
    ),
    (
        JourneyRow {
            departure: 86_400,
            ..SECOND
        },
        Some(Rule::Ranges),
    ),
    (
        JourneyRow {
            day_shift: 1,
            ..SECOND
        },
        None,
    ),
    (
        JourneyRow {
            day_shift: 2,
            ..SECOND
        },
        Some(Rule::Ranges),
    ),
    (JourneyRow { line: 1, ..SECOND }, Some(Rule::Ranges)),
    (
        JourneyRow {
            pattern: Some(1),
            ..SECOND
        },
        Some(Rule::Ranges),
    ),
    (
        JourneyRow {
            profile: Some(0),
            ..SECOND
        },
        None,
    ),
    (
        JourneyRow {
            profile: Some(1),
            ..SECOND
        },
        Some(Rule::Ranges),
    ),
    (
        JourneyRow {
            first_override: 1,
            ..SECOND
        },
        Some(Rule::Ranges),
    ),
    (
        JourneyRow {
            overrides: 1,
            ..SECOND
        },
        Some(Rule::Ranges),
    ),
    (
        JourneyRow {
            pattern: None,
            other: Some(0),
            ..SECOND
        },
        None,
    ),
    (
        JourneyRow {
            pattern: None,
            other: Some(2),
            ..SECOND
        },
        Some(Rule::Ranges),
    ),
    (
        JourneyRow {
            pattern: None,
            other: Some(1),
            ..SECOND
        },
        Some(Rule::Reference),
    ),
    (
        JourneyRow {
            pattern: None,
            ..SECOND
        },
        Some(Rule::Reference),
    ),
    (
        JourneyRow {
            other: Some(0),
            ..SECOND
        },
        Some(Rule::Reference),
    ),
    (
        JourneyRow {
            code: b"J1",
            pattern: None,
            other: Some(0),
            ..SECOND
        },
        Some(Rule::Codes),
    ),
];

fn of_second(second: JourneyRow<'static>) -> Option<DepositFault> {
    let journeys = [FIRST, second];
    verdict(&Tables {
        journeys: &journeys,
        ..sample()
    })
}

// The first journey refers to the second, which stands behind it.
fn of_higher() -> Option<DepositFault> {
    let journeys = [
        JourneyRow {
            pattern: None,
            other: Some(1),
            ..FIRST
        },
        SECOND,
    ];
    verdict(&Tables {
        journeys: &journeys,
        ..sample()
    })
}

// The third journey refers to the second, which refers to the first.
fn of_chain() -> Option<DepositFault> {
    let journeys = [
        FIRST,
        REFERRING,
        JourneyRow {
            code: b"J3",
            other: Some(1),
            ..REFERRING
        },
    ];
    verdict(&Tables {
        journeys: &journeys,
        ..sample()
    })
}

// A head that names no profile, over a journey with that profile.
fn of_profile(profile: Option<u16>) -> Option<DepositFault> {
    let heads = [HeadRow {
        profile: None,
        ..heads::FIRST
    }];
    let journeys = [JourneyRow { profile, ..FIRST }];
    verdict(&Tables {
        heads: &heads,
        journeys: &journeys,
        ..sample()
    })
}

// A journey that leads to no pattern, or to no profile.
fn unreferred(row: usize) -> Option<DepositFault> {
    Some(DepositFault::Breaks {
        rule: Rule::Reference,
        kind: Kind::Journey,
        row,
    })
}

#[test]
fn journeys_at_their_edges(rt: HostRuntime) {
    judge_cases(
        &rt,
        &JOURNEYS,
        of_second,
        |rule| DepositFault::Breaks {
            rule,
            kind: Kind::Journey,
            row: 1,
        },
    );
}

#[test]
fn references_lead_down_to_a_pattern(rt: HostRuntime) {
    assert_eq!(rt; of_higher(), unreferred(0));
    assert_eq!(rt; of_chain(), unreferred(2));
}

#[test]
fn a_profile_stands_somewhere(rt: HostRuntime) {
    assert_eq!(rt; of_profile(Some(0)), None);
    assert_eq!(rt; of_profile(None), unreferred(0));
}
