// Overrides: their values, and their positions along the pattern of a journey.
use crate::edges::judge_cases;
use deposit::rows::{JourneyRow, OverrideRow};
use deposit::tables::Tables;
use profile::check::verdict;
use refusals::{DepositFault, Kind, Rule};
use samples::sample::sample;

const OVERRIDE: OverrideRow = OverrideRow {
    position: 0,
    run: None,
    from_wait: None,
    to_wait: None,
};

// An override of no journey, and the rule that it breaks.
const OVERRIDES: [(OverrideRow, Option<Rule>); 8] = [
    (
        OverrideRow {
            position: 199,
            ..OVERRIDE
        },
        None,
    ),
    (
        OverrideRow {
            position: 200,
            ..OVERRIDE
        },
        Some(Rule::Ranges),
    ),
    (
        OverrideRow {
            run: Some(21_600),
            ..OVERRIDE
        },
        None,
    ),
    (
        OverrideRow {
            run: Some(21_601),
            ..OVERRIDE
        },
        Some(Rule::Ranges),
    ),
    (
        OverrideRow {
            from_wait: Some(3600),
            ..OVERRIDE
        },
        None,
    ),
    (
        OverrideRow {
            from_wait: Some(3601),
            ..OVERRIDE
        },
        Some(Rule::Ranges),
    ),
    (
        OverrideRow {
            to_wait: Some(3600),
            ..OVERRIDE
        },
        None,
    ),
    (
        OverrideRow {
            to_wait: Some(3601),
            ..OVERRIDE
        },
        Some(Rule::Ranges),
    ),
];

// The positions of a journey's two overrides on a pattern of two links, and the rule that they break.
const POSITIONS: [((u16, u16), Option<Rule>); 7] = [
    ((0, 1), None),
    ((0, 0), Some(Rule::Overriding)),
    ((1, 1), Some(Rule::Overriding)),
    ((1, 0), Some(Rule::Overriding)),
    ((0, 2), Some(Rule::Overriding)),
    ((1, 2), Some(Rule::Overriding)),
    ((0, 199), Some(Rule::Overriding)),
];

fn of_override(row: OverrideRow) -> Option<DepositFault> {
    let overrides = [row];
    verdict(&Tables {
        overrides: &overrides,
        ..sample()
    })
}

// Two overrides of a second journey, which runs along the pattern of the first.
fn of_positions((first, second): (u16, u16)) -> Option<DepositFault> {
    let overrides = [
        OverrideRow {
            position: first,
            ..OVERRIDE
        },
        OverrideRow {
            position: second,
            ..OVERRIDE
        },
    ];
    let journeys = [
        JourneyRow {
            code: b"J1",
            line: 0,
            pattern: Some(0),
            other: None,
            profile: None,
            departure: 28_800,
            day_shift: 0,
            first_override: 0,
            overrides: 0,
        },
        JourneyRow {
            code: b"J2",
            line: 0,
            pattern: None,
            other: Some(0),
            profile: None,
            departure: 32_400,
            day_shift: 0,
            first_override: 0,
            overrides: 2,
        },
    ];
    verdict(&Tables {
        overrides: &overrides,
        journeys: &journeys,
        ..sample()
    })
}

#[test]
fn overrides_at_their_edges(rt: HostRuntime) {
    judge_cases(
        &rt,
        &OVERRIDES,
        of_override,
        |rule| DepositFault::Breaks {
            rule,
            kind: Kind::Override,
            row: 0,
        },
    );
}

#[test]
fn positions_rise_inside_the_pattern(rt: HostRuntime) {
    judge_cases(
        &rt,
        &POSITIONS,
        of_positions,
        |rule| DepositFault::Breaks {
            rule,
            kind: Kind::Journey,
            row: 1,
        },
    );
}
