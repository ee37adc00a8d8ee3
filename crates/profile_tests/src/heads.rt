// Values of the head, its revision and its period.
use crate::edges::judge_cases;
use deposit::rows::HeadRow;
use deposit::tables::Tables;
use profile::check::verdict;
use refusals::{DepositFault, Kind, Rule};
use samples::sample::sample;
use times::moments::Moment;

/// The head of a first issue that passes.
pub(crate) const FIRST: HeadRow<'static> = HeadRow {
    service: b"S",
    revision: 0,
    created: Moment {
        day: 8000,
        second: 0,
    },
    modified: None,
    modification: 1,
    start: 8067,
    end: None,
    profile: Some(0),
};

// A head, and the rule that it breaks.
const HEADS: [(HeadRow<'static>, Option<Rule>); 34] = [
    (FIRST, None),
    (
        HeadRow {
            service: b"~23456789!23456789.12345",
            ..FIRST
        },
        None,
    ),
    (
        HeadRow {
            service: b"123456789.123456789.12345",
            ..FIRST
        },
        Some(Rule::Ranges),
    ),
    (
        HeadRow {
            service: b"",
            ..FIRST
        },
        Some(Rule::Ranges),
    ),
    (
        HeadRow {
            service: b"A B",
            ..FIRST
        },
        Some(Rule::Ranges),
    ),
    (
        HeadRow {
            service: b"A\x7f",
            ..FIRST
        },
        Some(Rule::Ranges),
    ),
    (
        HeadRow {
            created: Moment {
                day: 73_048,
                second: 86_399,
            },
            ..FIRST
        },
        None,
    ),
    (
        HeadRow {
            created: Moment {
                day: 73_049,
                second: 0,
            },
            ..FIRST
        },
        Some(Rule::Ranges),
    ),
    (
        HeadRow {
            created: Moment {
                day: 0,
                second: 86_400,
            },
            ..FIRST
        },
        Some(Rule::Ranges),
    ),
    (
        HeadRow {
            modified: Some(Moment {
                day: 73_049,
                second: 0,
            }),
            ..FIRST
        },
        Some(Rule::Ranges),
    ),
    (
        HeadRow {
            modification: 0,
            ..FIRST
        },
        Some(Rule::Ranges),
    ),
    (
        HeadRow {
            modification: 3,
            ..FIRST
        },
        Some(Rule::Ranges),
    ),
    (
        HeadRow {
            start: 73_048,
            ..FIRST
        },
        None,
    ),
    (
        HeadRow {
            start: 73_049,
            ..FIRST
        },
        Some(Rule::Ranges),
    ),
    (
        HeadRow {
            end: Some(73_048),
            ..FIRST
        },
        None,
    ),
    (
        HeadRow {
            end: Some(73_049),
            ..FIRST
        },
        Some(Rule::Ranges),
    ),
    (
        HeadRow {
            profile: Some(1),
            ..FIRST
        },
        Some(Rule::Ranges),
    ),
    (
        HeadRow {
            modified: Some(Moment {
                day: 8000,
                second: 0,
            }),
            ..FIRST
        },
        None,
    ),
    (
        HeadRow {
            modified: Some(Moment {
                day: 8000,
                second: 1,
            }),
            ..FIRST
        },
        Some(Rule::Revision),
    ),
    (
        HeadRow {
            modification: 2,
            ..FIRST
        },
        Some(Rule::Revision),
    ),
    (
        HeadRow {
            revision: 1,
            ..FIRST
        },
        Some(Rule::Revision),
    ),
    (
        HeadRow {
            revision: 1,
            modified: Some(Moment {
                day: 8000,
                second: 1,
            }),
            modification: 2,
            ..FIRST
        },
        None,
    ),
    (
        HeadRow {
            revision: 65_535,
            modified: Some(Moment {
                day: 8000,
                second: 1,
            }),
            modification: 2,
            ..FIRST
        },
        None,
    ),
    (
        HeadRow {
            modified: Some(Moment {
                day: 8000,
                second: 1,
            }),
            modification: 2,
            ..FIRST
        },
        Some(Rule::Revision),
    ),
    (
        HeadRow {
            revision: 1,
            modified: Some(Moment {
                day: 8000,
                second: 1,
            }),
            ..FIRST
        },
        Some(Rule::Revision),
    ),
    (
        HeadRow {
            revision: 1,
            modification: 2,
            ..FIRST
        },
        Some(Rule::Revision),
    ),
    (
        HeadRow {
            revision: 1,
            modified: Some(Moment {
                day: 8000,
                second: 0,
            }),
            modification: 2,
            ..FIRST
        },
        Some(Rule::Revision),
    ),
    (
        HeadRow {
            revision: 1,
            modified: Some(Moment {
                day: 7999,
                second: 86_399,
            }),
            modification: 2,
            ..FIRST
        },
        Some(Rule::Revision),
    ),
    (
        HeadRow {
            revision: 1,
            modified: Some(Moment {
                day: 8001,
                second: 0,
            }),
            modification: 2,
            ..FIRST
        },
        None,
    ),
    (
        HeadRow {
            end: Some(8067),
            ..FIRST
        },
        None,
    ),
    (
        HeadRow {
            end: Some(8066),
            ..FIRST
        },
        Some(Rule::Period),
    ),
    (
        HeadRow {
            end: Some(0),
            ..FIRST
        },
        Some(Rule::Period),
    ),
    (
        HeadRow {
            revision: 1,
            modified: Some(Moment {
                day: 8000,
                second: 1,
            }),
            modification: 2,
            end: Some(8066),
            ..FIRST
        },
        Some(Rule::Period),
    ),
    (
        HeadRow {
            modification: 2,
            end: Some(8066),
            ..FIRST
        },
        Some(Rule::Revision),
    ),
];

fn of_head(head: HeadRow<'static>) -> Option<DepositFault> {
    let heads = [head];
    verdict(&Tables {
        heads: &heads,
        ..sample()
    })
}

#[test]
fn heads_at_their_edges(rt: HostRuntime) {
    judge_cases(
        &rt,
        &HEADS,
        of_head,
        |rule| DepositFault::Breaks {
            rule,
            kind: Kind::Head,
            row: 0,
        },
    );
}
