// Patterns of several sections: how many links they have, and how these join.
use crate::edges::judge_cases;
use deposit::rows::{LinkRow, PatternRow, SectionRow, UseRow};
use deposit::tables::Tables;
use profile::check::verdict;
use refusals::{DepositFault, Kind, Rule};
use samples::sample::sample;

// A link that can follow itself.
const ROUND: LinkRow = LinkRow {
    from: 0,
    to: 0,
    run: 60,
    from_wait: 0,
    to_wait: 0,
    from_activity: 3,
    to_activity: 3,
};

// Stop and activity at which the second section's link begins, and the rule that it breaks.
const BORDERS: [((u16, u8), Option<Rule>); 4] = [
    ((0, 3), None),
    ((1, 3), Some(Rule::Joining)),
    ((0, 4), Some(Rule::Joining)),
    ((1, 4), Some(Rule::Joining)),
];

// A pattern that uses a section of one link so often.
fn of_uses(uses: u16) -> Option<DepositFault> {
    let links = [ROUND];
    let sections = [SectionRow {
        first_link: 0,
        links: 1,
    }];
    let used = [UseRow { section: 0 }; 201];
    let patterns = [PatternRow {
        direction: 1,
        first_use: 0,
        uses,
    }];
    verdict(&Tables {
        links: &links,
        sections: &sections,
        uses: &used,
        patterns: &patterns,
        ..sample()
    })
}

// A second pattern of two sections, the link of the second one with another beginning.
fn of_border((from, from_activity): (u16, u8)) -> Option<DepositFault> {
    let links = [
        ROUND,
        LinkRow {
            from,
            from_activity,
            ..ROUND
        },
    ];
    let sections = [
        SectionRow {
            first_link: 0,
            links: 1,
        },
        SectionRow {
            first_link: 1,
            links: 1,
        },
    ];
    let uses = [UseRow { section: 0 }, UseRow { section: 1 }];
    let patterns = [
        PatternRow {
            direction: 1,
            first_use: 0,
            uses: 1,
        },
        PatternRow {
            direction: 1,
            first_use: 0,
            uses: 2,
        },
    ];
    verdict(&Tables {
        links: &links,
        sections: &sections,
        uses: &uses,
        patterns: &patterns,
        ..sample()
    })
}

#[test]
fn two_hundred_links_are_the_most(rt: HostRuntime) {
    assert_eq!(rt; of_uses(200), None);
    let one_more = DepositFault::Breaks {
        rule: Rule::Joining,
        kind: Kind::Pattern,
        row: 0,
    };
    assert_eq!(rt; of_uses(201), Some(one_more));
}

#[test]
fn sections_join_at_their_borders(rt: HostRuntime) {
    judge_cases(
        &rt,
        &BORDERS,
        of_border,
        |rule| DepositFault::Breaks {
            rule,
            kind: Kind::Pattern,
            row: 1,
        },
    );
}
