// Links, sections, their uses and patterns.
use crate::edges::judge_cases;
use deposit::rows::{LinkRow, PatternRow, SectionRow, UseRow};
use deposit::tables::Tables;
use profile::check::verdict;
use refusals::{DepositFault, Kind, Rule};
use samples::sample::sample;

const FIRST: LinkRow = LinkRow {
    from: 0,
    to: 1,
    run: 300,
    from_wait: 30,
    to_wait: 30,
    from_activity: 3,
    to_activity: 3,
};

const SECOND: LinkRow = LinkRow {
    from: 1,
    to: 2,
    ..FIRST
};

// A link behind the first, and the rule that it breaks.
const LINKS: [(LinkRow, Option<Rule>); 19] = [
    (SECOND, None),
    (LinkRow { run: 0, ..SECOND }, None),
    (
        LinkRow {
            run: 21_600,
            ..SECOND
        },
        None,
    ),
    (
        LinkRow {
            run: 21_601,
            ..SECOND
        },
        Some(Rule::Ranges),
    ),
    (
        LinkRow {
            from_wait: 3600,
            ..SECOND
        },
        None,
    ),
    (
        LinkRow {
            from_wait: 3601,
            ..SECOND
        },
        Some(Rule::Ranges),
    ),
    (
        LinkRow {
            to_wait: 3600,
            ..SECOND
        },
        None,
    ),
    (
        LinkRow {
            to_wait: 3601,
            ..SECOND
        },
        Some(Rule::Ranges),
    ),
    (
        LinkRow {
            to_activity: 1,
            ..SECOND
        },
        None,
    ),
    (
        LinkRow {
            to_activity: 4,
            ..SECOND
        },
        None,
    ),
    (
        LinkRow {
            to_activity: 0,
            ..SECOND
        },
        Some(Rule::Ranges),
    ),
    (
        LinkRow {
            to_activity: 5,
            ..SECOND
        },
        Some(Rule::Ranges),
    ),
    (
        LinkRow {
            from_activity: 0,
            ..SECOND
        },
        Some(Rule::Ranges),
    ),
    (
        LinkRow {
            from_activity: 5,
            ..SECOND
        },
        Some(Rule::Ranges),
    ),
    (LinkRow { to: 3, ..SECOND }, Some(Rule::Ranges)),
    (LinkRow { from: 3, ..SECOND }, Some(Rule::Ranges)),
    (LinkRow { from: 0, ..SECOND }, Some(Rule::Joining)),
    (LinkRow { from: 2, ..SECOND }, Some(Rule::Joining)),
    (
        LinkRow {
            from_activity: 4,
            ..SECOND
        },
        Some(Rule::Joining),
    ),
];

// First link and number of links of a section, over two links, and the rule that they break.
const SECTIONS: [((u16, u16), Option<Rule>); 7] = [
    ((0, 2), None),
    ((0, 1), None),
    ((1, 1), None),
    ((0, 0), Some(Rule::Ranges)),
    ((0, 3), Some(Rule::Ranges)),
    ((1, 2), Some(Rule::Ranges)),
    ((65_535, 65_535), Some(Rule::Ranges)),
];

// Direction, first use and number of uses of a pattern, over one use, and the rule that they break.
const PATTERNS: [((u8, u16, u16), Option<Rule>); 8] = [
    ((1, 0, 1), None),
    ((2, 0, 1), None),
    ((0, 0, 1), Some(Rule::Ranges)),
    ((3, 0, 1), Some(Rule::Ranges)),
    ((1, 0, 0), Some(Rule::Ranges)),
    ((1, 0, 2), Some(Rule::Ranges)),
    ((1, 1, 1), Some(Rule::Ranges)),
    ((1, 65_535, 65_535), Some(Rule::Ranges)),
];

fn of_link(link: LinkRow) -> Option<DepositFault> {
    let links = [FIRST, link];
    verdict(&Tables {
        links: &links,
        ..sample()
    })
}

fn of_section((first_link, links): (u16, u16)) -> Option<DepositFault> {
    let sections = [SectionRow { first_link, links }];
    verdict(&Tables {
        sections: &sections,
        ..sample()
    })
}

fn of_use(section: u16) -> Option<DepositFault> {
    let uses = [UseRow { section }];
    verdict(&Tables {
        uses: &uses,
        ..sample()
    })
}

fn of_pattern((direction, first_use, uses): (u8, u16, u16)) -> Option<DepositFault> {
    let patterns = [PatternRow {
        direction,
        first_use,
        uses,
    }];
    verdict(&Tables {
        patterns: &patterns,
        ..sample()
    })
}

// A link's own fault is told of the link; one that does not join is told of the pattern.
fn link_fault(rule: Rule) -> DepositFault {
    if rule == Rule::Joining {
        DepositFault::Breaks {
            rule,
            kind: Kind::Pattern,
            row: 0,
        }
    } else {
        DepositFault::Breaks {
            rule,
            kind: Kind::Link,
            row: 1,
        }
    }
}

#[test]
fn links_at_their_edges(rt: HostRuntime) {
    judge_cases(&rt, &LINKS, of_link, link_fault);
}

#[test]
fn sections_and_uses_at_their_edges(rt: HostRuntime) {
    judge_cases(
        &rt,
        &SECTIONS,
        of_section,
        |rule| DepositFault::Breaks {
            rule,
            kind: Kind::Section,
            row: 0,
        },
    );
    let unknown = DepositFault::Breaks {
        rule: Rule::Ranges,
        kind: Kind::Use,
        row: 0,
    };
    assert_eq!(rt; of_use(1), Some(unknown));
}

#[test]
fn patterns_at_their_edges(rt: HostRuntime) {
    judge_cases(
        &rt,
        &PATTERNS,
        of_pattern,
        |rule| DepositFault::Breaks {
            rule,
            kind: Kind::Pattern,
            row: 0,
        },
    );
}
