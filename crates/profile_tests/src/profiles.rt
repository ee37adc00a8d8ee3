// Profiles and special days.
use crate::edges::judge_cases;
use deposit::rows::{ProfileRow, SpecialRow};
use deposit::tables::Tables;
use profile::check::verdict;
use refusals::{DepositFault, Kind, Rule};
use samples::sample::sample;

const PROFILE: ProfileRow = ProfileRow {
    weekdays: 127,
    runs: 0,
    not_runs: 0,
    first_special: 0,
    specials: 2,
};

const SPECIAL: SpecialRow = SpecialRow {
    first: 8067,
    last: 8067,
    runs: 1,
};

// A profile over two special days, and the rule that it breaks.
const PROFILES: [(ProfileRow, Option<Rule>); 14] = [
    (PROFILE, None),
    (
        ProfileRow {
            weekdays: 0,
            ..PROFILE
        },
        None,
    ),
    (
        ProfileRow {
            weekdays: 128,
            ..PROFILE
        },
        Some(Rule::Ranges),
    ),
    (
        ProfileRow {
            runs: 255,
            ..PROFILE
        },
        None,
    ),
    (
        ProfileRow {
            runs: 256,
            ..PROFILE
        },
        Some(Rule::Ranges),
    ),
    (
        ProfileRow {
            not_runs: 255,
            ..PROFILE
        },
        None,
    ),
    (
        ProfileRow {
            not_runs: 256,
            ..PROFILE
        },
        Some(Rule::Ranges),
    ),
    (
        ProfileRow {
            first_special: 1,
            specials: 1,
            ..PROFILE
        },
        None,
    ),
    (
        ProfileRow {
            first_special: 2,
            specials: 0,
            ..PROFILE
        },
        None,
    ),
    (
        ProfileRow {
            first_special: 1,
            ..PROFILE
        },
        Some(Rule::Ranges),
    ),
    (
        ProfileRow {
            first_special: 65_535,
            specials: 65_535,
            ..PROFILE
        },
        Some(Rule::Ranges),
    ),
    (
        ProfileRow {
            runs: 170,
            not_runs: 85,
            ..PROFILE
        },
        None,
    ),
    (
        ProfileRow {
            runs: 128,
            not_runs: 255,
            ..PROFILE
        },
        Some(Rule::Days),
    ),
    (
        ProfileRow {
            runs: 3,
            not_runs: 5,
            ..PROFILE
        },
        Some(Rule::Days),
    ),
];

// A second special, and the rule that it breaks.
const SPECIALS: [(SpecialRow, Option<Rule>); 8] = [
    (SPECIAL, None),
    (
        SpecialRow {
            first: 73_048,
            last: 73_048,
            ..SPECIAL
        },
        None,
    ),
    (
        SpecialRow {
            last: 73_049,
            ..SPECIAL
        },
        Some(Rule::Ranges),
    ),
    (
        SpecialRow {
            first: 73_049,
            last: 73_049,
            ..SPECIAL
        },
        Some(Rule::Ranges),
    ),
    (SpecialRow { runs: 0, ..SPECIAL }, None),
    (SpecialRow { runs: 2, ..SPECIAL }, Some(Rule::Ranges)),
    (
        SpecialRow {
            last: 8068,
            ..SPECIAL
        },
        None,
    ),
    (
        SpecialRow {
            last: 8066,
            ..SPECIAL
        },
        Some(Rule::Days),
    ),
];

fn of_profile(profile: ProfileRow) -> Option<DepositFault> {
    let profiles = [profile];
    let specials = [SPECIAL, SPECIAL];
    verdict(&Tables {
        profiles: &profiles,
        specials: &specials,
        ..sample()
    })
}

fn of_special(special: SpecialRow) -> Option<DepositFault> {
    let specials = [SPECIAL, special];
    verdict(&Tables {
        specials: &specials,
        ..sample()
    })
}

#[test]
fn profiles_at_their_edges(rt: HostRuntime) {
    judge_cases(
        &rt,
        &PROFILES,
        of_profile,
        |rule| DepositFault::Breaks {
            rule,
            kind: Kind::Profile,
            row: 0,
        },
    );
}

#[test]
fn specials_at_their_edges(rt: HostRuntime) {
    judge_cases(
        &rt,
        &SPECIALS,
        of_special,
        |rule| DepositFault::Breaks {
            rule,
            kind: Kind::Special,
            row: 1,
        },
    );
}
