// How many rows of a kind there are.
use crate::heads::FIRST;
use deposit::rows::SpecialRow;
use deposit::tables::Tables;
use profile::check::verdict;
use refusals::{DepositFault, Kind, Rule};
use samples::sample::sample;

const SPECIAL: SpecialRow = SpecialRow {
    first: 8067,
    last: 8067,
    runs: 1,
};

fn of_specials(specials: &[SpecialRow]) -> Option<DepositFault> {
    verdict(&Tables {
        specials,
        ..sample()
    })
}

// The number of rows of a kind is wrong.
fn miscounted(kind: Kind) -> Option<DepositFault> {
    Some(DepositFault::Breaks {
        rule: Rule::Counts,
        kind,
        row: 0,
    })
}

#[test]
fn a_thousand_rows_are_the_most(rt: HostRuntime) {
    let specials = [SPECIAL; 1001];
    assert_eq!(rt; of_specials(&specials[..1000]), None);
    assert_eq!(rt; of_specials(&specials), miscounted(Kind::Special));
}

#[test]
fn no_rows_where_some_must_be(rt: HostRuntime) {
    let whole = sample();
    let heads = Tables {
        heads: &[],
        ..whole
    };
    assert_eq!(rt; verdict(&heads), miscounted(Kind::Head));
    let lines = Tables {
        lines: &[],
        ..whole
    };
    assert_eq!(rt; verdict(&lines), miscounted(Kind::Line));
    let stops = Tables {
        stops: &[],
        ..whole
    };
    assert_eq!(rt; verdict(&stops), miscounted(Kind::Stop));
    let journeys = Tables {
        journeys: &[],
        ..whole
    };
    assert_eq!(rt; verdict(&journeys), miscounted(Kind::Journey));
}

#[test]
fn one_head_and_no_more(rt: HostRuntime) {
    let two = Tables {
        heads: &[FIRST, FIRST],
        ..sample()
    };
    assert_eq!(rt; verdict(&two), miscounted(Kind::Head));
}
