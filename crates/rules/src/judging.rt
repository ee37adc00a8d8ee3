// The rules, each with the kinds and rows that it judges.
ghost use Rattle.std.specs.Prelude.{◌≡◌, Decides};
ghost use Rattle.rules.specs.Tests.{judged, subjects, kept};
ghost use Rattle.rules.specs.Words.{Sound};

use crate::codes::codes_kept;
use crate::counts::count_kept;
use crate::days::days_kept;
use crate::heads::{description_kept, period_kept, revision_kept};
use crate::joins::joining_kept;
use crate::journeys::{overriding_kept, reference_kept};
use deposit::carrier::Carrier;
use ranges::rows::in_range;
use refusals::{KINDS, Kind, Rule};

/// The rules in the order in which they are checked.
pub const RULES: [Rule; 10] = [
    Rule::Counts,
    Rule::Ranges,
    Rule::Revision,
    Rule::Period,
    Rule::Description,
    Rule::Days,
    Rule::Reference,
    Rule::Joining,
    Rule::Overriding,
    Rule::Codes,
];

// A match over the closed enum of rules, which is the plainest table of them.
/// The kinds that a rule looks at, in the order of their numbers.
pub fn judged_kinds(rule: Rule) -> &'static [Kind]
    ensures rows { result.now ≡ judged rule }
{
    match rule {
        Rule::Counts | Rule::Ranges => &KINDS,
        Rule::Revision | Rule::Period => &[Kind::Head],
        Rule::Description => &[Kind::Line],
        Rule::Days => &[Kind::Profile, Kind::Special],
        Rule::Reference | Rule::Overriding => &[Kind::Journey],
        Rule::Joining => &[Kind::Pattern],
        Rule::Codes => &[Kind::Stop, Kind::Journey],
    }
}

// One rule of the closed enum looks at the list and not at its rows.
/// How many rows of a kind a rule judges: every row; of the rule on counts, the list itself as row 0.
pub fn judged_rows<C: Carrier>(c: &C, rule: Rule, kind: Kind) -> usize
    ensures counted { result ≡ subjects rule (C.Carrier.meaning c.now) kind }
{
    match rule {
        Rule::Counts => 1,
        _ => c.count(kind),
    }
}

// The test of each rule: a match over a closed enum. Carrier, kind and row stay three parameters, here and in the crates around:
// each test would take a struct of them apart again.
fn row_keeps<C: Carrier>(c: &C, rule: Rule, kind: Kind, row: usize) -> bool
    ensures { result ≡ kept rule (C.Carrier.meaning c.now) kind row }
{
    match rule {
        Rule::Counts => count_kept(kind, c.count(kind)),
        Rule::Ranges => in_range(c, kind, row),
        Rule::Revision => revision_kept(c.head(row)),
        Rule::Period => period_kept(c.head(row)),
        Rule::Description => description_kept(c.line(row)),
        Rule::Days => days_kept(c, kind, row),
        Rule::Reference => reference_kept(c, row),
        Rule::Joining => joining_kept(c, row),
        Rule::Overriding => overriding_kept(c, row),
        Rule::Codes => codes_kept(c, kind, row),
    }
}

/// Whether a row keeps a rule.
pub fn is_kept<C: Carrier>(c: &C, rule: Rule, kind: Kind, row: usize) -> bool
    ensures value { result ≡ kept rule (C.Carrier.meaning c.now) kind row }
    ensures words { Decides result (Sound rule (C.Carrier.meaning c.now) kind row) }
{
    row_keeps(c, rule, kind, row)
}
