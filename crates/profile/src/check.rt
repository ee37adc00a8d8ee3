// The check of a deposit: the first broken rule with its lowest kind and row.
ghost use Rattle.std.specs.Prelude.{◌≡◌};
ghost use Rattle.profile.specs.Firsts.{first_below};
ghost use Rattle.rules.specs.Tests.{subjects, kept};
ghost use Rattle.profile.specs.Verdict.{row_fault, rule_fault, verdict, checked, Judged};

use deposit::carrier::Carrier;
use refusals::{DepositFault, Kind, Refusal, Rule};
use rules::judging::{RULES, is_kept, judged_kinds, judged_rows};

// The lowest row of a kind that breaks a rule.
fn first_row<C: Carrier>(c: &C, rule: Rule, kind: Kind) -> Option<usize>
    ensures { result ≡ first_below (kept rule (C.Carrier.meaning c.now) kind) (subjects rule (C.Carrier.meaning c.now) kind) }
{
    (0..judged_rows(c, rule, kind)).find(|row| !is_kept(c, rule, kind, *row))
}

// The fault of the lowest row of a kind that breaks a rule. Here and below a fault or nothing is what is looked for, and `find_map`
// takes it; `check` answers it as a refusal.
fn row_fault<C: Carrier>(c: &C, rule: Rule, kind: Kind) -> Option<DepositFault>
    ensures { result ≡ row_fault rule (C.Carrier.meaning c.now) kind }
{
    first_row(c, rule, kind).map(|row| DepositFault::Breaks { rule, kind, row })
}

// The lowest kind and row that break a rule.
fn rule_fault<C: Carrier>(c: &C, rule: Rule) -> Option<DepositFault>
    ensures { result ≡ rule_fault (C.Carrier.meaning c.now) rule }
{
    judged_kinds(rule)
        .iter()
        .find_map(|kind| row_fault(c, rule, *kind))
}

/// The first rule that the rows of a carrier break, with the lowest kind and row, or nothing where they pass.
pub fn verdict<C: Carrier>(c: &C) -> Option<DepositFault>
    ensures value { result ≡ verdict (C.Carrier.meaning c.now) }
    ensures words { Judged (C.Carrier.meaning c.now) result }
{
    RULES.iter().find_map(|rule| rule_fault(c, *rule))
}

/// Checks the rows of a carrier by the ten rules: refuses with 11 to 20, the kind and the row.
pub fn check<C: Carrier>(c: &C) -> Result<(), Refusal>
    ensures answer { result ≡ checked (verdict (C.Carrier.meaning c.now)) }
    ensures words { Judged (C.Carrier.meaning c.now) (verdict (C.Carrier.meaning c.now)) }
{
    verdict(c).map_or(Ok(()), |fault| Err(fault.into()))
}
