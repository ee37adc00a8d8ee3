// Tables of cases at the edges of a rule, each judged in a deposit of its own. Each judge fills another table of the deposit, so
// it is a function of its own.
use refusals::{DepositFault, Rule};
use std::process::Abort;

/// Judges each case of a table: it passes, or breaks the rule that stands beside it, which is told as `fault` says.
pub(crate) fn judge_cases<T, J, F>(rt: &impl Abort, cases: &[(T, Option<Rule>)], judge: J, fault: F)
where
    T: Copy,
    J: Fn(T) -> Option<DepositFault>,
    F: Fn(Rule) -> DepositFault,
    requires judge { J.IsAlwaysCallable judge }
    requires fault { F.IsAlwaysCallable fault }
{
    for &(case, broken) in cases {
        assert_eq!(rt; judge(case), broken.map(&fault));
    }
}
