// The worked examples, proved of the definitions that the contracts cite: one table, checked as a whole.
#![tactic(auto)]

ghost use Rattle.examples.specs.Examples.{Examples};

/// Every worked example holds.
pub fn examples_stand()
    ensures { Examples }
{}
