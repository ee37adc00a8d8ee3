// Sample deposits in tables: one that passes, and for each rule one that breaks it and no earlier rule.
#![tactic(auto)]

pub mod broken;
pub mod sample;
