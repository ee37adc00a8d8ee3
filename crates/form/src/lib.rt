// The form of a deposit in bytes: which fields are due, and the first that is wrong.
#![tactic(auto)]

pub mod check;
mod looks;
mod places;
