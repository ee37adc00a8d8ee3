// Day books whose days are listed one by one, in a list that its owner lends.
#![tactic(auto)]

pub mod dated;
pub mod listed;
