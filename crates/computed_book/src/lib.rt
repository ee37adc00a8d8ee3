// Easter, and the day book that knows the holidays by their rules.
#![tactic(auto)]

pub mod book;
pub mod easter;
