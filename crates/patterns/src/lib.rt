// Journey patterns: the links of a pattern in order, and the pattern of a journey.
#![tactic(auto)]

pub mod cursor;
pub mod journeys;
pub mod links;
