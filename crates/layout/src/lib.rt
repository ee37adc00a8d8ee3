// The byte form of a deposit: what stands in the row of each kind, and which rows bytes begin with.
#![tactic(auto)]

pub mod rows;
pub mod table;
pub mod trips;
