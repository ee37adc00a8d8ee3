// Writing the rows of a carrier as the bytes of a deposit, into bytes that their owner lends.
#![tactic(auto)]

pub mod faults;
mod parts;
mod passing;
mod rows;
pub mod write;
