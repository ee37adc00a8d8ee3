// Fields of the byte form: a tag, a length and content, and numbers, the greatest byte first.
#![tactic(auto)]

pub mod numbers;
pub mod reads;
