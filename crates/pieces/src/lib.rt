// Texts made of pieces, written into bytes that their owner lends.
#![tactic(auto)]

pub mod piece;
pub mod write;
