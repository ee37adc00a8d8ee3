// Whether the values of a row are in their ranges, and its references within the lists of its deposit.
#![tactic(auto)]

mod judged;
pub mod limits;
pub mod rows;
pub mod texts;
