// The verdict on a deposit by the ten rules of the profile, over the rows of any carrier.
#![tactic(auto)]

pub mod check;
