// The ten rules of the profile: which rows each judges, and whether a row keeps it.
#![tactic(auto)]

mod codes;
mod counts;
mod days;
mod heads;
mod joins;
mod journeys;
pub mod judging;
