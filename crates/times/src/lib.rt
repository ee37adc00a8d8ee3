// Moments, and times of the operating day: absolute times and lengths of time.
#![tactic(auto)]

pub mod moments;
pub mod seconds;
