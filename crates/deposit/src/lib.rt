// A deposit of a timetable: its rows, what carries them, and the tables of a depositor.
#![tactic(auto)]

pub mod carrier;
pub mod codes;
pub mod rows;
pub mod tables;
