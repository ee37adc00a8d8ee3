// Days, dates, weekdays and the kinds of holidays, from 1 January 2000 to 31 December 2199.
#![tactic(auto)]

pub mod books;
pub mod dates;
pub mod tables;
pub mod weeks;
