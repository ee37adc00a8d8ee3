// Tests of the calendar layers against published tables. The library itself has nothing.
#![tactic(auto)]

#[cfg(test)]
mod books;
#[cfg(test)]
mod dates;
#[cfg(test)]
mod easters;
#[cfg(test)]
mod numbers;
