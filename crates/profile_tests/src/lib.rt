// Tests of the profile at the edges of every rule, on both sides. The library itself has nothing.
#![tactic(auto)]

#[cfg(test)]
mod counts;
#[cfg(test)]
mod edges;
#[cfg(test)]
mod heads;
#[cfg(test)]
mod joins;
#[cfg(test)]
mod journeys;
#[cfg(test)]
mod links;
#[cfg(test)]
mod numbers;
#[cfg(test)]
mod overriding;
#[cfg(test)]
mod profiles;
#[cfg(test)]
mod stops;
