//! Tests of contexts, over public calls alone.
#![tactic(auto)]

#[cfg(test)]
mod faults;
#[cfg(test)]
mod fixture;
#[cfg(test)]
mod fronts;
#[cfg(test)]
mod refusals;
#[cfg(test)]
mod types;
