//! Tests of matching, over its public call alone.
#![tactic(auto)]

#[cfg(test)]
mod answers;
#[cfg(test)]
mod binders;
#[cfg(test)]
mod forms;
#[cfg(test)]
mod holes;
#[cfg(test)]
mod limits;
#[cfg(test)]
mod trees;
