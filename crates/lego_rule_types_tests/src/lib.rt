//! Tests of rule types, over the public call alone.
#![tactic(auto)]

#[cfg(test)]
mod answers;
