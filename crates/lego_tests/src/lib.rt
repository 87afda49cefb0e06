//! Tests of the libraries of the calculus, over public calls alone.
#![tactic(auto)]

#[cfg(test)]
mod compare;
#[cfg(test)]
mod level;
#[cfg(test)]
mod reduce;
#[cfg(test)]
mod term;
#[cfg(test)]
mod undo;
