//! Tests of the session and of what it stands on, over public calls alone.
#![tactic(auto)]

#[cfg(test)]
mod definitions;
#[cfg(test)]
mod devices;
#[cfg(test)]
mod run;
#[cfg(test)]
mod stop;
#[cfg(test)]
mod words;
