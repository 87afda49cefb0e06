//! Written terms and commands, the grammar that reads them from tokens, what they are
//! read as in explicit mode, what the text of a development denotes, and the laws of these.
#![tactic(auto)]

mod command;
pub mod examples;
mod laws;
mod reading;
mod surface;

pub use command::{Act, Binding, BindingKind, Command};
pub use laws::{
    beginnings_are_decided, kinds_are_one, nestings_are_one, readings_are_one, refusals_are_one,
};
pub use reading::{
    cores_are_one, declarations_are_one, declared_entries_are_one, denoted_entries_are_one,
    reading_refusals_are_one, refusals_exclude_reading,
};
pub use surface::{Kind, Part, Surface};
