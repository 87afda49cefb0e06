//! A session of commands, and the run of a script.
#![tactic(auto)]

mod answers;
mod built;
mod closing;
mod command_text;
mod commands;
mod development;
mod entries;
mod gathered;
mod laws;
mod parts;
mod pending;
mod progress;
mod refusal;
mod refusal_text;
mod running;
mod session;
mod status;
mod text;

pub use built::is_built;
pub use laws::{
    commands_are_read_in_one_way, runs_have_one_cut, steps_have_one_reply,
    typed_commands_meet_limits_alone,
};
pub use refusal::{Cause, Refusal};
pub use running::run;
pub use session::{Answer, Session};
pub use status::Status;
