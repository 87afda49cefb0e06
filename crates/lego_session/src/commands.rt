//! What each command does to a session, and what it answers.

pub(crate) mod bindings;
pub(crate) mod ctxt;
pub(crate) mod entries;
pub(crate) mod forget;
pub(crate) mod show;
pub(crate) mod terms;
pub(crate) mod undo;
