//! Types of terms by the rules of the Extended Calculus of Constructions (Luo 1994), with
//! constraints between universe levels (Harper and Pollack, "Type checking with universes",
//! 1991), and why a term is refused.
#![tactic(auto)]

mod calls;
mod entry;
mod fault;
mod gathered;
mod head;
mod judge;
mod laws;
mod locals;
mod made;
mod rules;
mod setting;
mod signature;
mod stated;

pub use calls::{check, check_written, infer, infer_type};
pub use entry::{At, Entry, EntryKind, Judged, Universe};
pub use fault::{Counted, TypeFault};
pub use laws::{head_forms_keep_binders, rule_types_keep_binders, substitution_keeps_binders};
pub use locals::{Local, Locals};
pub use signature::Signature;
