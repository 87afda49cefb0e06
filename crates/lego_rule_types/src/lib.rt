//! The rule type of a term of the Extended Calculus of Constructions (Luo 1994), which is read off
//! the term's form and checks nothing.
#![tactic(auto)]

mod call;
mod head;
mod made;
mod nodes;
mod rule;
mod scope;

pub use call::rule_type;
