//! Terms of the Extended Calculus of Constructions (Luo 1994), shared by `Rc`, which
//! contracts see as plain trees.
#![tactic(auto)]

mod binder;
mod bodies;
mod constants;
mod digest;
mod equality;
mod fault;
mod level;
mod lifting;
mod list;
mod makers;
mod numbers;
mod parts;
mod seen;
mod substitution;
mod term;
mod traversal;
mod weight;

pub use binder::{Binder, Mark};
pub use bodies::Bodies;
pub use constants::{close_over, mentions, replace_consts};
pub use equality::{equal, equal_but_levels, identical};
pub use fault::TermFault;
pub use level::Level;
pub use lifting::lift;
pub use list::List;
pub use makers::{app, fst, konst, lam, local, pair, pi, prop, sigma, snd, univ, var};
pub use parts::Part;
pub use seen::Seen;
pub use substitution::subst;
pub use term::{MAX_DEPTH, MAX_SIZE, Node, Term};
pub use weight::{Extent, locals_count_instances, measure};
