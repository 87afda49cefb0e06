//! First-order matching of two types: the first pair of parts of their normal forms that don't
//! agree, and the hole and body that it determines.
#![tactic(auto)]

mod agreement;
mod answer;
mod fault;
mod holes;
mod laws;
mod lowering;
mod matching;
mod stop;
mod walk;

pub use answer::Candidate;
pub use fault::MatchFault;
pub use laws::{
    agreement_is_of_normal_forms, answers_are_one, clashes_are_final, pairs_are_of_normal_forms,
    pairs_are_one, pairs_disagree,
};
pub use matching::candidate;
