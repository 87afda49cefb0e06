//! The explicit reading of written terms, in which nothing is inserted: the core term that a
//! written term is over a context, or why there is none.
#![tactic(auto)]

mod annotation;
mod call;
mod fault;
mod laws;
mod leaves;
mod places;
mod reading;
mod scope;
mod setting;
mod values;

pub use call::read;
pub use fault::ReadFault;
pub use laws::{parsed_terms_can_be_read, read_cores_keep_binders};
