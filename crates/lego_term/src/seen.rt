use crate::binder::Binder;
use crate::list::List;
use crate::term::Term;

/// A term with the binders around it, the outermost first.
#[derive(Drop)]
pub struct Seen {
    pub under: List<Binder>,
    pub term: Term,
}
