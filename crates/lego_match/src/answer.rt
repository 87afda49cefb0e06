use lego_term::Term;

/// A hole, and what is to be its body once it is closed over the hole's hypotheses, under which
/// alone it stands.
#[derive(Drop)]
pub struct Candidate {
    pub hole: u32,
    pub body: Term,
}
