use lego_term::Term;

/// Why two terms were not compared, or are not related.
#[derive(Drop)]
pub enum CompareFault {
    /// The terms are related at no values of their levels. `left` and `right` are head forms
    /// that one path of parts reaches from both sides, under `deeper` more binders, and that
    /// have different roots.
    Differ {
        left: Term,
        right: Term,
        deeper: u32,
    },
    /// The normalisation sequences of both terms together have more steps than the limit.
    Budget,
    /// A term that one of the normalisation sequences reaches within the limit has a subtree
    /// of this size and depth, which passes a limit of terms; or it has a path of more than
    /// 2,000 parts, and these are 1,048,577 and 2,001.
    TooLarge {
        size: u64,
        depth: u32,
    },
    /// Memory ran out.
    Memory,
}
