//! The trees of written terms.
use lego_base::Place;
use lego_term::{List, Mark};
use sqlite_items::Boxed;

/// What a binder makes: `[x:A]M`, `{x:A}B` or `<x:A>B`.
#[derive(Debug, Clone, Copy, PartialEq, Eq)]
pub enum Kind {
    Lambda,
    Pi,
    Sigma,
}

/// Which component of a pair a projection takes.
#[derive(Debug, Clone, Copy, PartialEq, Eq)]
pub enum Part {
    First,
    Second,
}

/// A written term, as it stands in a command. Names are numbers of the `Names` that
/// `parse` was given.
#[derive(Drop)]
pub enum Surface {
    Name {
        place: Place,
        name: u32,
    },
    Prop,
    /// `Type` without a level.
    AnyType {
        place: Place,
    },
    /// `Type(level)`.
    TypeAt {
        level: u32,
    },
    /// `?number`.
    Hole {
        place: Place,
        number: u32,
    },
    /// A binder. One of several names stands for nested binders that repeat the domain
    /// with its places; one without names is an arrow (`Pi`) or a `#` (`Sigma`).
    Bind {
        kind: Kind,
        mark: Mark,
        names: List<u32>,
        domain: Boxed<Surface>,
        body: Boxed<Surface>,
    },
    /// `[name=value]body`.
    Local {
        name: u32,
        value: Boxed<Surface>,
        body: Boxed<Surface>,
    },
    /// A function applied to its arguments, one after the other.
    Apply {
        function: Boxed<Surface>,
        arguments: List<(Mark, Surface)>,
    },
    /// `(first,second:ty)`.
    Pair {
        first: Boxed<Surface>,
        second: Boxed<Surface>,
        ty: Boxed<Surface>,
    },
    /// A run of projections, the innermost first.
    Project {
        of: Boxed<Surface>,
        parts: List<Part>,
    },
}
