//! Written commands.
use crate::surface::Surface;
use lego_base::Place;
use lego_term::{List, Mark};

/// One binding of a context command, with the places of its names and of its `[`.
#[derive(Drop)]
pub struct Binding {
    pub places: List<Place>,
    pub names: List<u32>,
    pub kind: BindingKind,
    pub place: Place,
}

#[derive(Drop)]
pub enum BindingKind {
    /// `[x:ty]`, or with the vertical bar where the mark is implicit.
    Assume { mark: Mark, ty: Surface },
    /// `[x=body]` or `[x=body:ty]`.
    Define { body: Surface, ty: Option<Surface> },
}

/// A command, at the place of its first token.
#[derive(Drop)]
pub struct Command {
    pub place: Place,
    pub act: Act,
}

/// What a command asks for.
#[derive(Drop)]
pub enum Act {
    Bind {
        bindings: List<Binding>,
    },
    Goal {
        name: Option<u32>,
        ty: Surface,
    },
    Intros {
        places: List<Place>,
        names: List<u32>,
    },
    Refine {
        term: Surface,
    },
    Claim {
        ty: Surface,
    },
    Next {
        number: u32,
    },
    Assumption,
    Equiv {
        ty: Surface,
    },
    Save {
        name: Option<u32>,
    },
    KillRef,
    Undo {
        count: u32,
    },
    Forget {
        place: Place,
        name: u32,
    },
    Discharge {
        place: Place,
        name: u32,
    },
    Prf,
    Ctxt,
    Hnf {
        term: Surface,
    },
    Normal {
        term: Surface,
    },
    Explicit,
    Implicit,
    /// A term alone.
    Show {
        term: Surface,
    },
}
