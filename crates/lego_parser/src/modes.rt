//! What may come next, and what is awaited.
ghost use Rattle.std.specs.Prelude.{map};
ghost use Rattle.lego_parser.specs.private.Trees.{built_binding};
ghost use Rattle.lego_grammar.specs.private.Machine.{Between as IsBetween};
ghost use Rattle.lego_parser.specs.private.Scanning.{IsStage};

use crate::scan::Stage;
use lego_base::Place;
use lego_grammar::{Act, Binding, Kind, Part, Surface};
use lego_term::{List, Mark};

/// Names that are bound together, with their places.
#[derive(Drop)]
pub(crate) struct Names {
    pub places: Vec<Place>,
    pub names: Vec<u32>,
}

/// A name with its place.
#[derive(Drop, Clone, Copy)]
pub(crate) struct NameAt {
    pub place: Place,
    pub name: u32,
}

/// A context command inside a binding, whose `[` stands at the place, behind these bindings.
#[derive(Drop)]
pub(crate) struct OpenContext {
    pub place: Place,
    pub bindings: Vec<Binding>,
}

/// Where names are bound.
#[derive(Drop)]
pub(crate) enum Site {
    Term(Kind),
    Context(OpenContext),
}

/// What a whole term of a command is for.
#[derive(Drop, Clone, Copy)]
pub(crate) enum Use {
    Show,
    Refine,
    Claim,
    Equiv,
    Head,
    Normal,
    Goal(Option<u32>),
}

/// What is awaited.
#[derive(Drop)]
pub(crate) enum Frame {
    /// The argument of a function that has these arguments already.
    Apply {
        mark: Mark,
        function: Surface,
        arguments: Vec<(Mark, Surface)>,
    },
    /// The right side of a `#`.
    Hash(Surface),
    /// The right side of an arrow.
    Arrow(Surface),
    /// The body of a binder.
    Body {
        kind: Kind,
        mark: Mark,
        names: Vec<u32>,
        domain: Surface,
    },
    /// The body of a local definition.
    Local(u32, Surface),
    /// The end of parentheses.
    Parens,
    /// The second component of a pair.
    Second(Surface),
    /// The type of a pair.
    Type(Surface, Surface),
    /// The domain of names.
    Domain(Site, Mark, Names),
    /// The value of a name.
    Value(Site, NameAt),
    /// The type of a definition of a context command.
    Stated(OpenContext, NameAt, Surface),
    /// The end of the command's term.
    Whole(Use),
}

/// An operand with its projections so far.
#[derive(Drop)]
pub(crate) struct Post {
    pub of: Surface,
    pub parts: Vec<Part>,
}

/// A function with its arguments so far.
#[derive(Drop)]
pub(crate) struct Spine {
    pub function: Surface,
    pub arguments: Vec<(Mark, Surface)>,
}

/// What may come next.
#[derive(Drop)]
pub(crate) enum Mode {
    Start,
    /// An operand.
    Want,
    /// An operand, or the numeral of a level.
    WantLevel(Surface),
    /// The end of a level.
    CloseLevel(u32),
    /// What goes on behind an operand; behind `Type` a level may.
    Behind(bool, Post),
    WantPart(Post),
    WantGoal(Place),
    WantName(Site, Names),
    BehindName(Site, Names),
    /// A binding of a context command, or its end.
    Between(Vec<Binding>),
    BehindGoal,
    BehindGoalName(NameAt),
    WantIntros(Names),
    WantNext,
    WantUndo,
    WantForget,
    WantDischarge,
    BehindSave,
    WantEnd(Act),
    Done(Act),
}

impl Frame {
    ghost use Rattle.std.specs.Prelude.{◌≡◌};
    ghost use Rattle.lego_grammar.specs.private.Machine.{nests as nests_so, sums as sums_so, pending};
    ghost use Rattle.lego_parser.specs.private.Frames.{frame_of};

    /// Whether what stands behind it is one level deeper.
    pub fn nests(&self) -> bool
        ensures { result ≡ nests_so (frame_of self.now) }
    {
        !matches!(self, Frame::Apply { .. } | Frame::Whole(_))
    }

    /// Whether the last part of a sum ends it.
    pub fn sums(&self) -> bool
        ensures { result ≡ sums_so (frame_of self.now) }
    {
        matches!(self, Frame::Apply { .. } | Frame::Hash(_))
    }

    /// Whether a whole term ends it.
    pub fn is_pending(&self) -> bool
        ensures { result ≡ pending (frame_of self.now) }
    {
        matches!(
            self,
            Frame::Apply { .. }
                | Frame::Hash(_)
                | Frame::Arrow(_)
                | Frame::Body { .. }
                | Frame::Local(..)
        )
    }
}

impl Site {
    ghost use Rattle.std.specs.Prelude.{◌≡◌};
    ghost use Rattle.lego_grammar.specs.private.Machine.{defines as defines_so, hides as hides_so};
    ghost use Rattle.lego_parser.specs.private.Frames.{site_of};

    /// Whether a name may be given a value.
    pub fn defines(&self) -> bool
        ensures { result ≡ defines_so (site_of self.now) }
    {
        !matches!(self, Site::Term(Kind::Pi | Kind::Sigma))
    }

    /// Whether names may be implicit.
    pub fn hides(&self) -> bool
        ensures { result ≡ hides_so (site_of self.now) }
    {
        !matches!(self, Site::Term(Kind::Sigma))
    }
}

impl Mode {
    ghost use Rattle.lego_parser.specs.private.Frames.{mode_of};

    /// Where a context command stands in this mode.
    pub fn stage(&self) -> Stage
        ensures { IsStage result (mode_of self.now) }
    {
        match self {
            Mode::Between(bindings) => stage_behind(bindings.as_slice()),
            Mode::Done(_) => Stage::Ended,
            _ => Stage::Inside,
        }
    }
}

impl Names {
    ghost use Rattle.std.specs.Prelude.{◌≡◌, ◌≢◌, [], MatchOption};
    ghost use Rattle.lego_grammar.specs.Written.{Intros};
    ghost use Rattle.lego_grammar.specs.private.Machine.{Done as DoneMode};
    ghost use Rattle.lego_parser.specs.private.Frames.{mode_of};

    /// The command `Intros` ends, where it has a name.
    pub fn done(self) -> Option<Mode>
        ensures { MatchOption result (self.names.items ≡ []) (λ mode. (mode_of mode ≡ DoneMode (Intros self.places.items self.names.items)) × (self.names.items ≢ [])) }
    {
        let Names { places, names } = self;
        if names.is_empty() {
            return None;
        }
        Some(Mode::Done(Act::Intros {
            places: List::of(places),
            names: List::of(names),
        }))
    }
}

/// Where a context command stands behind these bindings.
fn stage_behind(bindings: &[Binding]) -> Stage
    ensures { IsStage result (IsBetween (map built_binding bindings.now)) }
{
    match bindings {
        [] => Stage::Nothing,
        [_, ..] => Stage::Behind,
    }
}
