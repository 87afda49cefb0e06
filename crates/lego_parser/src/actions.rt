//! The moves at the beginning of a command, inside its actions, and between the bindings
//! of a context command; and one move of the whole machine.
ghost use Rattle.std.specs.Prelude.{◌≡◌, ◌≢◌, ℕ, [], map, MatchOption};
ghost use Rattle.lego_base.specs.declared.place.Place.{Place};
ghost use Rattle.lego_lexer.specs.declared.token.TokenKind.{TokenKind};
ghost use Rattle.lego_grammar.specs.Written.{Bindings};
ghost use Rattle.lego_parser.specs.private.Trees.{built_binding, built_act};
ghost use Rattle.lego_grammar.specs.private.Machine.{WantNext as WantNextMode, WantUndo as WantUndoMode, WantForget as WantForgetMode, WantDischarge as WantDischargeMode, BehindSave as BehindSaveMode, WantEnd as WantEndMode, Done as DoneMode};
ghost use Rattle.lego_parser.specs.private.Frames.{mode_of};
ghost use Rattle.lego_parser.specs.private.Stack.{Acts};

use crate::machine::Machine;
use crate::modes::{Frame, Mode, NameAt, Names, OpenContext, Site, Use};
use lego_base::Place;
use lego_grammar::{Act, Binding, Surface};
use lego_lexer::{Symbol, TokenKind, Word};
use lego_term::List;
use std::alloc::AllocError;

impl<const BUILDING: bool> Machine<BUILDING> {
    ghost use Rattle.std.specs.Prelude.{◌∷◌, ◌++◌, false, None, IfOk};
    ghost use Rattle.lego_grammar.specs.Written.{Named};
    ghost use Rattle.lego_grammar.specs.private.Machine.{Whole as WholeFrame, ToGoal, BehindGoal as BehindGoalMode, BehindGoalName as BehindGoalNameMode, WantIntros as WantIntrosMode, Want as WantMode, state, moves as goes, level_closes, goal_numbered, names_one, operand as operand_so, behind as behind_so, starts as starts_so, acts as acts_so, between as between_so, move as move_so, keep as keeps};
    ghost use Rattle.lego_parser.specs.private.Frames.{site_of, use_of};
    ghost use Rattle.lego_parser.specs.private.Stack.{stack, Moves};

    /// An operand that begins a whole term.
    fn whole_operand(
        &mut self,
        purpose: Use,
        kind: TokenKind,
        place: Place,
        name: u32,
    ) -> Result<Option<Mode>, AllocError>
        ensures { Moves (operand_so BUILDING kind place name (WholeFrame (use_of purpose) ∷ stack self.old)) result self.new }
    {
        self.stack.push(Frame::Whole(purpose))?;
        self.operand(kind, place, name)
    }

    fn whole(&mut self, purpose: Use) -> Result<Option<Mode>, AllocError>
        ensures { Moves (goes WantMode (WholeFrame (use_of purpose) ∷ stack self.old)) result self.new }
    {
        self.stack.push(Frame::Whole(purpose))?;
        Ok(Some(Mode::Want))
    }

    /// The first token of a command that is no context command.
    fn starts(
        &mut self,
        kind: TokenKind,
        place: Place,
        name: u32,
    ) -> Result<Option<Mode>, AllocError>
        ensures { Moves (starts_so BUILDING kind place name (stack self.old)) result self.new }
    {
        match kind {
            TokenKind::Word(Word::Goal) => Ok(Some(Mode::BehindGoal)),
            TokenKind::Word(Word::Intros) => Ok(Some(Mode::WantIntros(self.no_names()))),
            TokenKind::Word(Word::Refine) => self.whole(Use::Refine),
            TokenKind::Word(Word::Claim) => self.whole(Use::Claim),
            TokenKind::Word(Word::Equiv) => self.whole(Use::Equiv),
            TokenKind::Word(Word::Hnf) => self.whole(Use::Head),
            TokenKind::Word(Word::Normal) => self.whole(Use::Normal),
            TokenKind::Word(Word::Next) => Ok(Some(Mode::WantNext)),
            TokenKind::Word(Word::Undo) => Ok(Some(Mode::WantUndo)),
            TokenKind::Word(Word::Forget) => Ok(Some(Mode::WantForget)),
            TokenKind::Word(Word::Discharge) => Ok(Some(Mode::WantDischarge)),
            TokenKind::Word(Word::Save) => Ok(Some(Mode::BehindSave)),
            TokenKind::Word(Word::Assumption) => Ok(Some(Mode::WantEnd(Act::Assumption))),
            TokenKind::Word(Word::KillRef) => Ok(Some(Mode::WantEnd(Act::KillRef))),
            TokenKind::Word(Word::Prf) => Ok(Some(Mode::WantEnd(Act::Prf))),
            TokenKind::Word(Word::Ctxt) => Ok(Some(Mode::WantEnd(Act::Ctxt))),
            TokenKind::Word(Word::Explicit) => Ok(Some(Mode::WantEnd(Act::Explicit))),
            TokenKind::Word(Word::Implicit) => Ok(Some(Mode::WantEnd(Act::Implicit))),
            _ => self.whole_operand(Use::Show, kind, place, name),
        }
    }

    fn behind_goal(
        &mut self,
        kind: TokenKind,
        place: Place,
        name: u32,
    ) -> Result<Option<Mode>, AllocError>
        ensures { Moves (acts_so BUILDING kind place name BehindGoalMode (stack self.old)) result self.new }
    {
        match kind {
            TokenKind::Name => Ok(Some(Mode::BehindGoalName(NameAt { place, name }))),
            _ => self.whole_operand(Use::Goal(None), kind, place, name),
        }
    }

    /// Behind `Goal` and a name, which is the goal's where a `:` follows.
    fn behind_goal_name(
        &mut self,
        kind: TokenKind,
        place: Place,
        name: u32,
        goal: NameAt,
    ) -> Result<Option<Mode>, AllocError>
        ensures { Moves (acts_so BUILDING kind place name (BehindGoalNameMode goal.place goal.name) (stack self.old)) result self.new }
    {
        match kind {
            TokenKind::Symbol(Symbol::Colon) => self.whole(Use::Goal(Some(goal.name))),
            _ => self.goal_goes_on(kind, place, name, goal),
        }
    }

    fn goal_goes_on(
        &mut self,
        kind: TokenKind,
        place: Place,
        name: u32,
        goal: NameAt,
    ) -> Result<Option<Mode>, AllocError>
        ensures { Moves (behind_so BUILDING kind place name false (keeps BUILDING (Named goal.place goal.name)) (WholeFrame (ToGoal None) ∷ stack self.old)) result self.new }
    {
        let tree = self.keep(Surface::Name {
            place: goal.place,
            name: goal.name,
        });
        let post = self.post(tree);
        self.stack.push(Frame::Whole(Use::Goal(None)))?;
        self.behind(kind, place, name, false, post)
    }

    fn intros(
        &mut self,
        kind: TokenKind,
        place: Place,
        name: u32,
        names: Names,
    ) -> Result<Option<Mode>, AllocError>
        ensures { Moves (acts_so BUILDING kind place name (WantIntrosMode names.places.items names.names.items) (stack self.old)) result self.new }
    {
        match kind {
            TokenKind::Name => {
                let names = self.one_more(names, place, name)?;
                Ok(Some(Mode::WantIntros(names)))
            }
            TokenKind::Symbol(Symbol::Semicolon) => Ok(names.done()),
            _ => Ok(None),
        }
    }

    /// One name more.
    fn one_more(&self, names: Names, place: Place, name: u32) -> Result<Names, AllocError>
        ensures { IfOk result (λ r. (r.places.items ≡ names.places.items ++ place ∷ []) × (r.names.items ≡ names.names.items ++ name ∷ [])) }
    {
        let Names {
            mut places,
            mut names,
        } = names;
        places.push(place)?;
        names.push(name)?;
        Ok(Names { places, names })
    }

    fn between(
        &mut self,
        kind: TokenKind,
        place: Place,
        bindings: Vec<Binding>,
    ) -> Result<Option<Mode>, AllocError>
        ensures { Moves (between_so kind place (map built_binding bindings.items) (stack self.old)) result self.new }
    {
        match kind {
            TokenKind::Symbol(Symbol::OpenSquare) => Ok(Some(Mode::WantName(
                Site::Context(OpenContext { place, bindings }),
                self.no_names(),
            ))),
            TokenKind::Symbol(Symbol::Semicolon) => Ok(finished(bindings)),
            _ => Ok(None),
        }
    }

    /// A name that is bound.
    fn bound_name(
        &mut self,
        kind: TokenKind,
        place: Place,
        name: u32,
        site: Site,
        names: Names,
    ) -> Result<Option<Mode>, AllocError>
        ensures { Moves (names_one kind place name (site_of site) names.places.items names.names.items (stack self.old)) result self.new }
    {
        match kind {
            TokenKind::Name => {
                let names = self.one_more(names, place, name)?;
                Ok(Some(Mode::BehindName(site, names)))
            }
            _ => Ok(None),
        }
    }

    /// One token, with the number of the name that it is: what may come behind it, or
    /// nothing where it may not come.
    pub fn step(
        &mut self,
        mode: Mode,
        kind: TokenKind,
        place: Place,
        name: u32,
    ) -> Result<Option<Mode>, AllocError>
        ensures { Moves (move_so BUILDING kind place name (state (mode_of mode) (stack self.old))) result self.new }
    {
        match mode {
            Mode::Start => self.starts(kind, place, name),
            Mode::Want => self.operand(kind, place, name),
            Mode::WantLevel(value) => self.behind_paren(kind, place, name, value),
            Mode::CloseLevel(level) => self.close_level(kind, level),
            Mode::Behind(level, post) => self.behind(kind, place, name, level, post),
            Mode::WantPart(post) => self.part(kind, post),
            Mode::WantGoal(at) => self.goal_number(kind, at),
            Mode::WantName(site, names) => self.bound_name(kind, place, name, site, names),
            Mode::BehindName(site, names) => self.behind_name(kind, site, names),
            Mode::Between(bindings) => self.between(kind, place, bindings),
            Mode::BehindGoal => self.behind_goal(kind, place, name),
            Mode::BehindGoalName(goal) => self.behind_goal_name(kind, place, name, goal),
            Mode::WantIntros(names) => self.intros(kind, place, name, names),
            Mode::WantNext => Ok(next(kind)),
            Mode::WantUndo => Ok(undo(kind)),
            Mode::WantForget => Ok(forget(kind, place, name)),
            Mode::WantDischarge => Ok(discharge(kind, place, name)),
            Mode::BehindSave => Ok(save(kind, name)),
            Mode::WantEnd(act) => Ok(ended(kind, act)),
            Mode::Done(act) => Ok(behind_end(act)),
        }
    }

    fn close_level(&mut self, kind: TokenKind, level: u32) -> Result<Option<Mode>, AllocError>
        ensures { Moves (level_closes BUILDING kind level (stack self.old)) result self.new }
    {
        match kind {
            TokenKind::Symbol(Symbol::CloseParen) => {
                let tree = self.keep(Surface::TypeAt { level });
                Ok(Some(Mode::Behind(false, self.post(tree))))
            }
            _ => Ok(None),
        }
    }

    fn goal_number(&mut self, kind: TokenKind, at: Place) -> Result<Option<Mode>, AllocError>
        ensures { Moves (goal_numbered BUILDING kind at (stack self.old)) result self.new }
    {
        match kind {
            TokenKind::Number(number) => {
                let tree = self.keep(Surface::Hole { place: at, number });
                Ok(Some(Mode::Behind(false, self.post(tree))))
            }
            _ => Ok(None),
        }
    }
}

/// A context command ends, where it has a binding.
fn finished(bindings: Vec<Binding>) -> Option<Mode>
    ensures { MatchOption result (bindings.items ≡ []) (λ mode. (mode_of mode ≡ DoneMode (Bindings (map built_binding bindings.items))) × (bindings.items ≢ [])) }
{
    if bindings.is_empty() {
        None
    } else {
        Some(Mode::Done(Act::Bind {
            bindings: List::of(bindings),
        }))
    }
}

/// Behind `Next`.
fn next(kind: TokenKind) -> Option<Mode>
    ensures { (place : Place) (name : ℕ) → Acts kind place name WantNextMode result }
{
    match kind {
        TokenKind::Number(number) => Some(Mode::WantEnd(Act::Next { number })),
        _ => None,
    }
}

/// Behind `Undo`.
fn undo(kind: TokenKind) -> Option<Mode>
    ensures { (place : Place) (name : ℕ) → Acts kind place name WantUndoMode result }
{
    match kind {
        TokenKind::Number(count) => Some(Mode::WantEnd(Act::Undo { count })),
        _ => None,
    }
}

/// Behind `Forget`.
fn forget(kind: TokenKind, place: Place, name: u32) -> Option<Mode>
    ensures { Acts kind place name WantForgetMode result }
{
    match kind {
        TokenKind::Name => Some(Mode::WantEnd(Act::Forget { place, name })),
        _ => None,
    }
}

/// Behind `Discharge`.
fn discharge(kind: TokenKind, place: Place, name: u32) -> Option<Mode>
    ensures { Acts kind place name WantDischargeMode result }
{
    match kind {
        TokenKind::Name => Some(Mode::WantEnd(Act::Discharge { place, name })),
        _ => None,
    }
}

/// Behind `Save`.
fn save(kind: TokenKind, name: u32) -> Option<Mode>
    ensures { (place : Place) → Acts kind place name BehindSaveMode result }
{
    match kind {
        TokenKind::Name => Some(Mode::WantEnd(Act::Save { name: Some(name) })),
        TokenKind::Symbol(Symbol::Semicolon) => Some(Mode::Done(Act::Save { name: None })),
        _ => None,
    }
}

/// Where only the end of a command may come.
fn ended(kind: TokenKind, act: Act) -> Option<Mode>
    ensures { (place : Place) (name : ℕ) → Acts kind place name (WantEndMode (built_act act)) result }
{
    match kind {
        TokenKind::Symbol(Symbol::Semicolon) => Some(Mode::Done(act)),
        _ => None,
    }
}

/// Behind the end of a command nothing may come.
fn behind_end(act: Act) -> Option<Mode>
    ensures { (kind : TokenKind) (place : Place) (name : ℕ) → Acts kind place name (DoneMode (built_act act)) result }
{
    drop(act);
    None
}
