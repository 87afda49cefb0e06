//! A term as a command, `Hnf` and `Normal`: its type, its head form, its normal form.
ghost use Rattle.std.specs.Prelude.{◌≡◌, false, OnErr, IfOk, IfErr};
ghost use Rattle.lego_context.specs.Entries.{HasNoHole};
ghost use Rattle.lego_grammar.specs.Surface.{written};
ghost use Rattle.lego_reading.specs.Calls.{CanBeRead};
ghost use Rattle.lego_session.specs.commands.Show.{ShowsType, ShowsForm, HasNoType, HasNoForm};
ghost use Rattle.lego_session.specs.private.Binding.{Extends, IsOverContext};
ghost use Rattle.lego_session.specs.private.Refusals.{IsRefusedSo, IsAnswerOf};
ghost use Rattle.lego_session.specs.private.Shown.{TypingFailsSo, FormFails, ReachesForm, TypesSo, form_of};

use crate::commands::terms::read_at;
use crate::parts::Parts;
use crate::refusal::{Reason, Refusal};
use crate::session::Answer;
use crate::text::{term_line, typing_line};
use lego_base::Names;
use lego_context::{Context, Settled};
use lego_grammar::Surface;
use lego_inference::At;
use lego_reduce::{head, normal};
use lego_term::{List, Term};
use std::alloc::Global;

/// What is shown of a term besides its type.
#[derive(Debug, Clone, Copy, PartialEq, Eq)]
pub(crate) enum Form {
    Head,
    Normal,
}

impl Parts {
    /// Shows a term and its type; the command stands at the place that is asked.
    pub(crate) fn show(
        &mut self,
        names: &Names,
        term: &Surface,
        asked: At,
    ) -> Result<Answer, Refusal>
        requires read { CanBeRead (written term.now) }
        requires no_hole { HasNoHole self.old.state.context.entries }
        ensures ok { IfOk result (λ answer. ShowsType names.now self.old.state.context asked.place (written term.now) answer.text) }
        ensures counts { IfOk result (λ answer. answer.step ≡ false) }
        ensures cause { IfErr result (λ refusal. IsRefusedSo names.now self.old.state.context.entries (HasNoType asked.limit self.old.state.context asked.place (written term.now)) refusal.place refusal.cause refusal.text) }
        ensures state { self.new ≡ self.old }
    {
        let extent = self.state.extent();
        let shown = typing(self.alloc, names, &mut self.state.context, term, asked);
        self.state.cut_to(extent);
        self.answer(names, shown)
    }

    /// Shows a form of a term, which has a type; the command stands at the place that is asked.
    pub(crate) fn show_form(
        &mut self,
        names: &Names,
        form: Form,
        term: &Surface,
        asked: At,
    ) -> Result<Answer, Refusal>
        requires read { CanBeRead (written term.now) }
        requires no_hole { HasNoHole self.old.state.context.entries }
        ensures ok { IfOk result (λ answer. ShowsForm (form_of form) names.now asked.limit self.old.state.context asked.place (written term.now) answer.text) }
        ensures counts { IfOk result (λ answer. answer.step ≡ false) }
        ensures cause { IfErr result (λ refusal. IsRefusedSo names.now self.old.state.context.entries (HasNoForm (form_of form) asked.limit self.old.state.context asked.place (written term.now)) refusal.place refusal.cause refusal.text) }
        ensures state { self.new ≡ self.old }
    {
        let extent = self.state.extent();
        let shown = form_text(
            self.alloc,
            names,
            &mut self.state.context,
            form,
            term,
            asked,
        );
        self.state.cut_to(extent);
        self.answer(names, shown)
    }

    /// The answer of a command that only prints, or its refusal over the entries as they are.
    fn answer(&self, names: &Names, shown: Result<Vec<u8>, Reason>) -> Result<Answer, Refusal>
        requires { HasNoHole self.now.state.context.entries }
        ensures { IsAnswerOf names.now self.now.state.context.entries shown result }
    {
        match shown {
            Ok(text) => Ok(Answer {
                step: false,
                text: List::of(text),
            }),
            Err(reason) => Err(self.refusal(names, reason.place, reason.cause)),
        }
    }
}

/// The line of a term and its type.
fn typing(
    alloc: Global,
    names: &Names,
    context: &mut Context,
    term: &Surface,
    asked: At,
) -> Result<Vec<u8>, Reason>
    requires read { CanBeRead (written term.now) }
    requires no_hole { HasNoHole context.old.entries }
    ensures ok { IfOk result (λ text. ShowsType names.now context.old asked.place (written term.now) text.items) }
    ensures cause { IfErr result (TypingFailsSo asked.limit context.old asked.place (written term.now)) }
    ensures extends { Extends context.old context.new }
{
    let (core, settled) = typed(alloc, context, term, asked)?;
    let ty = &settled.judged.ty;
    match typing_line(alloc, names, context, &settled.values, &core, ty) {
        Ok(text) => Ok(text),
        Err(_) => Err(Reason::memory(asked.place)),
    }
}

/// The line of a form of a term, which has a type.
fn form_text(
    alloc: Global,
    names: &Names,
    context: &mut Context,
    form: Form,
    term: &Surface,
    asked: At,
) -> Result<Vec<u8>, Reason>
    requires read { CanBeRead (written term.now) }
    requires no_hole { HasNoHole context.old.entries }
    ensures ok { IfOk result (λ text. ShowsForm (form_of form) names.now asked.limit context.old asked.place (written term.now) text.items) }
    ensures cause { IfErr result (FormFails (form_of form) asked.limit context.old asked.place (written term.now)) }
    ensures extends { Extends context.old context.new }
{
    let (core, settled) = typed(alloc, context, term, asked)?;
    let reached = reach(alloc, context, form, core, asked)?;
    match term_line(alloc, names, context, &settled.values, &reached) {
        Ok(text) => Ok(text),
        Err(_) => Err(Reason::memory(asked.place)),
    }
}

/// The core of a written term, and its type with the least levels.
fn typed(
    alloc: Global,
    context: &mut Context,
    term: &Surface,
    asked: At,
) -> Result<(Term, Settled), Reason>
    requires { CanBeRead (written term.now) }
    ensures { TypesSo context.old (written term.now) asked context.new result }
{
    let core = read_at(alloc, context, term, asked)?;
    match context.typed(&core, asked) {
        Ok(settled) => Ok((core, settled)),
        Err(fault) => Err(Reason::untyped(asked.place, fault)),
    }
}

/// The form of a term over the context.
fn reach(
    alloc: Global,
    context: &Context,
    form: Form,
    core: Term,
    asked: At,
) -> Result<Term, Reason>
    requires { IsOverContext context.now core }
    ensures { ReachesForm (form_of form) context.now.entries core asked result }
{
    let bodies = context.bodies();
    let reduced = match form {
        Form::Head => head(alloc, bodies, &core, asked.limit),
        Form::Normal => normal(alloc, bodies, &core, asked.limit),
    };
    match reduced {
        Ok(reduced) => Ok(reduced.term),
        Err(fault) => Err(Reason::unreduced(alloc, asked.place, core, fault)),
    }
}
