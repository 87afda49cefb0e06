//! Context commands: the entries of their bindings, all or none.
ghost use Rattle.std.specs.Prelude.{◌≡◌, ◌<◌, ◌||◌, ℕ, is_some, true, map, length, slice_get, nat_eq, Some, OnOk, OnErr, IfOk, IfErr, List as Items};
ghost use Rattle.std.specs.List.{list_any};
ghost use Rattle.lego_context.specs.Contexts.{Contents};
ghost use Rattle.lego_context.specs.Entries.{position_of, HasNoHole};
ghost use Rattle.lego_grammar.specs.Surface.{written_binding};
ghost use Rattle.lego_grammar.specs.Written.{Bindings};
ghost use Rattle.lego_undo.specs.Histories.{GoesWith, HasExtent, front};
ghost use Rattle.lego_undo.specs.Changes.{Notes};
ghost use Rattle.lego_session.specs.Step.{IsRefusal};
ghost use Rattle.lego_session.specs.commands.Bindings.{AreNew, AddsBindings, Binds, BindsAll};
ghost use Rattle.lego_session.specs.private.Binding.{AreRight, IsRight, IsFirstUsed, Extends, BindFails, BindAllFails, ShowsAdded};
ghost use Rattle.lego_session.specs.private.Parts.{session_of};

use crate::commands::entries::{assume, define};
use crate::parts::Parts;
use crate::refusal::{Cause, Reason, Refusal};
use crate::session::Answer;
use crate::text::entry_lines;
use indexmap::IndexSet;
use lego_base::{Names, Place};
use lego_context::Context;
use lego_grammar::{Binding, BindingKind};
use lego_inference::At;
use lego_term::List;
use lego_undo::{Extent, State};
use std::alloc::{AllocError, Global};

impl Parts {
    /// Adds the entries of the bindings of a command whose first token stands at the place.
    pub(crate) fn bind(
        &mut self,
        names: &Names,
        place: Place,
        bindings: &[Binding],
        limit: u64,
    ) -> Result<Answer, Refusal>
        requires right { AreRight (map written_binding bindings.now) }
        requires no_hole { HasNoHole self.old.state.context.entries }
        requires goes { GoesWith self.old.history self.old.state }
        ensures ok { IfOk result (λ answer. AddsBindings names.now (session_of self.old) (map written_binding bindings.now) answer.text (session_of self.new)) }
        ensures counts { IfOk result (λ answer. answer.step ≡ true) }
        ensures cause { IfErr result (λ refusal. IsRefusal names.now limit (session_of self.old) (record { place = place; act = Bindings (map written_binding bindings.now) }) refusal.place refusal.cause refusal.text) }
        ensures err { OnErr result ((self.new.state ≡ self.old.state) × (self.new.history ≡ self.old.history)) }
        ensures still_goes { GoesWith self.new.history self.new.state }
    {
        let extent = self.state.extent();
        if let Err(reason) = bind_all(self.alloc, &mut self.state, bindings, limit) {
            let refusal = self.refusal(names, reason.place, reason.cause);
            self.state.cut_to(extent);
            return Err(refusal);
        }
        let Ok(text) = self.note_added(names, extent) else {
            self.state.cut_to(extent);
            return Err(Refusal::memory(self.alloc, place));
        };
        Ok(Answer {
            step: true,
            text: List::of(text),
        })
    }

    /// Notes what was added behind an extent as a step, and gives a line for each new entry.
    fn note_added(&mut self, names: &Names, extent: Extent) -> Result<Vec<u8>, AllocError>
        requires within { HasExtent extent self.old.state }
        requires no_hole { HasNoHole self.old.state.context.entries }
        requires goes { GoesWith self.old.history (front extent self.old.state) }
        ensures text { IfOk result (λ text. ShowsAdded names.now self.old.state.context extent.entries text.items) }
        ensures noted { OnOk result (Notes self.old.history (front extent self.old.state) self.old.state self.new.history) }
        ensures state { self.new.state ≡ self.old.state }
        ensures err { OnErr result (self.new.history ≡ self.old.history) }
    {
        let context = &self.state.context;
        let values = context.least()?;
        let text = entry_lines(self.alloc, names, context, &values, extent.entries)?;
        self.history.note_growth(&self.state, extent)?;
        Ok(text)
    }
}

/// Makes the entries of all the bindings; a refused one leaves those of the bindings before.
pub(crate) fn bind_all(
    alloc: Global,
    state: &mut State,
    bindings: &[Binding],
    limit: u64,
) -> Result<(), Reason>
    requires right { AreRight (map written_binding bindings.now) }
    requires no_hole { HasNoHole state.old.context.entries }
    ensures ok { OnOk result (BindsAll state.old.context (map written_binding bindings.now) state.new.context) }
    ensures cause { IfErr result (BindAllFails limit state.old.context (map written_binding bindings.now) state.new.context) }
    ensures extends { Extends state.old.context state.new.context }
{
    for binding in bindings {
        bind(alloc, state, binding, limit)?;
    }
    Ok(())
}

/// Makes the entries of one binding, or none.
fn bind(alloc: Global, state: &mut State, binding: &Binding, limit: u64) -> Result<(), Reason>
    requires right { IsRight (written_binding binding.now) }
    requires no_hole { HasNoHole state.old.context.entries }
    ensures ok { OnOk result (Binds state.old.context (written_binding binding.now) state.new.context) }
    ensures cause { IfErr result (BindFails limit state.old.context (written_binding binding.now)) }
    ensures err { OnErr result (state.new ≡ state.old) }
    ensures extends { Extends state.old.context state.new.context }
{
    let names = binding.names.items();
    let Ok(used) = first_used(alloc, &state.context, names) else {
        return Err(Reason::memory(binding.place));
    };
    if let Some(at) = used {
        return Err(in_use(binding, at));
    }
    let extent = state.extent();
    if let Err(reason) = make(alloc, &mut state.context, binding, limit) {
        state.cut_to(extent);
        return Err(reason);
    }
    Ok(())
}

/// Makes the entries of a binding whose names are new; where one is refused, those before it stay.
fn make(alloc: Global, context: &mut Context, binding: &Binding, limit: u64) -> Result<(), Reason>
    requires right { IsRight (written_binding binding.now) }
    requires no_hole { HasNoHole context.old.entries }
    requires new { AreNew context.old.entries binding.now.names }
    ensures ok { OnOk result (Binds context.old (written_binding binding.now) context.new) }
    ensures cause { IfErr result (BindFails limit context.old (written_binding binding.now)) }
    ensures extends { Extends context.old context.new }
{
    let names = binding.names.items();
    let asked = At {
        place: binding.place,
        limit,
    };
    match &binding.kind {
        BindingKind::Assume { mark, ty } => assume(alloc, context, names, *mark, ty, asked),
        BindingKind::Define { body, ty } => {
            define(alloc, context, names[0], body, ty.as_ref(), asked)
        }
    }
}

/// The first name that an entry has or that stands earlier in the list.
fn first_used(alloc: Global, context: &Context, names: &[u32]) -> Result<Option<usize>, AllocError>
    ensures { IfOk result (λ used. IsFirstUsed context.now.entries names.now used) }
{
    let mut seen = IndexSet::new(alloc);
    for i in 0..names.len() {
        let name = names[i];
        if is_used(context, &seen, name) {
            return Ok(Some(i));
        }
        let Ok(_) = seen.insert(name) else {
            return Err(AllocError);
        };
    }
    Ok(None)
}

/// Whether an entry has the name, or it was seen.
fn is_used(context: &Context, seen: &IndexSet<u32>, name: u32) -> bool
    ensures { result ≡ (is_some (position_of context.now.entries name) || list_any (nat_eq name) seen.now.keys) }
{
    context.position(name).is_some() || seen.contains(&name)
}

/// The refusal of the name at a place of the list.
fn in_use(binding: &Binding, at: usize) -> Reason
    requires places { at < length binding.now.places }
    requires names { at < length binding.now.names }
    ensures place { slice_get binding.now.places at ≡ Some result.place }
    ensures cause { (n : ℕ) × (slice_get binding.now.names at ≡ Some n) × (result.cause ≡ Cause.NameInUse n) }
{
    Reason {
        place: binding.places.items()[at],
        cause: Cause::NameInUse {
            name: binding.names.items()[at],
        },
    }
}
