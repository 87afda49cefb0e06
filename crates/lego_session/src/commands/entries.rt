//! The entries of a binding.
ghost use Rattle.std.specs.Prelude.{◌≡◌, OnOk, IfErr, IfOk, List as Items, ◌∷◌, [], ℕ, option_map};
ghost use Rattle.std.specs.Option.{option_copied};
ghost use Rattle.lego_context.specs.Entries.{HasNoHole};
ghost use Rattle.lego_grammar.specs.Surface.{written};
ghost use Rattle.lego_grammar.specs.Written.{Assumed, Defined};
ghost use Rattle.lego_reading.specs.Calls.{CanBeRead};
ghost use Rattle.lego_session.specs.commands.Bindings.{AreNew, MakesEntries, AssumesAll};
ghost use Rattle.lego_session.specs.private.Binding.{EntriesFail, Extends, IsOverContext, CanDefinitionBeRead, IsNotAssumed, ReadsWholeDefinition};

use crate::commands::terms::read_at;
use crate::refusal::Reason;
use lego_context::Context;
use lego_grammar::Surface;
use lego_inference::At;
use lego_term::{Mark, Term};
use std::alloc::Global;

/// Adds an assumption of the written type for each name, of which none is in use. Where one is
/// refused, those before it stay.
pub(crate) fn assume(
    alloc: Global,
    context: &mut Context,
    names: &[u32],
    mark: Mark,
    ty: &Surface,
    asked: At,
) -> Result<(), Reason>
    requires no_hole { HasNoHole context.old.entries }
    requires new { AreNew context.old.entries names.now }
    requires read { CanBeRead (written ty.now) }
    ensures ok { OnOk result (MakesEntries context.old asked.place names.now (Assumed mark (written ty.now)) context.new) }
    ensures cause { IfErr result (EntriesFail asked.limit context.old asked.place names.now (Assumed mark (written ty.now))) }
    ensures extends { Extends context.old context.new }
{
    let ty = read_at(alloc, context, ty, asked)?;
    assume_all(context, names, mark, &ty, asked)
}

/// Adds an assumption of the type for each name, of which none is in use.
fn assume_all(
    context: &mut Context,
    names: &[u32],
    mark: Mark,
    ty: &Term,
    asked: At,
) -> Result<(), Reason>
    requires no_hole { HasNoHole context.old.entries }
    requires new { AreNew context.old.entries names.now }
    requires over { IsOverContext context.old ty.now }
    ensures ok { OnOk result (AssumesAll mark ty.now asked.place context.old names.now context.new) }
    ensures cause { IfErr result (IsNotAssumed mark ty.now asked context.old names.now) }
    ensures extends { Extends context.old context.new }
{
    for name in names {
        if let Err(fault) = context.assume(*name, mark, ty, asked) {
            return Err(Reason::untyped(asked.place, fault));
        }
    }
    Ok(())
}

/// Adds a definition of a name that is not in use, with the written type, where there is one.
pub(crate) fn define(
    alloc: Global,
    context: &mut Context,
    name: u32,
    body: &Surface,
    ty: Option<&Surface>,
    asked: At,
) -> Result<(), Reason>
    requires no_hole { HasNoHole context.old.entries }
    requires new { AreNew context.old.entries (name ∷ []) }
    requires read { CanDefinitionBeRead (written body.now) (option_map written (option_copied ty)) }
    ensures ok { OnOk result (MakesEntries context.old asked.place (name ∷ []) (Defined (written body.now) (option_map written (option_copied ty.entry))) context.new) }
    ensures cause { IfErr result (EntriesFail asked.limit context.old asked.place (name ∷ []) (Defined (written body.now) (option_map written (option_copied ty.entry)))) }
    ensures extends { Extends context.old context.new }
{
    let (body, ty) = read_definition(alloc, context, body, ty, asked)?;
    match context.define(name, &body, ty.as_ref(), asked) {
        Ok(()) => Ok(()),
        Err(fault) => Err(Reason::untyped(asked.place, fault)),
    }
}

/// The cores of a definition: its body, and behind it its written type.
fn read_definition(
    alloc: Global,
    context: &mut Context,
    body: &Surface,
    ty: Option<&Surface>,
    asked: At,
) -> Result<(Term, Option<Term>), Reason>
    requires { CanDefinitionBeRead (written body.now) (option_map written (option_copied ty)) }
    ensures read { ReadsWholeDefinition context.old (written body.now) (option_map written (option_copied ty.entry)) asked context.new result }
    ensures extends { Extends context.old context.new }
{
    let body = read_at(alloc, context, body, asked)?;
    let Some(ty) = ty else {
        return Ok((body, None));
    };
    let ty = read_at(alloc, context, ty, asked)?;
    Ok((body, Some(ty)))
}
