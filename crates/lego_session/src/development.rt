//! The development of a session, and what is promised of it.
ghost use Rattle.std.specs.Prelude.{◌≡◌, ◌<◌, ◌^◌, map, All, IfOk};
ghost use Rattle.lego_context.specs.Entries.{HasNoHole};
ghost use Rattle.lego_session.specs.Headline.{Headline};
ghost use Rattle.lego_session.specs.Names.{AreTrueNames, AreKnown, IsKnownSession};
ghost use Rattle.lego_session.specs.Sessions.{context_of};
ghost use Rattle.lego_session.specs.Texts.{IsPrinted, listed};
ghost use Rattle.lego_session.specs.private.Items.{HasSmallPlace};

use crate::entries::Front;
use crate::session::Session;
use crate::text::items_from;
use lego_base::{Names, Place};
use lego_context::Context;
use lego_print::{Universe, development_text, items_are_small, printed_developments_denote};
use std::alloc::{AllocError, Global};

impl Session {
    /// The text of the development: `Explicit;`, a command for each entry at the least levels, and
    /// a line for each written `Type` in them. It denotes the entries, which hold by Luo's rules.
    pub fn development(&self, alloc: Global, names: &Names) -> Result<Vec<u8>, AllocError>
        requires { IsKnownSession names.now self.now }
        ensures text { IfOk result (λ text. IsPrinted names.now (context_of self.now) text.items) }
        ensures headline { IfOk result (λ text. Headline names.now (context_of self.now) text.items) }
    {
        development(alloc, names, self.context())
    }
}

/// The place at a line and a column.
fn place_at(line: u32, column: u32) -> Place
    ensures is { result ≡ record { line = line; column = column } }
    ensures line { result.line < 2 ^ 64 }
    ensures column { result.column < 2 ^ 64 }
{
    Place { line, column }
}

/// A written `Type`, as a development lists it.
fn listed(universe: &lego_inference::Universe) -> Universe
    ensures is { result ≡ listed universe.now }
    ensures small { HasSmallPlace result }
{
    Universe {
        variable: universe.variable,
        place: place_at(universe.place.line, universe.place.column),
    }
}

/// The written `Type`s of a context, as a development lists them.
fn all_listed(alloc: Global, context: &Context) -> Result<Vec<Universe>, AllocError>
    ensures are { IfOk result (λ us. us.items ≡ map listed context.now.universes) }
    ensures small { IfOk result (λ us. All HasSmallPlace us.items) }
{
    let mut universes = Vec::new(alloc);
    for universe in context.universes() {
        universes.push(listed(universe))?;
    }
    Ok(universes)
}

/// The development of a context without a hole, whose names are held.
fn development(alloc: Global, names: &Names, context: &Context) -> Result<Vec<u8>, AllocError>
    requires no_hole { HasNoHole context.now.entries }
    requires true_names { AreTrueNames names.now }
    requires known { AreKnown names.now context.now }
    ensures text { IfOk result (λ text. IsPrinted names.now context.now text.items) }
    ensures headline { IfOk result (λ text. Headline names.now context.now text.items) }
{
    let _entries = context.len();
    // So each text has one number.
    let _count = names.len();
    let values = context.least()?;
    let items = items_from(alloc, context, 0)?;
    let universes = all_listed(alloc, context)?;
    // So the text denotes the entries.
    items_are_small(&items, &values);
    printed_developments_denote();
    let front = Front::whole(context);
    development_text(alloc, names, &front, &items, &universes, &values)
}
