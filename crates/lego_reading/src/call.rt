//! The reading of a written term over a context.
ghost use Rattle.std.specs.Prelude.{◌≡◌, ◌≤◌, ◌+◌, [], length, OnOk, OnErr};
ghost use Rattle.lego_grammar.specs.Surface.{written};
ghost use Rattle.lego_reading.specs.Calls.{CanBeRead, Reads};
ghost use Rattle.lego_reading.specs.Universes.{places_of, with_universes};
ghost use Rattle.lego_reading.specs.private.Parts.{ReadsAs};

use crate::fault::ReadFault;
use crate::places::gather;
use crate::reading::core_of;
use crate::scope::Scope;
use crate::setting::Setting;
use lego_base::Place;
use lego_context::Context;
use lego_grammar::Surface;
use lego_inference::At;
use lego_term::Term;
use std::alloc::{AllocError, Global};

/// The most level variables of a context.
const MAX_LEVELS: u32 = 1_048_576;

/// The core of a written term over the context, in explicit mode. Each place of a written `Type`
/// gets a universe of the context, in the order of reading, so the copies of one `Type` share
/// theirs. Names go to the innermost local variable, else to the entry.
///
/// Refused: first `Full`; then what the reading comes to first: `UnknownName`, `UnknownGoal`,
/// `NotSigma`, `TooLarge`, `Budget`; `Memory` at any point. Then the context is as it was.
pub fn read(alloc: Global, context: &mut Context, s: &Surface, asked: At) -> Result<Term, ReadFault>
    requires { CanBeRead (written s.now) }
    ensures { Reads context.old (written s.now) asked.limit context.new result }
{
    let mut places = Vec::new(alloc);
    gather(s, &mut places)?;
    let _entries = context.len();
    if places.len() > (MAX_LEVELS - context.levels()) as usize {
        return Err(ReadFault::Full { held: MAX_LEVELS });
    }
    let core = explicit(alloc, context, places.as_slice(), s, asked.limit)?;
    add_universes(context, places.as_slice())?;
    Ok(core)
}

/// The core of a written term, where the universes have room.
fn explicit(
    alloc: Global,
    context: &Context,
    places: &[Place],
    s: &Surface,
    limit: u64,
) -> Result<Term, ReadFault>
    requires can { CanBeRead (written s.now) }
    requires held { places.now ≡ places_of (written s.now) }
    requires room { context.now.levels + length places.now ≤ 1048576 }
    ensures { ReadsAs context.now places.now limit [] (written s.now) result }
{
    let setting = Setting {
        alloc,
        context,
        places,
        limit,
    };
    let mut scope = Scope::new(alloc);
    core_of(&setting, &mut scope, s)
}

/// Adds a universe for each place; where memory runs out, the context is as it was.
fn add_universes(context: &mut Context, places: &[Place]) -> Result<(), AllocError>
    ensures ok { OnOk result (context.new ≡ with_universes context.old places.now) }
    ensures err { OnErr result (context.new ≡ context.old) }
{
    let entries = context.len();
    let universes = context.universes().len();
    let levels = context.levels();
    for place in places {
        let Ok(_) = context.fresh_level(*place) else {
            context.cut_to(entries, universes, levels);
            return Err(AllocError);
        };
    }
    Ok(())
}
