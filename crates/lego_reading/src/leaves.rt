//! The forms without parts.
ghost use Rattle.std.specs.Prelude.{◌≡◌, ◌<◌, ◌≤◌, ◌+◌, length, IsSome};
ghost use Rattle.lego_grammar.specs.Written.{Named, WrittenProp, AnyType, TypeAt};
ghost use Rattle.lego_reading.specs.Universes.{variables_for};
ghost use Rattle.lego_reading.specs.private.Parts.{ReadsAs};

use crate::fault::{ReadFault, made};
use crate::places::place_of;
use crate::scope::Scope;
use crate::setting::Setting;
use lego_base::Place;
use lego_term::{Level, Term, konst, prop, univ, var};

/// A name: its innermost local variable, else its entry.
pub(crate) fn name(
    setting: &Setting<'_>,
    scope: &Scope,
    place: Place,
    name: u32,
) -> Result<Term, ReadFault>
    requires { length scope.now ≤ 61536 }
    ensures { ReadsAs setting.now.context.now setting.now.places.now setting.now.limit scope.now (Named place name) result }
{
    let _count = scope.len();
    if let Some(index) = scope.position(name) {
        return made(var(setting.alloc, index as u32));
    }
    let Some(at) = setting.context.position(name) else {
        return Err(ReadFault::UnknownName { place, name });
    };
    let Some(entry) = setting.context.entry(at) else {
        unreachable!()
    };
    made(konst(setting.alloc, entry.number))
}

/// `Prop`.
pub(crate) fn proposition(setting: &Setting<'_>, scope: &Scope) -> Result<Term, ReadFault>
    ensures { ReadsAs setting.now.context.now setting.now.places.now setting.now.limit scope.now WrittenProp result }
{
    made(prop(setting.alloc))
}

/// A written `Type`: the level variable of its place.
pub(crate) fn any_type(
    setting: &Setting<'_>,
    scope: &Scope,
    place: Place,
) -> Result<Term, ReadFault>
    requires held { IsSome (variables_for setting.now.context.now.levels setting.now.places.now place) }
    requires room { setting.now.context.now.levels + length setting.now.places.now ≤ 1048576 }
    ensures { ReadsAs setting.now.context.now setting.now.places.now setting.now.limit scope.now (AnyType place) result }
{
    let Some(at) = place_of(setting.places, place) else {
        unreachable!()
    };
    let level = Level {
        base: Some(setting.context.levels() + at as u32),
        plus: 0,
    };
    made(univ(setting.alloc, level))
}

/// `Type(level)`.
pub(crate) fn type_at(setting: &Setting<'_>, scope: &Scope, level: u32) -> Result<Term, ReadFault>
    ensures { ReadsAs setting.now.context.now setting.now.places.now setting.now.limit scope.now (TypeAt level) result }
{
    let level = Level {
        base: None,
        plus: level,
    };
    made(univ(setting.alloc, level))
}
