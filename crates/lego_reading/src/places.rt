//! The places of the written `Type`s.
ghost use Rattle.std.specs.Prelude.{◌≡◌, position, OnOk};
ghost use Rattle.lego_grammar.specs.Surface.{written};
ghost use Rattle.lego_reading.specs.Universes.{type_places, is_place, with_place, with_places};

use lego_base::Place;
use lego_grammar::Surface;
use std::alloc::AllocError;

/// Adds the places of the written `Type`s of a term, in the order of reading, each that is not
/// there yet.
pub(crate) fn gather(s: &Surface, places: &mut Vec<Place>) -> Result<(), AllocError>
    ensures { OnOk result (places.new.items ≡ with_places places.old.items (type_places (written s.now))) }
{
    match s {
        Surface::AnyType { place } => hold(*place, places),
        Surface::Bind { domain, body, .. } => {
            gather(domain.get(), places)?;
            gather(body.get(), places)
        }
        Surface::Local { value, body, .. } => {
            gather(value.get(), places)?;
            gather(body.get(), places)
        }
        Surface::Apply {
            function,
            arguments,
        } => {
            gather(function.get(), places)?;
            for (_, argument) in arguments.items() {
                gather(argument, places)?;
            }
            Ok(())
        }
        Surface::Pair { first, second, ty } => {
            gather(ty.get(), places)?;
            gather(first.get(), places)?;
            gather(second.get(), places)
        }
        Surface::Project { of, .. } => gather(of.get(), places),
        Surface::Name { .. } => Ok(()),
        Surface::Prop => Ok(()),
        Surface::TypeAt { .. } => Ok(()),
        Surface::Hole { .. } => Ok(()),
    }
}

/// Adds a place, where it is not there yet.
#[tactic(auto, using(crate::proofs::UniverseLemmas::held_place, crate::proofs::UniverseLemmas::new_place))]
fn hold(place: Place, places: &mut Vec<Place>) -> Result<(), AllocError>
    ensures { OnOk result (places.new.items ≡ with_place places.old.items place) }
{
    if place_of(places, place).is_some() {
        return Ok(());
    }
    let Ok(()) = places.push(place) else {
        return Err(AllocError);
    };
    Ok(())
}

/// Where a place stands among others.
pub(crate) fn place_of(places: &[Place], place: Place) -> Option<usize>
    ensures { result ≡ position (is_place place) places.now }
{
    places.iter().position(|held| place == *held)
}
