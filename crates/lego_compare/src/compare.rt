//! Cumulativity and conversion.
ghost use Rattle.std.specs.Prelude.{◌≡◌, ◌≤◌, IfOk, IfErr};
ghost use Rattle.lego_term.specs.Trees.{Equal, loose};
ghost use Rattle.lego_term.specs.BodyMap.{bodies_in, AreClosed};
ghost use Rattle.lego_laws.specs.Facing.{Cumulativity, Conversion};
ghost use Rattle.lego_compare.specs.Paths.{IsLargeOnAPath};
ghost use Rattle.lego_compare.specs.Answers.{IsDecidedBy, IsRefusedBy};
ghost use Rattle.lego_compare.specs.private.Codes.{order_of, compare_fault};
ghost use Rattle.lego_compare.specs.private.Causes.{Stopped, PassesIn};

use crate::fault::CompareFault;
use crate::relation::Relation;
use crate::stop::{Side, Stop};
use crate::walk::{Position, Setting, different};
use lego_base::Place;
use lego_level::Constraint;
use lego_reduce::{ReduceFault, normal};
use lego_term::{Bodies, MAX_DEPTH, Term, equal};
use std::alloc::Global;

/// The constraints under which the first term is below the second. They carry the place.
///
/// The terms' loose variables are below 63,536, and no body has one. The walk makes at most
/// `limit` steps on both sides together; where it comes to a term too large, the whole term of
/// that side is normalised within the limit once more.
pub fn below(
    alloc: Global,
    bodies: &Bodies,
    a: &Term,
    b: &Term,
    limit: u64,
    place: Place,
) -> Result<Vec<Constraint>, CompareFault>
    requires left { loose a.now ≤ 63536 }
    requires right { loose b.now ≤ 63536 }
    requires closed { AreClosed bodies.now }
    ensures decided { IfOk result (λ found. IsDecidedBy Cumulativity (bodies_in bodies.now) a.now b.now place found.items) }
    ensures refused { IfErr result (λ fault. IsRefusedBy Cumulativity (bodies_in bodies.now) a.now b.now limit fault) }
{
    let setting = Setting {
        alloc,
        bodies,
        place,
    };
    compared(&setting, Relation::Below, a, b, limit)
}

/// The constraints under which the terms convert, as `below`.
pub fn same(
    alloc: Global,
    bodies: &Bodies,
    a: &Term,
    b: &Term,
    limit: u64,
    place: Place,
) -> Result<Vec<Constraint>, CompareFault>
    requires left { loose a.now ≤ 63536 }
    requires right { loose b.now ≤ 63536 }
    requires closed { AreClosed bodies.now }
    ensures decided { IfOk result (λ found. IsDecidedBy Conversion (bodies_in bodies.now) a.now b.now place found.items) }
    ensures refused { IfErr result (λ fault. IsRefusedBy Conversion (bodies_in bodies.now) a.now b.now limit fault) }
{
    let setting = Setting {
        alloc,
        bodies,
        place,
    };
    compared(&setting, Relation::Same, a, b, limit)
}

/// The constraints under which the terms are related.
fn compared(
    setting: &Setting<'_>,
    relation: Relation,
    a: &Term,
    b: &Term,
    limit: u64,
) -> Result<Vec<Constraint>, CompareFault>
    requires left { loose a.now ≤ 63536 }
    requires right { loose b.now ≤ 63536 }
    requires closed { AreClosed setting.now.bodies.now }
    ensures decided { IfOk result (λ found. IsDecidedBy (order_of relation) (bodies_in setting.now.bodies.now) a.now b.now setting.now.place found.items) }
    ensures refused { IfErr result (λ fault. IsRefusedBy (order_of relation) (bodies_in setting.now.bodies.now) a.now b.now limit fault) }
{
    let mut found = Vec::new(setting.alloc);
    if equal(a, b) {
        return Ok(found);
    }
    let at = Position {
        relation,
        room: MAX_DEPTH + 1,
        deeper: 0,
        limit,
        are_head_forms: false,
    };
    match different(setting, a, b, at, &mut found) {
        Ok(_) => Ok(found),
        Err(stop) => Err(fault_of(setting, relation, a, b, limit, stop)),
    }
}

/// What a stop of the walk through both terms says of the whole sequences.
fn fault_of(
    setting: &Setting<'_>,
    relation: Relation,
    a: &Term,
    b: &Term,
    limit: u64,
    stop: Stop,
) -> CompareFault
    requires left { loose a.now ≤ 63536 }
    requires right { loose b.now ≤ 63536 }
    requires closed { AreClosed setting.now.bodies.now }
    requires stopped { Stopped (order_of relation) (bodies_in setting.now.bodies.now) a.now b.now limit stop }
    requires differ { Equal a.now b.now → ⊥ }
    ensures { IsRefusedBy (order_of relation) (bodies_in setting.now.bodies.now) a.now b.now limit result }
{
    match stop {
        Stop::Differ {
            left,
            right,
            deeper,
        } => CompareFault::Differ {
            left,
            right,
            deeper,
        },
        Stop::Budget => CompareFault::Budget,
        Stop::TooLarge { side, size, depth } => match side {
            Side::Left => too_large(setting, a, limit, size, depth),
            Side::Right => too_large(setting, b, limit, size, depth),
        },
        Stop::Memory => CompareFault::Memory,
    }
}

/// The refusal of a term too large on a path through this term. Parts before the path may have
/// been equal, so that the walk made none of their steps: where they have more than the limit,
/// the sequence doesn't come to the path within it.
fn too_large(setting: &Setting<'_>, t: &Term, limit: u64, size: u64, depth: u32) -> CompareFault
    requires room { loose t.now ≤ 63536 }
    requires closed { AreClosed setting.now.bodies.now }
    requires path { IsLargeOnAPath (bodies_in setting.now.bodies.now) t.now size depth }
    ensures { PassesIn (bodies_in setting.now.bodies.now) t.now limit result }
{
    match normal(setting.alloc, setting.bodies, t, limit) {
        Ok(_) => CompareFault::TooLarge { size, depth },
        Err(fault) => reduction_fault(fault),
    }
}

/// The same fault of a comparison.
fn reduction_fault(fault: ReduceFault) -> CompareFault
    ensures { result ≡ compare_fault fault }
{
    match fault {
        ReduceFault::Budget => CompareFault::Budget,
        ReduceFault::TooLarge { size, depth } => CompareFault::TooLarge { size, depth },
        ReduceFault::Memory => CompareFault::Memory,
    }
}
