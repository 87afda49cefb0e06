//! The comparison of a term's rule type with the type that its place states.
ghost use Rattle.std.specs.Prelude.{◌≡◌, ◌≤◌, ◌⊎◌, Some};
ghost use Rattle.lego_term.specs.Trees.{loose};
ghost use Rattle.lego_inference.specs.declared.fault.TypeFault.TheVariants.{Mismatch, Budget, Memory};
ghost use Rattle.lego_inference.specs.Entries.{laws_entries};
ghost use Rattle.lego_inference.specs.Locals.{binders_of, seen_under};
ghost use Rattle.lego_inference.specs.private.Judging.{Compares};
ghost use Rattle.lego_inference.specs.private.Wanting.{Refuses};

use crate::fault::TypeFault;
use crate::gathered::Gathered;
use crate::locals::Locals;
use crate::setting::{Setting, seen};
use lego_compare::{CompareFault, below};
use lego_term::Term;

/// Adds the constraints under which the term's rule type is below the stated type. Rule cum.
pub(crate) fn compare(
    setting: &Setting<'_>,
    locals: &Locals,
    term: &Term,
    have: &Term,
    want: &Term,
    found: &mut Gathered,
) -> Result<(), TypeFault>
    requires left { loose have.now ≤ 63536 }
    requires right { loose want.now ≤ 63536 }
    ensures { Compares (laws_entries setting.now.signature.now) setting.now.asked (binders_of locals.now) term.now have.now want.now found.old found.new result }
{
    let bodies = setting.signature.bodies();
    let asked = setting.asked;
    match below(setting.alloc, bodies, have, want, asked.limit, asked.place) {
        Ok(more) => {
            found.constraints.extend_from_slice(&more)?;
            Ok(())
        }
        Err(fault) => Err(refusal(locals, term, have, want, &fault)),
    }
}

/// The refusal of a term whose rule type isn't below the stated type, or isn't compared with it.
fn refusal(
    locals: &Locals,
    term: &Term,
    have: &Term,
    want: &Term,
    fault: &CompareFault,
) -> TypeFault
    ensures { Refuses (binders_of locals.now) term.now have.now want.now fault.now result }
{
    match fault {
        CompareFault::Differ { .. } => mismatch(locals, term, have, want),
        CompareFault::Budget => over_budget(locals, have, want),
        CompareFault::TooLarge { size, depth } => TypeFault::TooLarge {
            size: *size,
            depth: *depth,
        },
        CompareFault::Memory => TypeFault::Memory,
    }
}

/// The refusal of a term whose rule type isn't below the stated type.
fn mismatch(locals: &Locals, term: &Term, have: &Term, want: &Term) -> TypeFault
    ensures { (result ≡ Mismatch (seen_under (binders_of locals.now) term.now) (seen_under (binders_of locals.now) have.now) (seen_under (binders_of locals.now) want.now)) ⊎ (result ≡ Memory) }
{
    match (seen(locals, term), seen(locals, have), seen(locals, want)) {
        (Ok(term), Ok(have), Ok(want)) => TypeFault::Mismatch { term, have, want },
        _ => TypeFault::Memory,
    }
}

/// The refusal of a comparison that is over its limit.
fn over_budget(locals: &Locals, have: &Term, want: &Term) -> TypeFault
    ensures { (result ≡ Budget (seen_under (binders_of locals.now) have.now) (Some (seen_under (binders_of locals.now) want.now))) ⊎ (result ≡ Memory) }
{
    match (seen(locals, have), seen(locals, want)) {
        (Ok(left), Ok(right)) => TypeFault::Budget {
            left,
            right: Some(right),
        },
        _ => TypeFault::Memory,
    }
}
