//! The annotations of pairs.
ghost use Rattle.std.specs.Prelude.{◌≡◌, ◌≤◌, false, length, IfOk, IfErr};
ghost use Rattle.lego_term.specs.Trees.{loose};
ghost use Rattle.lego_grammar.specs.Reading.{is_sigma};
ghost use Rattle.lego_inference.specs.Entries.{laws_entries};
ghost use Rattle.lego_reading.specs.declared.fault.ReadFault.TheVariants.{Memory};
ghost use Rattle.lego_reading.specs.private.Variables.{AreOver};
ghost use Rattle.lego_reading.specs.private.Annotations.{IsAnnotated, EndsAt};

use crate::fault::ReadFault;
use crate::scope::Scope;
use crate::setting::{Setting, seen};
use crate::values::with_values;
use lego_reduce::{ReduceFault, head};
use lego_term::{Binder, Node, Term};

/// A Sigma type.
#[derive(Drop)]
pub(crate) struct SigmaType {
    pub(crate) binder: Binder,
    pub(crate) first: Term,
    pub(crate) second: Term,
}

/// What annotates a pair whose written type has this core: the core, where it is a Sigma type,
/// else its head form, taken with the values of local definitions put for their variables.
pub(crate) fn annotation(
    setting: &Setting<'_>,
    scope: &Scope,
    ty: &Term,
) -> Result<SigmaType, ReadFault>
    requires scope { AreOver scope.now }
    requires room { length scope.now ≤ 61536 }
    requires within { loose ty.now ≤ length scope.now }
    ensures { IsAnnotated (laws_entries setting.now.context.now.entries) setting.now.limit scope.now ty.now result }
{
    match ty.view() {
        Node::Sigma(binder, first, second) => shared(binder, first, second),
        _ => reduced(setting, scope, ty),
    }
}

/// The same for a type that is no Sigma type itself.
fn reduced(setting: &Setting<'_>, scope: &Scope, ty: &Term) -> Result<SigmaType, ReadFault>
    requires scope { AreOver scope.now }
    requires room { length scope.now ≤ 61536 }
    requires within { loose ty.now ≤ length scope.now }
    requires other { is_sigma ty.now ≡ false }
    ensures { IsAnnotated (laws_entries setting.now.context.now.entries) setting.now.limit scope.now ty.now result }
{
    let with_values = with_values(setting.alloc, scope, ty)?;
    let end = head_form(setting, scope, ty, &with_values)?;
    match end.view() {
        Node::Sigma(binder, first, second) => shared(binder, first, second),
        _ => {
            let got = seen(scope, ty)?;
            Err(ReadFault::NotSigma { got })
        }
    }
}

/// The head form of a type, in which the values of local definitions have been put.
fn head_form(
    setting: &Setting<'_>,
    scope: &Scope,
    ty: &Term,
    with_values: &Term,
) -> Result<Term, ReadFault>
    requires { loose with_values.now ≤ 65536 }
    ensures { EndsAt (laws_entries setting.now.context.now.entries) setting.now.limit scope.now ty.now with_values.now result }
{
    match head(
        setting.alloc,
        setting.context.bodies(),
        with_values,
        setting.limit,
    ) {
        Ok(reduced) => Ok(reduced.term),
        Err(ReduceFault::Budget) => {
            let left = seen(scope, with_values)?;
            Err(ReadFault::Budget { left })
        }
        Err(ReduceFault::TooLarge { size, depth }) => Err(ReadFault::TooLarge { size, depth }),
        Err(ReduceFault::Memory) => Err(ReadFault::Memory),
    }
}

/// The parts of a Sigma type, shared.
fn shared(binder: Binder, first: &Term, second: &Term) -> Result<SigmaType, ReadFault>
    ensures ok { IfOk result (λ made. made ≡ record { binder = binder; first = first.now; second = second.now }) }
    ensures err { IfErr result (λ fault. fault ≡ Memory) }
{
    Ok(SigmaType {
        binder,
        first: first.share()?,
        second: second.share()?,
    })
}
