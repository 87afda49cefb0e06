//! The calls that check a whole term: it is measured first, so that height and weight bound the
//! check.
ghost use Rattle.std.specs.Prelude.{◌≡◌, ◌≤◌};
ghost use Rattle.lego_inference.specs.Calls.{AreHeld, IsTermOver, task_over, Infers, InfersType, Checks, ChecksWritten};
ghost use Rattle.lego_laws.specs.Places.{AnyType, BeAType, OfType, OfWrittenType};

use crate::entry::{At, Judged};
use crate::fault::TypeFault;
use crate::gathered::Gathered;
use crate::head::sort_of;
use crate::judge::{checked, judge, type_at};
use crate::locals::Locals;
use crate::setting::Setting;
use crate::signature::Signature;
use crate::stated::compare;
use lego_term::{List, Term, measure};

/// The type of the term, which is principal, and the constraints under which it has it.
///
/// The first `levels` level variables are held. The answer's type and constraints may have those
/// behind them, one for each universe, product and Sigma type of the term, in order. Where the
/// locals' types are types, wherever some constraints are satisfied, these and the answered ones
/// give the term its type.
pub fn infer(
    signature: &Signature,
    locals: &Locals,
    m: &Term,
    levels: u32,
    asked: At,
) -> Result<Judged, TypeFault>
    requires held { AreHeld signature.now locals.now levels }
    requires term { IsTermOver signature.now locals.now levels m.now }
    ensures { Infers (task_over signature.now locals.now levels m.now AnyType) asked result }
{
    let alloc = signature.alloc();
    let setting = Setting {
        alloc,
        signature,
        asked,
    };
    let mut locals = locals.copy()?;
    let mut found = Gathered::new(alloc, levels);
    measure(alloc, m)?;
    let ty = judge(&setting, &mut locals, m, &mut found)?;
    Ok(judged(ty, found))
}

/// The same of a term that is to be a type: the head form of its type is `Prop` or a universe.
pub fn infer_type(
    signature: &Signature,
    locals: &Locals,
    a: &Term,
    levels: u32,
    asked: At,
) -> Result<Judged, TypeFault>
    requires held { AreHeld signature.now locals.now levels }
    requires term { IsTermOver signature.now locals.now levels a.now }
    ensures { InfersType (task_over signature.now locals.now levels a.now BeAType) asked result }
{
    let alloc = signature.alloc();
    let setting = Setting {
        alloc,
        signature,
        asked,
    };
    let mut locals = locals.copy()?;
    let mut found = Gathered::new(alloc, levels);
    measure(alloc, a)?;
    let ty = judge(&setting, &mut locals, a, &mut found)?;
    sort_of(&setting, &locals, a, &ty)?;
    Ok(judged(ty, found))
}

/// The constraints under which the term has the wanted type.
pub fn check(
    signature: &Signature,
    locals: &Locals,
    m: &Term,
    want: &Term,
    levels: u32,
    asked: At,
) -> Result<Judged, TypeFault>
    requires held { AreHeld signature.now locals.now levels }
    requires term { IsTermOver signature.now locals.now levels m.now }
    requires wanted { IsTermOver signature.now locals.now levels want.now }
    ensures { Checks (task_over signature.now locals.now levels m.now (OfType want.now)) want.now asked result }
{
    let alloc = signature.alloc();
    let setting = Setting {
        alloc,
        signature,
        asked,
    };
    let mut locals = locals.copy()?;
    let mut found = Gathered::new(alloc, levels);
    measure(alloc, m)?;
    checked(&setting, &mut locals, m, want, &mut found)?;
    Ok(judged(want.share()?, found))
}

/// The same for a type that is written with the term, and is checked too, behind the term.
pub fn check_written(
    signature: &Signature,
    locals: &Locals,
    m: &Term,
    written: &Term,
    levels: u32,
    asked: At,
) -> Result<Judged, TypeFault>
    requires held { AreHeld signature.now locals.now levels }
    requires term { IsTermOver signature.now locals.now levels m.now }
    requires written { IsTermOver signature.now locals.now levels written.now }
    ensures { ChecksWritten (task_over signature.now locals.now levels m.now (OfWrittenType written.now)) written.now asked result }
{
    let alloc = signature.alloc();
    let setting = Setting {
        alloc,
        signature,
        asked,
    };
    let mut locals = locals.copy()?;
    let mut found = Gathered::new(alloc, levels);
    measure(alloc, m)?;
    measure(alloc, written)?;
    let have = judge(&setting, &mut locals, m, &mut found)?;
    type_at(&setting, &mut locals, written, &mut found)?;
    compare(&setting, &locals, m, &have, written, &mut found)?;
    Ok(judged(written.share()?, found))
}

/// The answer.
fn judged(ty: Term, found: Gathered) -> Judged
    ensures ty { result.ty ≡ ty }
    ensures constraints { result.constraints ≡ found.constraints.items }
    ensures levels { result.levels ≡ found.levels }
    ensures within { result.levels ≤ 1048576 }
{
    Judged {
        ty,
        constraints: List::of(found.constraints),
        levels: found.levels,
    }
}
