//! The call: the term is measured and its nodes are counted first, so that height and weight bound
//! the search.
ghost use Rattle.std.specs.Prelude.{◌≡◌};
ghost use Rattle.lego_inference.specs.Calls.{AreHeld, IsTermOver};
ghost use Rattle.lego_inference.specs.Entries.{laws_entries};
ghost use Rattle.lego_inference.specs.Locals.{site_of};
ghost use Rattle.lego_rule_types.specs.Calls.{FindsRuleType};

use crate::nodes::counted_behind;
use crate::rule::rule;
use crate::scope::{Setting, copy_of};
use lego_inference::{At, Judged, Locals, Signature, TypeFault};
use lego_term::{List, Term, measure};
use std::alloc::Global;

/// The rule type of the term, where it has one. Nothing is checked: parts whose rule types aren't
/// used are not looked at.
///
/// The first `levels` level variables are held, and each universe, product and Sigma type of the
/// term has the next one, in order, whether or not it is looked at.
pub fn rule_type(
    alloc: Global,
    signature: &Signature,
    locals: &Locals,
    m: &Term,
    levels: u32,
    asked: At,
) -> Result<Option<Judged>, TypeFault>
    requires held { AreHeld signature.now locals.now levels }
    requires term { IsTermOver signature.now locals.now levels m.now }
    ensures { FindsRuleType (laws_entries signature.now) (site_of locals.now levels) m.now asked result }
{
    // No entry has a loose variable.
    let _bodies = signature.bodies();
    measure(alloc, m)?;
    let behind = counted_behind(alloc, m, levels)?;
    let setting = Setting {
        alloc,
        signature,
        limit: asked.limit,
    };
    let mut locals = copy_of(alloc, locals)?;
    let Some(ty) = rule(&setting, &mut locals, m, levels)? else {
        return Ok(None);
    };
    Ok(Some(Judged {
        ty,
        constraints: List::of(Vec::new(alloc)),
        levels: behind,
    }))
}
