//! Rule types that are made from parts.
ghost use Rattle.std.specs.Prelude.{◌≡◌, ◌≤◌};
ghost use Rattle.lego_term.specs.Trees.{Pi, Sigma, Fst, Snd, instantiate, loose};
ghost use Rattle.lego_inference.specs.private.Judging.{IsMade};

use crate::fault::TypeFault;
use crate::head::Former;
use lego_term::{Binder, Term, fst, pi, sigma, subst};
use std::alloc::Global;

/// The body with the value put in.
pub(crate) fn instance(alloc: Global, body: &Term, value: &Term) -> Result<Term, TypeFault>
    requires { loose value.now ≤ 65536 }
    ensures { IsMade (instantiate body.now value.now) result }
{
    let _depth = body.depth();
    Ok(subst(alloc, body, value)?)
}

/// The product of a domain and a body.
pub(crate) fn product(
    alloc: Global,
    binder: Binder,
    domain: &Term,
    body: &Term,
) -> Result<Term, TypeFault>
    ensures { IsMade (Pi binder domain.now body.now) result }
{
    Ok(pi(alloc, binder, domain, body)?)
}

/// The Sigma type of a domain and a body.
pub(crate) fn sigma_former(
    alloc: Global,
    binder: Binder,
    domain: &Term,
    body: &Term,
) -> Result<Term, TypeFault>
    ensures { IsMade (Sigma binder domain.now body.now) result }
{
    Ok(sigma(alloc, binder, domain, body)?)
}

/// The type of a pair's second component, where the whole term is that component.
pub(crate) fn second_type(
    alloc: Global,
    whole: &Term,
    of: &Term,
    former: &Former,
) -> Result<Term, TypeFault>
    requires whole { whole.now ≡ Snd of.now }
    requires room { loose of.now ≤ 65536 }
    ensures { IsMade (instantiate former.now.body (Fst of.now)) result }
{
    let _size = whole.size();
    let _depth = whole.depth();
    let Ok(first) = fst(alloc, of) else {
        return Err(TypeFault::Memory);
    };
    instance(alloc, &former.body, &first)
}
