//! Lowering of loose variables past locals of which a term has none.
ghost use Rattle.std.specs.Prelude.{◌≡◌, ◌+◌, ◌^◌, ◌<◌, ◌≤◌};
ghost use Rattle.lego_term.specs.Trees.{depth, loose};
ghost use Rattle.lego_match.specs.private.Lowering.{Lowers};
ghost use Rattle.lego_match.specs.declared.lowering.Raised.TheVariants.{Memory};

use lego_term::{Node, Term, TermFault, app, fst, lam, local, pair, pi, sigma, snd, var};
use std::alloc::{AllocError, Global};

/// Why a term was not lowered.
#[derive(Debug, Clone, Copy, PartialEq, Eq)]
pub(crate) enum Raised {
    /// It has this local, the first of those that it may not have.
    Local(u32),
    /// Memory ran out.
    Memory,
}

impl From<AllocError> for Raised {
    ghost from_gives = { λ _ fault. fault ≡ Memory };

    fn from(_: AllocError) -> Raised {
        Raised::Memory
    }
}

impl From<TermFault> for Raised {
    ghost from_gives = { λ _ fault. fault ≡ Memory };

    // a lowered term has the size and depth of the term, so it is never too large
    fn from(_: TermFault) -> Raised {
        Raised::Memory
    }
}

/// Lowers each variable at or above `from + by` by `by`, a bound that rises by 1 under each
/// binder, or finds the first variable, left to right, that stands between `from` and it.
pub(crate) fn lowered(alloc: Global, t: &Term, from: u32, by: u32) -> Result<Term, Raised>
    requires room { loose t.now + depth t.now ≤ 65536 }
    requires past { by < 2 ^ 31 }
    ensures { Lowers from by t.now result }
{
    if t.loose() <= from {
        return Ok(t.share()?);
    }
    match t.view() {
        Node::Var(index) => {
            let above = index - from;
            if above < by {
                return Err(Raised::Local(above));
            }
            Ok(var(alloc, index - by)?)
        }
        Node::Const(_) | Node::Prop | Node::Univ(_) => Ok(t.share()?),
        Node::Pi(binder, domain, body) => {
            let domain = lowered(alloc, domain, from, by)?;
            let body = lowered(alloc, body, from + 1, by)?;
            Ok(pi(alloc, binder, &domain, &body)?)
        }
        Node::Lam(binder, domain, body) => {
            let domain = lowered(alloc, domain, from, by)?;
            let body = lowered(alloc, body, from + 1, by)?;
            Ok(lam(alloc, binder, &domain, &body)?)
        }
        Node::App(mark, function, argument) => {
            let function = lowered(alloc, function, from, by)?;
            let argument = lowered(alloc, argument, from, by)?;
            Ok(app(alloc, mark, &function, &argument)?)
        }
        Node::Sigma(binder, first, second) => {
            let first = lowered(alloc, first, from, by)?;
            let second = lowered(alloc, second, from + 1, by)?;
            Ok(sigma(alloc, binder, &first, &second)?)
        }
        Node::Pair(binder, a, b, m, n) => {
            let a = lowered(alloc, a, from, by)?;
            let b = lowered(alloc, b, from + 1, by)?;
            let m = lowered(alloc, m, from, by)?;
            let n = lowered(alloc, n, from, by)?;
            Ok(pair(alloc, binder, &a, &b, &m, &n)?)
        }
        Node::Fst(of) => {
            let of = lowered(alloc, of, from, by)?;
            Ok(fst(alloc, &of)?)
        }
        Node::Snd(of) => {
            let of = lowered(alloc, of, from, by)?;
            Ok(snd(alloc, &of)?)
        }
        Node::Local(binder, value, body) => {
            let value = lowered(alloc, value, from, by)?;
            let body = lowered(alloc, body, from + 1, by)?;
            Ok(local(alloc, binder, &value, &body)?)
        }
    }
}
