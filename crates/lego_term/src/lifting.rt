//! Lifting of loose variables.
ghost use Rattle.std.specs.Prelude.{◌≡◌, ◌+◌, ◌-◌, ◌^◌, ◌<◌, ◌≤◌, IfOk, IfErr, nat_lt, if◌then◌else◌};
ghost use Rattle.lego_term.specs.Trees.{Var, Const, depth, loose, lift as lifted};
ghost use Rattle.lego_term.specs.declared.fault.TermFault.TheVariants.{Memory};

use crate::fault::TermFault;
use crate::makers::variable;
use crate::term::Term;
use crate::traversal::{Leaves, rebuild};
use std::alloc::Global;

/// Adds `by` to each variable at or above `from`, a bound that rises by 1 under each binder.
pub fn lift(alloc: Global, t: &Term, from: u32, by: u32) -> Result<Term, TermFault>
    requires { loose t.now + by ≤ 65536 }
    ensures ok { IfOk result (λ u. u ≡ lifted from by t.now) }
    ensures err { IfErr result (λ fault. fault ≡ Memory) }
{
    let _depth = t.depth();
    lift_within(alloc, t, from, by)
}

/// The same for each term whose lifted variables can be counted past.
pub(crate) fn lift_within(alloc: Global, t: &Term, from: u32, by: u32) -> Result<Term, TermFault>
    requires { loose t.now + depth t.now + by < 2 ^ 32 }
    ensures ok { IfOk result (λ u. u ≡ lifted from by t.now) }
    ensures err { IfErr result (λ fault. fault ≡ Memory) }
{
    // so `from` can be counted past
    if t.loose() <= from {
        return Ok(t.share()?);
    }
    rebuild(alloc, &Lifted { by }, t, from)
}

/// Each variable that no binder above it binds is raised.
#[derive(Drop)]
struct Lifted {
    by: u32,
}

impl Leaves for Lifted {
    ghost put_variable = { λ s n i. Var (if nat_lt i n then i else i + s.by) };

    ghost put_constant = { λ s n k. Const k };

    ghost is_ready = { λ s. Unit {0} };

    ghost past_binders = { λ s. 0 };

    ghost highest = { λ s. 2 ^ 32 - 1 - s.by };

    fn keeps(&self, t: &Term, under: u32) -> bool {
        t.loose() <= under
    }

    fn variable(&self, alloc: Global, t: &Term, index: u32, under: u32) -> Result<Term, TermFault> {
        if index < under {
            Ok(t.share()?)
        } else {
            variable(alloc, index + self.by)
        }
    }

    fn constant(&self, _: Global, t: &Term, _: u32, _: u32) -> Result<Term, TermFault> {
        Ok(t.share()?)
    }
}
