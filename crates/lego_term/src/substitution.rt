//! Substitution of a term for a variable.
ghost use Rattle.std.specs.Prelude.{◌≡◌, ◌+◌, ◌^◌, ◌<◌, ◌≤◌};
ghost use Rattle.lego_term.specs.Trees.{Const, depth, loose, put_var, instantiate};
ghost use Rattle.lego_term.specs.Made.{Fits, Rebuilds};

use crate::fault::TermFault;
use crate::lifting::lift_within;
use crate::makers::variable;
use crate::term::Term;
use crate::traversal::{Leaves, rebuild};
use std::alloc::Global;

/// Puts `value` for variable 0, and lowers the others.
pub fn subst(alloc: Global, t: &Term, value: &Term) -> Result<Term, TermFault>
    requires { loose value.now + depth t.now ≤ 2 ^ 31 }
    ensures { Rebuilds (instantiate t.now value.now) result }
{
    let _loose = (value.loose(), t.loose());
    rebuild(alloc, &Substituted { value }, t, 0)
}

/// The variable of the number of binders above it is the value, lifted past them, and greater ones are lowered.
#[derive(Drop)]
struct Substituted<'a> {
    value: &'a Term,
}

impl Leaves for Substituted<'_> {
    ghost put_variable = { λ s n i. put_var n s.value.now i };

    ghost put_constant = { λ s n k. Const k };

    ghost is_ready = { λ s. Fits s.value.now };

    ghost past_binders = { λ s. loose s.value.now + depth s.value.now };

    ghost highest = { λ s. 2 ^ 32 + 2000 };

    fn keeps(&self, t: &Term, under: u32) -> bool {
        t.loose() <= under
    }

    fn variable(&self, alloc: Global, t: &Term, index: u32, under: u32) -> Result<Term, TermFault> {
        if index < under {
            Ok(t.share()?)
        } else if index == under {
            lift_within(alloc, self.value, 0, under)
        } else {
            variable(alloc, index - 1)
        }
    }

    fn constant(&self, _: Global, t: &Term, _: u32, _: u32) -> Result<Term, TermFault> {
        Ok(t.share()?)
    }
}
