//! The values of local definitions put for their variables.
ghost use Rattle.std.specs.Prelude.{◌≡◌, ◌+◌, ◌≤◌, length};
ghost use Rattle.lego_term.specs.Trees.{depth, loose};
ghost use Rattle.lego_term.specs.Made.{Rebuilds};
ghost use Rattle.lego_reading.specs.private.Variables.{AreOver};
ghost use Rattle.lego_reading.specs.private.Values.{put_kept, PutsValues};

use crate::scope::Scope;
use lego_term::{Node, Term, TermFault, app, fst, lam, lift, local, pair, pi, sigma, snd};
use std::alloc::Global;

/// The term with the values of the local definitions in scope put for their variables; all other
/// variables keep their numbers.
pub(crate) fn with_values(alloc: Global, scope: &Scope, t: &Term) -> Result<Term, TermFault>
    requires scope { AreOver scope.now }
    requires room { length scope.now ≤ 61536 }
    requires within { loose t.now ≤ length scope.now }
    ensures { PutsValues scope.now t.now result }
{
    let mut made = t.share()?;
    for inside in 0..scope.len() {
        if let Some(value) = scope.value(inside) {
            let _depth = made.depth();
            made = put(alloc, &made, value, inside as u32)?;
        }
    }
    Ok(made)
}

/// Puts the value for the variable `at`; the others keep their numbers.
fn put(alloc: Global, t: &Term, value: &Term, at: u32) -> Result<Term, TermFault>
    requires { loose value.now + (at + depth t.now) ≤ 65535 }
    ensures { Rebuilds (put_kept at value.now t.now) result }
{
    if t.loose() <= at {
        return Ok(t.share()?);
    }
    match t.view() {
        Node::Var(index) => {
            if index == at {
                let _limits = value.loose();
                lift(alloc, value, 0, at + 1)
            } else {
                Ok(t.share()?)
            }
        }
        Node::Const(_) | Node::Prop | Node::Univ(_) => Ok(t.share()?),
        Node::Pi(binder, domain, body) => {
            let domain = put(alloc, domain, value, at)?;
            let body = put(alloc, body, value, at + 1)?;
            pi(alloc, binder, &domain, &body)
        }
        Node::Lam(binder, domain, body) => {
            let domain = put(alloc, domain, value, at)?;
            let body = put(alloc, body, value, at + 1)?;
            lam(alloc, binder, &domain, &body)
        }
        Node::App(mark, function, argument) => {
            let function = put(alloc, function, value, at)?;
            let argument = put(alloc, argument, value, at)?;
            app(alloc, mark, &function, &argument)
        }
        Node::Sigma(binder, first, second) => {
            let first = put(alloc, first, value, at)?;
            let second = put(alloc, second, value, at + 1)?;
            sigma(alloc, binder, &first, &second)
        }
        Node::Pair(binder, a, b, m, n) => {
            let a = put(alloc, a, value, at)?;
            let b = put(alloc, b, value, at + 1)?;
            let m = put(alloc, m, value, at)?;
            let n = put(alloc, n, value, at)?;
            pair(alloc, binder, &a, &b, &m, &n)
        }
        Node::Fst(of) => {
            let of = put(alloc, of, value, at)?;
            fst(alloc, &of)
        }
        Node::Snd(of) => {
            let of = put(alloc, of, value, at)?;
            snd(alloc, &of)
        }
        Node::Local(binder, defined, body) => {
            let defined = put(alloc, defined, value, at)?;
            let body = put(alloc, body, value, at + 1)?;
            local(alloc, binder, &defined, &body)
        }
    }
}
