//! Shared terms.
ghost use Rattle.std.specs.Prelude.{◌≡◌, ◌≤◌, IfOk};
ghost use Rattle.lego_term.specs.Trees.{size, depth, loose};
ghost use Rattle.lego_term.specs.Made.{Makes, Fits};
ghost use Rattle.lego_term.specs.private.ConstantBound.{constant_bound};
ghost use Rattle.lego_term.specs.private.Digest.{digest as digest_of};
ghost use Rattle.lego_term.specs.private.Form.{tree_of};
ghost use Rattle.lego_term.specs.Node.{shown};

use crate::binder::{Binder, Mark};
use crate::fault::TermFault;
use crate::level::Level;
use crate::numbers::Numbers;
use std::alloc::{AllocError, Global};
use std::marker::Model;
use std::rc::Rc;

/// The most nodes that a term has.
pub const MAX_SIZE: u64 = 1_048_576;

/// The greatest depth of a term.
pub const MAX_DEPTH: u32 = 2_000;

/// A term, shared by `Rc`.
#[cycle(term)]
#[derive(Drop)]
pub struct Term {
    root: Rc<Root>,
}

/// The root of a term, with the numbers of its tree.
#[cycle(term)]
#[derive(Drop)]
pub(crate) struct Root {
    size: u64,
    depth: u32,
    loose: u32,
    constants: u64,
    digest: u64,
    form: Form,
}

#[cycle(term)]
#[derive(Drop)]
pub(crate) enum Form {
    Var(u32),
    Const(u32),
    Prop,
    Univ(Level),
    Pi(Binder, Term, Term),
    Lam(Binder, Term, Term),
    App(Mark, Term, Term),
    Sigma(Binder, Term, Term),
    Pair(Binder, Term, Term, Term, Term),
    Fst(Term),
    Snd(Term),
    Local(Binder, Term, Term),
}

impl Model for Term {
    ghost use Rattle.lego_term.specs.Trees.{Core, size as nodes_of};
    ghost use Rattle.lego_term.specs.private.TreeCode.{tree_code};

    ghost Value = { Core };

    ghost coded = { tree_code };

    ghost use Rattle.lego_term.specs.private.Form.{tree_of, HasNumbers};

    ghost view = { λ t. tree_of t.root.value.form };

    ghost invariant = { λ t. HasNumbers (tree_of t.root.value.form) t.root.value.size t.root.value.depth t.root.value.loose t.root.value.constants t.root.value.digest };

    ghost size = { nodes_of };

    ghost use Rattle.lego_term.specs.private.TermFalls.{deep_le-size};

    ghost size_decreases = { λ a h. deep_le-size a.root.value.form };
}

impl Term {
    /// The same tree, shared.
    pub fn share(&self) -> Result<Term, AllocError>
        ensures same { IfOk result (λ t. t ≡ self.now) }
        ensures limits { Fits self.now }
    {
        let root = self.root.clone()?;
        Ok(Term { root })
    }

    /// The number of nodes.
    pub fn size(&self) -> u64
        ensures exact { result ≡ size self.now }
        ensures limit { result ≤ 1048576 }
    {
        self.root.size
    }

    /// The number of nodes on the longest way from the root.
    pub fn depth(&self) -> u32
        ensures exact { result ≡ depth self.now }
        ensures limit { result ≤ 2000 }
    {
        self.root.depth
    }

    /// One more than the greatest loose variable, or 0.
    pub fn loose(&self) -> u32
        ensures exact { result ≡ loose self.now }
        ensures limits { Fits self.now }
    {
        self.root.loose
    }

    /// One more than the greatest constant, or 0.
    pub(crate) fn constants(&self) -> u64
        ensures { result ≡ constant_bound self.now }
    {
        self.root.constants
    }

    /// A number that equal terms share, and terms that differ hardly ever.
    pub(crate) fn digest(&self) -> u64
        ensures { result ≡ digest_of self.now }
    {
        self.root.digest
    }

    /// The root, with the parts below it.
    pub fn view(&self) -> Node<'_>
        ensures root { shown result ≡ self.now }
        ensures limits { Fits self.now }
    {
        match &self.root.form {
            Form::Var(index) => Node::Var(*index),
            Form::Const(number) => Node::Const(*number),
            Form::Prop => Node::Prop,
            Form::Univ(level) => Node::Univ(*level),
            Form::Pi(binder, domain, body) => Node::Pi(*binder, domain, body),
            Form::Lam(binder, domain, body) => Node::Lam(*binder, domain, body),
            Form::App(mark, function, argument) => Node::App(*mark, function, argument),
            Form::Sigma(binder, first, second) => Node::Sigma(*binder, first, second),
            Form::Pair(binder, a, b, m, n) => Node::Pair(*binder, a, b, m, n),
            Form::Fst(of) => Node::Fst(of),
            Form::Snd(of) => Node::Snd(of),
            Form::Local(binder, value, body) => Node::Local(*binder, value, body),
        }
    }

    /// A term of this form, whose numbers are given.
    pub(crate) fn of(alloc: Global, form: Form, numbers: Numbers) -> Result<Term, TermFault>
        requires size { numbers.size ≡ size (tree_of form) }
        requires depth { numbers.depth ≡ depth (tree_of form) }
        requires loose { numbers.loose ≡ loose (tree_of form) }
        requires constants { numbers.constants ≡ constant_bound (tree_of form) }
        requires digest { numbers.digest ≡ digest_of (tree_of form) }
        ensures { Makes (tree_of form) result }
    {
        let Numbers {
            size,
            depth,
            loose,
            constants,
            digest,
        } = numbers;
        if size > MAX_SIZE || depth > MAX_DEPTH {
            return Err(TermFault::TooLarge { size, depth });
        }
        let root = Root {
            size,
            depth,
            loose,
            constants,
            digest,
            form,
        };
        match Rc::new(alloc, root) {
            Ok(root) => Ok(Term { root }),
            Err(_) => Err(TermFault::Memory),
        }
    }
}

/// The root of a term, with the parts below it.
#[derive(Clone, Copy)]
pub enum Node<'a> {
    Var(u32),
    Const(u32),
    Prop,
    Univ(Level),
    Pi(Binder, &'a Term, &'a Term),
    Lam(Binder, &'a Term, &'a Term),
    App(Mark, &'a Term, &'a Term),
    Sigma(Binder, &'a Term, &'a Term),
    Pair(Binder, &'a Term, &'a Term, &'a Term, &'a Term),
    Fst(&'a Term),
    Snd(&'a Term),
    Local(Binder, &'a Term, &'a Term),
}
