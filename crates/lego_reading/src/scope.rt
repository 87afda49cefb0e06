//! The local variables in scope, which contracts see as their list, the innermost first.
ghost use Rattle.std.specs.Prelude.{◌≡◌, ◌<◌, ◌≤◌, [], ◌∷◌, drop, length, map, reverse, slice_get, Some, OnOk, IfOk};
ghost use Rattle.std.specs.Option.{option_copied};
ghost use Rattle.lego_grammar.specs.Scopes.{LocalVariable, local_name, local_named};
ghost use Rattle.lego_reading.specs.Failures.{plain_binder};
ghost use Rattle.lego_reading.specs.private.Variables.{variable_of, value_of};

use lego_term::{Binder, Mark, Term};
use std::alloc::{AllocError, Global};
use std::marker::Model;

/// A local variable: of a binder, which may have no name, or of a local definition.
#[derive(Drop)]
pub(crate) enum Variable {
    Bound(Option<u32>),
    Defined(u32, Term),
}

impl Variable {
    fn name(&self) -> Option<u32>
        ensures { result ≡ local_name (variable_of self.now) }
    {
        match self {
            Variable::Bound(name) => *name,
            Variable::Defined(name, _) => Some(*name),
        }
    }

    fn value(&self) -> Option<&Term>
        ensures { option_copied result ≡ value_of (variable_of self.now) }
    {
        match self {
            Variable::Bound(_) => None,
            Variable::Defined(_, value) => Some(value),
        }
    }
}

/// The local variables where a term is read.
#[derive(Drop)]
pub(crate) struct Scope {
    alloc: Global,
    // the outermost first
    variables: Vec<Variable>,
}

impl Model for Scope {
    ghost use Rattle.std.specs.Coded.{coded_list};
    ghost use Rattle.std.specs.Prelude.{map as mapped, reverse as reversed};
    ghost use Rattle.lego_grammar.specs.Scopes.{Scope as Locals};
    ghost use Rattle.lego_reading.specs.private.VariableCode.{local_code};
    ghost use Rattle.lego_reading.specs.private.Variables.{variable_of as local_of};

    ghost Value = { Locals };

    ghost coded = { coded_list local_code };

    ghost view = { λ s. mapped local_of (reversed s.variables.items) };
}

impl Scope {
    /// No local variables.
    pub(crate) fn new(alloc: Global) -> Scope
        ensures { result ≡ [] }
    {
        Scope {
            alloc,
            variables: Vec::new(alloc),
        }
    }

    /// How many there are.
    pub(crate) fn len(&self) -> usize
        ensures { result ≡ length self.now }
    {
        self.variables.len()
    }

    /// Goes under a binder or a local definition.
    pub(crate) fn push(&mut self, variable: Variable) -> Result<(), AllocError>
        ensures { OnOk result (self.new ≡ variable_of variable ∷ self.old) }
    {
        let Ok(()) = self.variables.push(variable) else {
            return Err(AllocError);
        };
        Ok(())
    }

    /// Leaves the innermost one.
    pub(crate) fn pop(&mut self)
        requires { 0 < length self.old }
        ensures { self.new ≡ drop 1 self.old }
    {
        self.variables.pop();
    }

    /// Leaves so many of the innermost ones.
    #[tactic(auto, using(crate::proofs::ScopeLemmas::left_behind))]
    pub(crate) fn leave(&mut self, count: usize)
        requires { count ≤ length self.old }
        ensures { self.new ≡ drop count self.old }
    {
        self.variables.truncate(self.variables.len() - count);
    }

    /// The innermost variable of the name, by the number of variables inside it.
    #[tactic(auto, using(crate::proofs::ScopeLemmas::none_more, crate::proofs::ScopeLemmas::first_named))]
    pub(crate) fn position(&self, name: u32) -> Option<usize>
        ensures { result ≡ local_named self.now name }
    {
        let count = self.variables.len();
        for inside in 0..count {
            if self.variables[count - 1 - inside].name() == Some(name) {
                return Some(inside);
            }
        }
        None
    }

    /// The value of the variable that has so many inside it, where it is of a local definition.
    pub(crate) fn value(&self, inside: usize) -> Option<&Term>
        requires { inside < length self.now }
        ensures { (x : LocalVariable) × (slice_get self.now inside ≡ Some x) × (option_copied result ≡ value_of x) }
    {
        self.variables[self.variables.len() - 1 - inside].value()
    }

    /// The variables as binders, the outermost first.
    pub(crate) fn binders(&self) -> Result<Vec<Binder>, AllocError>
        ensures { IfOk result (λ binders. binders.items ≡ reverse (map plain_binder self.now)) }
    {
        let mut binders = Vec::new(self.alloc);
        for variable in &self.variables {
            binders.push(Binder {
                name: variable.name(),
                mark: Mark::Plain,
            })?;
        }
        Ok(binders)
    }
}
