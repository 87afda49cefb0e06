//! A value for each node, such that the constraints are satisfied.
ghost use Rattle.std.specs.Prelude.{◌≡◌, ◌<◌, ℕ, Option, IfOk, OnOk, Some};
ghost use Rattle.lego_level.specs.declared.limits.TheConstants.{START};
ghost use Rattle.lego_level.specs.private.Potentials.{value_at, low_of, high_of, HasRoom, IsBelowTop};

use crate::constraint::Constraint;
use crate::limits::START;
use std::alloc::{AllocError, Global};

/// The value of the zero node, and those of the variables; one behind the end has the value
/// `START`. The top is at least the value of each variable.
#[derive(Drop)]
pub struct Potential {
    pub zero: u64,
    pub values: Vec<u64>,
    pub top: u64,
}

impl Potential {
    pub fn new(alloc: Global) -> Potential
        ensures start { (u : Option ℕ) → value_at result u ≡ START }
        ensures top { result.top ≡ START }
    {
        Potential {
            zero: START,
            values: Vec::new(alloc),
            top: START,
        }
    }

    /// The same values.
    pub fn copy(&self, alloc: Global) -> Result<Potential, AllocError>
        ensures values { IfOk result (λ copy. value_at copy ≡ value_at self.now) }
        ensures top { IfOk result (λ copy. copy.top ≡ self.now.top) }
    {
        let mut values = Vec::new(alloc);
        values.extend_from_slice(self.values.as_slice())?;
        Ok(Potential {
            zero: self.zero,
            values,
            top: self.top,
        })
    }

    /// The value of a node.
    pub fn value(&self, node: Option<u32>) -> u64
        ensures { result ≡ value_at self.now node }
    {
        let Some(variable) = node else {
            return self.zero;
        };
        match self.values.get(variable as usize) {
            Some(value) => *value,
            None => START,
        }
    }

    /// The values of the two levels of a constraint.
    pub fn levels(&self, constraint: Constraint) -> Result<(u64, u64), AllocError>
        ensures { IfOk result (λ r. (r.0 ≡ low_of (value_at self.now) constraint) × (r.1 ≡ high_of (value_at self.now) constraint)) }
    {
        let low = self
            .value(constraint.low.base)
            .checked_add(u64::from(constraint.low.plus))
            .ok_or(AllocError)?;
        let high = self
            .value(constraint.high.base)
            .checked_add(u64::from(constraint.high.plus))
            .ok_or(AllocError)?;
        Ok((low, high))
    }

    /// Makes room for the value of a node.
    pub fn reserve(&mut self, node: Option<u32>) -> Result<(), AllocError>
        ensures room { OnOk result (HasRoom self.new node) }
        ensures longer { (u : Option ℕ) → HasRoom self.old u → HasRoom self.new u }
        ensures same { value_at self.new ≡ value_at self.old }
        ensures top { IsBelowTop self.old → IsBelowTop self.new }
        ensures same_top { self.new.top ≡ self.old.top }
    {
        if let Some(variable) = node {
            while self.values.len() <= variable as usize {
                self.values.push(START)?;
            }
        }
        Ok(())
    }

    /// Sets the value of a node.
    pub fn write(&mut self, node: Option<u32>, value: u64)
        requires { HasRoom self.old node }
        ensures at { value_at self.new node ≡ value }
        ensures other { (u : Option ℕ) → (u ≡ node → ⊥) → value_at self.new u ≡ value_at self.old u }
        ensures top { IsBelowTop self.old → IsBelowTop self.new }
        ensures room { (u : Option ℕ) → HasRoom self.old u → HasRoom self.new u }
    {
        match node {
            None => self.zero = value,
            Some(variable) => {
                self.values[variable as usize] = value;
                self.top = self.top.max(value);
            }
        }
    }
}
