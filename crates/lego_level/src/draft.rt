//! The nodes that a search has reached.
ghost use Rattle.std.specs.Prelude.{◌≡◌, ℕ, Option, Some, None, IfOk, OnOk};
ghost use Rattle.lego_level.specs.private.Searches.{found_at, reached_at, IsTouched};

use crate::constraint::Constraint;
use lego_term::Level;
use std::alloc::{AllocError, Global};
use std::collections::HashMap;

/// How far a node is to be moved, and to which value; the constraint that forces it; and whether
/// the constraints from the node were looked at. The rank is above that of the node from which
/// the constraint comes.
#[derive(Debug, Clone, Copy, PartialEq, Eq)]
pub struct Reached {
    pub gain: u64,
    pub value: u64,
    pub rank: u64,
    pub cause: Constraint,
    pub done: bool,
}

const ZERO: Level = Level {
    base: None,
    plus: 0,
};

/// The constraint that 0 is at most 0.
pub const BLANK: Constraint = Constraint {
    low: ZERO,
    high: ZERO,
    place: None,
};

/// What stands for a node that was not reached.
const UNREACHED: Reached = Reached {
    gain: 0,
    value: 0,
    rank: 0,
    cause: BLANK,
    done: false,
};

/// The reached nodes, and the same in the order in which they were reached.
#[derive(Drop)]
pub struct Draft {
    pub zero: Option<Reached>,
    pub variables: HashMap<u32, Reached>,
    pub touched: Vec<Option<u32>>,
}

impl Draft {
    pub fn new(alloc: Global) -> Draft
        ensures { (u : Option ℕ) → found_at result u ≡ None }
    {
        Draft {
            zero: None,
            variables: HashMap::new(alloc),
            touched: Vec::new(alloc),
        }
    }

    pub fn get(&self, node: Option<u32>) -> Reached
        ensures { result ≡ reached_at self.now node }
    {
        match self.found(node) {
            Some(reached) => reached,
            None => UNREACHED,
        }
    }

    fn found(&self, node: Option<u32>) -> Option<Reached>
        ensures { result ≡ found_at self.now node }
    {
        match node {
            None => self.zero,
            Some(variable) => self.variables.get(&variable).copied(),
        }
    }

    /// Sets what is known of a node. The answer is what was known before.
    fn set(&mut self, node: Option<u32>, reached: Reached) -> Result<Option<Reached>, AllocError>
        ensures before { IfOk result (λ o. o ≡ found_at self.old node) }
        ensures at { OnOk result (found_at self.new node ≡ Some reached) }
        ensures other { OnOk result ((u : Option ℕ) → (u ≡ node → ⊥) → found_at self.new u ≡ found_at self.old u) }
        ensures touched { OnOk result (self.new.touched ≡ self.old.touched) }
    {
        match node {
            None => Ok(self.zero.replace(reached)),
            Some(variable) => Ok(self.variables.insert(variable, reached)?),
        }
    }

    /// Puts what is known of a node.
    pub fn put(&mut self, node: Option<u32>, reached: Reached) -> Result<(), AllocError>
        ensures at { OnOk result (found_at self.new node ≡ Some reached) }
        ensures other { OnOk result ((u : Option ℕ) → (u ≡ node → ⊥) → found_at self.new u ≡ found_at self.old u) }
        ensures touched { OnOk result (IsTouched self.old → IsTouched self.new) }
    {
        let before = self.set(node, reached)?;
        if before.is_none() {
            self.touched.push(node)?;
        }
        Ok(())
    }
}
