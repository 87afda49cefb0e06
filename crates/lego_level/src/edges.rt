//! A list of constraints, with those that leave each node and those that come to it at hand.
ghost use Rattle.std.specs.Prelude.{◌≡◌, ◌<◌, ◌++◌, ℕ, List, [], ◌∷◌, ◌≤◌, length, get_or, IfOk, OnOk, OnErr, Option};
ghost use Rattle.lego_level.specs.declared.constraint.Constraint.{Constraint};
ghost use Rattle.lego_level.specs.Graphs.{HasVariablesBelow, IsVariableBelow};
ghost use Rattle.lego_level.specs.private.Incidence.{incident};
ghost use Rattle.lego_level.specs.private.Adjacency.{adjacent_at};

use crate::constraint::Constraint;
use crate::direction::Direction;
use std::alloc::{AllocError, Global};
use std::marker::Model;

/// Constraints at one node, in the order in which they were added.
#[derive(Drop)]
pub struct Adjacent {
    items: Vec<Constraint>,
}

impl Model for Adjacent {
    ghost use Rattle.std.specs.Prelude.{List};
    ghost use Rattle.lego_level.specs.declared.constraint.Constraint.{Constraint};

    ghost Value = { List Constraint };

    ghost view = { λ l. l.items.items };
}

impl Adjacent {
    fn new(alloc: Global) -> Adjacent
        ensures { result ≡ [] }
    {
        Adjacent {
            items: Vec::new(alloc),
        }
    }

    fn push(&mut self, constraint: Constraint) -> Result<(), AllocError>
        ensures ok { OnOk result (self.new ≡ self.old ++ constraint ∷ []) }
        ensures err { OnErr result (self.new ≡ self.old) }
    {
        self.items.push(constraint)?;
        Ok(())
    }

    fn pop(&mut self)
        ensures { (cs : List Constraint) (c : Constraint) → self.old ≡ cs ++ c ∷ [] → self.new ≡ cs }
    {
        let _ = self.items.pop();
    }

    fn items(&self) -> &[Constraint]
        ensures { result.now ≡ self.now }
    {
        self.items.as_slice()
    }
}

/// The constraints at each node: at the zero node, and at each variable.
#[derive(Drop)]
pub struct Adjacency {
    zero: Adjacent,
    variables: Vec<Adjacent>,
}

impl Adjacency {
    fn new(alloc: Global) -> Adjacency
        ensures { (u : Option ℕ) → adjacent_at result u ≡ [] }
    {
        Adjacency {
            zero: Adjacent::new(alloc),
            variables: Vec::new(alloc),
        }
    }

    fn at(&self, node: Option<u32>) -> &[Constraint]
        ensures { result.now ≡ adjacent_at self.now node }
    {
        let Some(variable) = node else {
            return self.zero.items();
        };
        match self.variables.get(variable as usize) {
            Some(adjacent) => adjacent.items(),
            None => &[],
        }
    }

    /// Adds a constraint at a node.
    fn push(
        &mut self,
        alloc: Global,
        node: Option<u32>,
        constraint: Constraint,
    ) -> Result<(), AllocError>
        ensures at { OnOk result (adjacent_at self.new node ≡ adjacent_at self.old node ++ constraint ∷ []) }
        ensures other { OnOk result ((u : Option ℕ) → (u ≡ node → ⊥) → adjacent_at self.new u ≡ adjacent_at self.old u) }
        ensures err { OnErr result ((u : Option ℕ) → adjacent_at self.new u ≡ adjacent_at self.old u) }
    {
        let Some(variable) = node else {
            return self.zero.push(constraint);
        };
        grow(alloc, &mut self.variables, variable as usize)?;
        self.variables[variable as usize].push(constraint)
    }

    /// Takes the last constraint at a node away.
    fn pop(&mut self, node: Option<u32>)
        ensures at { (cs : List Constraint) (c : Constraint) → adjacent_at self.old node ≡ cs ++ c ∷ [] → adjacent_at self.new node ≡ cs }
        ensures other { (u : Option ℕ) → (u ≡ node → ⊥) → adjacent_at self.new u ≡ adjacent_at self.old u }
    {
        match node {
            None => self.zero.pop(),
            Some(variable) => {
                if (variable as usize) < self.variables.len() {
                    self.variables[variable as usize].pop();
                }
            }
        }
    }
}

/// Makes room for the constraints at a variable.
fn grow(alloc: Global, variables: &mut Vec<Adjacent>, variable: usize) -> Result<(), AllocError>
    ensures room { OnOk result (variable < length variables.new.items) }
    ensures same { (u : ℕ) → get_or variables.new.items u [] ≡ get_or variables.old.items u [] }
{
    while variables.len() <= variable {
        variables.push(Adjacent::new(alloc))?;
    }
    Ok(())
}

/// The constraints, those that leave each node, and those that come to it. The count is above
/// each variable.
#[derive(Drop)]
pub struct Edges {
    all: Vec<Constraint>,
    leaving: Adjacency,
    arriving: Adjacency,
    count: u32,
}

impl Model for Edges {
    ghost use Rattle.std.specs.Prelude.{◌≡◌, ℕ, List, Option};
    ghost use Rattle.lego_level.specs.declared.constraint.Constraint.{Constraint};
    ghost use Rattle.lego_level.specs.declared.direction.Direction.TheVariants.{Up, Down};
    ghost use Rattle.lego_level.specs.Graphs.{HasVariablesBelow};
    ghost use Rattle.lego_level.specs.private.Incidence.{incident};
    ghost use Rattle.lego_level.specs.private.Adjacency.{adjacent_at};

    ghost Value = { List Constraint };

    ghost view = { λ e. e.all.items };

    ghost invariant = { λ e. ((u : Option ℕ) → adjacent_at e.leaving u ≡ incident Up u e.all.items)
        × ((u : Option ℕ) → adjacent_at e.arriving u ≡ incident Down u e.all.items) × HasVariablesBelow e.count e.all.items };
}

impl Edges {
    pub fn new(alloc: Global) -> Edges
        ensures { result ≡ [] }
    {
        Edges {
            all: Vec::new(alloc),
            leaving: Adjacency::new(alloc),
            arriving: Adjacency::new(alloc),
            count: 0,
        }
    }

    /// The same constraints.
    pub fn copy(&self, alloc: Global) -> Result<Edges, AllocError>
        ensures { IfOk result (λ copy. copy ≡ self.now) }
    {
        let mut copy = Edges::new(alloc);
        for constraint in self.all() {
            copy.push(alloc, *constraint)?;
        }
        Ok(copy)
    }

    pub fn all(&self) -> &[Constraint]
        ensures { result.now ≡ self.now }
    {
        self.all.as_slice()
    }

    /// A number above each variable.
    pub fn count(&self) -> u32
        ensures { HasVariablesBelow result self.now }
    {
        self.count
    }

    /// The constraints along which a search goes from a node.
    pub fn incident(&self, direction: Direction, node: Option<u32>) -> &[Constraint]
        ensures { result.now ≡ incident direction node self.now }
    {
        match direction {
            Direction::Up => self.leaving.at(node),
            Direction::Down => self.arriving.at(node),
        }
    }

    /// Adds a constraint behind the others.
    pub fn push(&mut self, alloc: Global, constraint: Constraint) -> Result<(), AllocError>
        ensures ok { OnOk result (self.new ≡ self.old ++ constraint ∷ []) }
        ensures err { OnErr result (self.new ≡ self.old) }
    {
        let (low, high) = (constraint.low.base, constraint.high.base);
        let count = count_with(count_with(self.count, low)?, high)?;
        self.leaving.push(alloc, low, constraint)?;
        if self.arriving.push(alloc, high, constraint).is_err() {
            self.leaving.pop(low);
            return Err(AllocError);
        }
        if self.all.push(constraint).is_err() {
            self.arriving.pop(high);
            self.leaving.pop(low);
            return Err(AllocError);
        }
        self.count = count;
        Ok(())
    }

    /// Takes the last constraint away.
    pub fn pop(&mut self)
        ensures none { self.old ≡ [] → self.new ≡ [] }
        ensures some { (cs : List Constraint) (c : Constraint) → self.old ≡ cs ++ c ∷ [] → self.new ≡ cs }
    {
        if let Some(last) = self.all.pop() {
            self.leaving.pop(last.low.base);
            self.arriving.pop(last.high.base);
        }
    }
}

/// The count, or a number above a node's variable if that is greater.
fn count_with(count: u32, node: Option<u32>) -> Result<u32, AllocError>
    ensures more { IfOk result (λ n. count ≤ n) }
    ensures above { IfOk result (λ n. IsVariableBelow n node) }
{
    match node {
        None => Ok(count),
        Some(variable) => Ok(count.max(variable.checked_add(1).ok_or(AllocError)?)),
    }
}
