//! The graph of constraints.
ghost use Rattle.std.specs.Prelude.{◌≡◌, ◌≤◌, ◌<◌, ◌++◌, [], length, take, IfOk, IfErr, OnOk, OnErr};
ghost use Rattle.lego_level.specs.Graphs.{CanBeSatisfiedWithin, HasVariablesBelow, IsLeast};
ghost use Rattle.lego_level.specs.Refusals.{IsGraphFault};

use crate::constraint::Constraint;
use crate::fault::GraphFault;
use crate::solver::Solver;
use std::alloc::{AllocError, Global};
use std::marker::Model;

/// Constraints that can be satisfied with values up to 1,000,000, which contracts see as their
/// list. It keeps values that satisfy them but need not be least, so that a further constraint
/// moves little, and that taking the newest ones away moves nothing.
#[derive(Drop)]
pub struct Graph {
    alloc: Global,
    solver: Solver,
}

impl Model for Graph {
    ghost use Rattle.std.specs.Prelude.{List};
    ghost use Rattle.lego_level.specs.declared.constraint.Constraint.{Constraint};
    ghost use Rattle.lego_level.specs.Graphs.{CanBeSatisfiedWithin};

    ghost Value = { List Constraint };

    ghost view = { λ g. g.solver };

    ghost invariant = { λ g. CanBeSatisfiedWithin g.solver };
}

impl Graph {
    /// A graph without constraints.
    pub fn new(alloc: Global) -> Graph
        ensures { result ≡ [] }
    {
        Graph {
            alloc,
            solver: Solver::new(alloc),
        }
    }

    /// A graph of the same constraints, to which others can be added without changing this one.
    pub fn copy(&self) -> Result<Graph, AllocError>
        ensures { IfOk result (λ copy. copy ≡ self.now) }
    {
        let solver = self.solver.copy(self.alloc)?;
        Ok(Graph {
            alloc: self.alloc,
            solver,
        })
    }

    /// Adds constraints behind those held. All of them are refused where they and the held ones
    /// can't be satisfied together (`Cycle`), or can only with a value over 1,000,000
    /// (`LevelTooBig`), or where memory runs out; then the graph is as it was.
    pub fn extend(&mut self, more: &[Constraint]) -> Result<(), GraphFault>
        ensures added { OnOk result (self.new ≡ self.old ++ more.now) }
        ensures within { OnOk result (CanBeSatisfiedWithin self.new) }
        ensures refused { IfErr result (IsGraphFault (self.old ++ more.now)) }
        ensures unchanged { OnErr result (self.new ≡ self.old) }
    {
        let held = self.solver.constraints().len();
        let outcome = add_all(self.alloc, &mut self.solver, more);
        if outcome.is_err() {
            cut(&mut self.solver, held);
        }
        outcome
    }

    /// Keeps the first n constraints. It takes no memory.
    pub fn cut_to(&mut self, n: usize)
        requires { n ≤ length self.old }
        ensures { self.new ≡ take n self.old }
    {
        cut(&mut self.solver, n);
    }

    /// The constraints, in the order in which they were added. They can be satisfied with values
    /// up to 1,000,000.
    pub fn constraints(&self) -> &[Constraint]
        ensures items { result.now ≡ self.now }
        ensures within { CanBeSatisfiedWithin self.now }
    {
        self.solver.constraints()
    }

    /// How many constraints are held.
    pub fn len(&self) -> usize
        ensures { result ≡ length self.now }
    {
        self.solver.constraints().len()
    }

    /// The least values of the variables below `count`, which is above each variable of a
    /// constraint.
    pub fn least(&self, count: u32) -> Result<Vec<u64>, AllocError>
        requires { HasVariablesBelow count self.now }
        ensures least { IfOk result (λ values. IsLeast self.now values.items) }
        ensures len { IfOk result (λ values. length values.items ≡ count) }
    {
        self.solver.least(self.alloc, count)
    }
}

/// Adds constraints one at a time, as far as they can be.
fn add_all(alloc: Global, solver: &mut Solver, more: &[Constraint]) -> Result<(), GraphFault>
    requires { CanBeSatisfiedWithin solver.old }
    ensures added { OnOk result (solver.new ≡ solver.old ++ more.now) }
    ensures within { OnOk result (CanBeSatisfiedWithin solver.new) }
    ensures refused { IfErr result (IsGraphFault (solver.old ++ more.now)) }
    ensures before { take (length solver.old) solver.new ≡ solver.old }
    ensures longer { length solver.old ≤ length solver.new }
{
    for constraint in more {
        solver.insert(alloc, *constraint)?;
    }
    let Ok(over) = solver.settle(alloc) else {
        return Err(GraphFault::Memory);
    };
    match over {
        Some((constraint, needed)) => Err(GraphFault::LevelTooBig { constraint, needed }),
        None => Ok(()),
    }
}

/// Keeps the first constraints.
fn cut(solver: &mut Solver, held: usize)
    requires { held ≤ length solver.old }
    ensures { solver.new ≡ take held solver.old }
{
    while solver.constraints().len() > held {
        solver.pop();
    }
}
