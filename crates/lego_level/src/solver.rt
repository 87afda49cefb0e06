//! Constraints with a potential that satisfies them, one at a time.
ghost use Rattle.std.specs.Prelude.{◌≡◌, ◌+◌, ◌<◌, ◌≤◌, ◌-◌, take, ◌++◌, ◌∷◌, [], ℕ, Option, Some, None, length, get_or, MatchOption, IfOk, IfErr, OnOk, OnErr, Contains};
ghost use Rattle.lego_level.specs.declared.limits.TheConstants.{MAX_SPREAD};
ghost use Rattle.lego_level.specs.Graphs.{CanBeSatisfiedWithin, Forces, HasVariablesBelow, IsLeast};
ghost use Rattle.lego_level.specs.private.Faults.{IsInsertFault};
ghost use Rattle.lego_level.specs.private.Outcomes.{IsSettled};
ghost use Rattle.lego_level.specs.private.Potentials.{value_at, HasRoom, IsBelowTop, IsFeasible};
ghost use Rattle.lego_level.specs.private.Searches.{reached_at, moved_to, IsTouched};

use crate::constraint::Constraint;
use crate::cycle::walk;
use crate::draft::Draft;
use crate::edges::Edges;
use crate::least::lowest;
use crate::limits::{MAX_SPREAD, MAX_VALUE, START};
use crate::mend::{Closing, Outcome, mend};
use crate::potential::Potential;
use lego_term::List;
use std::alloc::{AllocError, Global};
use std::marker::Model;

/// Why a constraint was not taken in.
#[derive(Debug, Drop)]
pub enum InsertFault {
    Cycle(List<Constraint>),
    Memory,
}

impl From<AllocError> for InsertFault {
    ghost use Rattle.std.specs.Prelude.{◌≡◌};
    ghost use Rattle.lego_level.specs.declared.solver.InsertFault.TheVariants.{Memory};

    ghost from_gives = { λ _ e. e ≡ Memory };

    fn from(_: AllocError) -> InsertFault {
        InsertFault::Memory
    }
}

/// Constraints that can be satisfied, and a potential that satisfies them.
#[derive(Drop)]
pub struct Solver {
    edges: Edges,
    potential: Potential,
}

impl Model for Solver {
    ghost use Rattle.std.specs.Prelude.{List};
    ghost use Rattle.lego_level.specs.declared.constraint.Constraint.{Constraint};
    ghost use Rattle.lego_level.specs.private.Potentials.{value_at, IsFeasible, IsBelowTop};

    ghost Value = { List Constraint };

    ghost view = { λ s. s.edges };

    ghost invariant = { λ s. IsFeasible (value_at s.potential) s.edges × IsBelowTop s.potential };
}

impl Solver {
    pub fn new(alloc: Global) -> Solver
        ensures { result ≡ [] }
    {
        Solver {
            edges: Edges::new(alloc),
            potential: Potential::new(alloc),
        }
    }

    /// The same constraints and values.
    pub fn copy(&self, alloc: Global) -> Result<Solver, AllocError>
        ensures { IfOk result (λ copy. copy ≡ self.now) }
    {
        let edges = self.edges.copy(alloc)?;
        let potential = self.potential.copy(alloc)?;
        Ok(Solver { edges, potential })
    }

    pub fn constraints(&self) -> &[Constraint]
        ensures { result.now ≡ self.now }
    {
        self.edges.all()
    }

    /// Takes the newest constraint away. The potential satisfies those that are left.
    pub fn pop(&mut self)
        ensures { self.new ≡ take (length self.old - 1) self.old }
    {
        self.edges.pop();
    }

    /// Takes a constraint in. One that is refused leaves the constraints as they were.
    pub fn insert(&mut self, alloc: Global, added: Constraint) -> Result<(), InsertFault>
        ensures taken { OnOk result (self.new ≡ self.old ++ added ∷ []) }
        ensures refused { IfErr result (IsInsertFault (self.old ++ added ∷ [])) }
        ensures unchanged { OnErr result (self.new ≡ self.old) }
    {
        narrow(alloc, &self.edges, &mut self.potential)?;
        let (low, high) = self.potential.levels(added)?;
        if low <= high {
            self.edges.push(alloc, added)?;
            return Ok(());
        }
        if added.low.base == added.high.base {
            return Err(InsertFault::Cycle(alone(alloc, added)?));
        }
        match mend(alloc, &self.edges, &self.potential, added, low - high)? {
            Outcome::Mended(draft) => {
                reserve_all(&mut self.potential, &draft)?;
                self.edges.push(alloc, added)?;
                keep(&mut self.potential, &draft);
                Ok(())
            }
            Outcome::Closed(
                Closing {
                    task,
                    draft,
                    closing,
                },
            ) => {
                let (edges, potential) = (&self.edges, &self.potential);
                let cycle = walk(alloc, task, edges, potential, &draft, closing)?;
                Err(InsertFault::Cycle(cycle))
            }
        }
    }

    /// The least values of the variables below the count, which is above each variable of a
    /// constraint.
    pub fn least(&self, alloc: Global, count: u32) -> Result<Vec<u64>, AllocError>
        requires { HasVariablesBelow count self.now }
        ensures least { IfOk result (λ values. IsLeast self.now values.items) }
        ensures len { IfOk result (λ values. length values.items ≡ count) }
    {
        let draft = lowest(alloc, &self.edges, &self.potential, count)?;
        values_of(alloc, &draft, count)
    }

    /// Whether the values can be kept within the limit. If not, the answer is a least value over
    /// it, and the constraint that forces it.
    pub fn settle(&mut self, alloc: Global) -> Result<Option<(Constraint, u64)>, AllocError>
        ensures same { self.new ≡ self.old }
        ensures settled { IfOk result (λ r. MatchOption r (CanBeSatisfiedWithin self.old) (λ p. Forces self.old p.0 p.1)) }
    {
        let count = self.edges.count();
        if self.potential.top - self.potential.zero <= MAX_VALUE {
            return Ok(None);
        }
        let draft = lowest(alloc, &self.edges, &self.potential, count)?;
        match lay_out(alloc, &draft, count, MAX_VALUE)? {
            Settled::Within(potential) => {
                self.potential = potential;
                Ok(None)
            }
            Settled::Over(constraint, needed) => Ok(Some((constraint, needed))),
        }
    }
}

/// Takes the least values for the potential where it has come to be so wide that a further
/// constraint might lead out of 64 bits.
fn narrow(alloc: Global, edges: &Edges, potential: &mut Potential) -> Result<(), AllocError>
    requires feasible { IsFeasible (value_at potential.old) edges.now }
    requires top { IsBelowTop potential.old }
    ensures feasible { IsFeasible (value_at potential.new) edges.now }
    ensures top { IsBelowTop potential.new }
    ensures spread { OnOk result (potential.new.top ≤ potential.new.zero + MAX_SPREAD) }
{
    if potential.top - potential.zero <= MAX_SPREAD {
        return Ok(());
    }
    let count = edges.count();
    let draft = lowest(alloc, edges, potential, count)?;
    match lay_out(alloc, &draft, count, MAX_SPREAD)? {
        Settled::Within(least) => {
            let is_narrow = least.top.saturating_sub(least.zero) <= MAX_SPREAD;
            *potential = least;
            if is_narrow { Ok(()) } else { Err(AllocError) }
        }
        Settled::Over(_, _) => Err(AllocError),
    }
}

/// The values of the variables below the count above that of the zero node.
fn values_of(alloc: Global, draft: &Draft, count: u32) -> Result<Vec<u64>, AllocError>
    requires { (u : ℕ) → u < count → (reached_at draft.now None).value ≤ (reached_at draft.now (Some u)).value }
    ensures len { IfOk result (λ values. length values.items ≡ count) }
    ensures values { IfOk result (λ values. (u : ℕ) → u < count → get_or values.items u 0 + (reached_at draft.now None).value ≡ (reached_at draft.now (Some u)).value) }
{
    let base = draft.get(None).value;
    let mut values = Vec::with_capacity(alloc, count as usize)?;
    for variable in 0..count {
        values.push(draft.get(Some(variable)).value - base)?;
    }
    Ok(values)
}

/// Least values as a potential, or one of them that is over a limit and what forces it.
#[derive(Drop)]
pub enum Settled {
    Within(Potential),
    Over(Constraint, u64),
}

/// Lays least values out as a potential, in which the zero node has the value `START`.
fn lay_out(alloc: Global, draft: &Draft, count: u32, limit: u64) -> Result<Settled, AllocError>
    requires limit { limit ≤ MAX_SPREAD }
    requires above { (u : ℕ) → u < count → (reached_at draft.now None).value ≤ (reached_at draft.now (Some u)).value }
    ensures { IfOk result (IsSettled count limit (reached_at draft.now)) }
{
    let base = draft.get(None).value;
    let mut settled = Potential::new(alloc);
    for variable in 0..count {
        let reached = draft.get(Some(variable));
        let value = reached.value - base;
        if value > limit {
            return Ok(Settled::Over(reached.cause, value));
        }
        settled.reserve(Some(variable))?;
        settled.write(Some(variable), START + value);
    }
    Ok(Settled::Within(settled))
}

/// The cycle of a single constraint.
fn alone(alloc: Global, constraint: Constraint) -> Result<List<Constraint>, AllocError>
    ensures { IfOk result (λ cycle. cycle ≡ constraint ∷ []) }
{
    let mut cycle = Vec::new(alloc);
    cycle.push(constraint)?;
    Ok(List::of(cycle))
}

/// Makes room for the nodes that were reached.
fn reserve_all(potential: &mut Potential, draft: &Draft) -> Result<(), AllocError>
    ensures room { OnOk result ((u : Option ℕ) → Contains draft.now.touched.items u → HasRoom potential.new u) }
    ensures same { value_at potential.new ≡ value_at potential.old }
    ensures top { IsBelowTop potential.old → IsBelowTop potential.new }
{
    for node in draft.touched.as_slice() {
        potential.reserve(*node)?;
    }
    Ok(())
}

/// Moves the nodes that were reached.
fn keep(potential: &mut Potential, draft: &Draft)
    requires room { (u : Option ℕ) → Contains draft.now.touched.items u → HasRoom potential.old u }
    requires touched { IsTouched draft.now }
    ensures moved { value_at potential.new ≡ moved_to (value_at potential.old) (reached_at draft.now) }
    ensures top { IsBelowTop potential.old → IsBelowTop potential.new }
{
    for node in draft.touched.as_slice() {
        let reached = draft.get(*node);
        if reached.gain > 0 {
            potential.write(*node, reached.value);
        }
    }
}
