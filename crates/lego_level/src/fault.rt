//! Why constraints are refused.
ghost use Rattle.std.specs.Prelude.{◌≡◌};

use crate::constraint::Constraint;
use crate::solver::InsertFault;
use lego_term::List;

/// Why a graph did not take constraints in.
#[derive(Debug, Drop)]
pub enum GraphFault {
    /// The constraints can't be satisfied together: the listed ones, each held, new or implied,
    /// form a closed walk that meets no node twice, and ask more than they give.
    Cycle(List<Constraint>),
    /// The constraints can be satisfied, but a variable's least value is over 1,000,000: it is
    /// `needed`. `constraint`, held or new, forces it: it ends a walk from 0 to the variable whose
    /// constraints, each held, new or implied, ask for so much.
    LevelTooBig { constraint: Constraint, needed: u64 },
    /// Memory ran out.
    Memory,
}

impl From<InsertFault> for GraphFault {
    ghost use Rattle.std.specs.Prelude.{◌≡◌};
    ghost use Rattle.lego_level.specs.Refusals.{graph_fault};

    ghost from_gives = { λ fault e. e ≡ graph_fault fault };

    fn from(fault: InsertFault) -> GraphFault {
        match fault {
            InsertFault::Cycle(cycle) => GraphFault::Cycle(cycle),
            InsertFault::Memory => GraphFault::Memory,
        }
    }
}
