//! Constraints that a graph takes or refuses.
ghost use Rattle.std.specs.Prelude.{◌≡◌, ◌++◌, OnOk, OnErr, IfErr};
ghost use Rattle.lego_level.specs.Graphs.{CanBeSatisfiedWithin};
ghost use Rattle.lego_context.specs.Settling.{IsUnsettled};
ghost use Rattle.lego_context.specs.private.Adding.{refusal_of};

use lego_inference::TypeFault;
use lego_level::{Constraint, Graph, GraphFault};

/// Adds constraints behind those of the graph, or says why they can't be satisfied together.
pub(crate) fn admit(graph: &mut Graph, more: &[Constraint]) -> Result<(), TypeFault>
    ensures added { OnOk result (graph.new ≡ graph.old ++ more.now) }
    ensures within { OnOk result (CanBeSatisfiedWithin graph.new) }
    ensures refused { IfErr result (IsUnsettled (graph.old ++ more.now)) }
    ensures unchanged { OnErr result (graph.new ≡ graph.old) }
{
    match graph.extend(more) {
        Ok(()) => Ok(()),
        Err(fault) => Err(refusal(fault)),
    }
}

/// The refusal of a graph, as one of a context.
fn refusal(fault: GraphFault) -> TypeFault
    ensures { result ≡ refusal_of fault }
{
    match fault {
        GraphFault::Cycle(cycle) => TypeFault::Universe { cycle },
        GraphFault::LevelTooBig { constraint, needed } => TypeFault::LevelTooBig {
            constraint,
            needed,
        },
        GraphFault::Memory => TypeFault::Memory,
    }
}
