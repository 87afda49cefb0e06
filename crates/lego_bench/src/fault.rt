use lego_compare::CompareFault;
use lego_inference::TypeFault;
use lego_level::GraphFault;
use lego_reduce::ReduceFault;
use lego_term::TermFault;
use std::alloc::AllocError;

/// Why a workload was not run.
#[derive(Debug, Clone, Copy, PartialEq, Eq, Drop)]
pub enum BenchFault {
    /// The words are no workloads with their sizes.
    Usage,
    /// A term could not be made.
    Term(TermFault),
    /// A term could not be reduced.
    Reduce(ReduceFault),
    /// Terms were not related that convert.
    Unrelated,
    /// Constraints or an entry were refused that can be kept.
    Refused,
    /// The universes of an entry are a cycle.
    Cycle,
    /// A term of an entry passes a limit.
    TooLarge,
    /// The counts could not be written.
    Write,
    /// Memory ran out.
    Memory,
}

impl From<TermFault> for BenchFault {
    fn from(fault: TermFault) -> BenchFault {
        BenchFault::Term(fault)
    }
}

impl From<ReduceFault> for BenchFault {
    fn from(fault: ReduceFault) -> BenchFault {
        BenchFault::Reduce(fault)
    }
}

impl From<CompareFault> for BenchFault {
    fn from(_: CompareFault) -> BenchFault {
        BenchFault::Unrelated
    }
}

impl From<GraphFault> for BenchFault {
    fn from(_: GraphFault) -> BenchFault {
        BenchFault::Refused
    }
}

impl From<TypeFault> for BenchFault {
    fn from(fault: TypeFault) -> BenchFault {
        match fault {
            TypeFault::Universe { .. } => BenchFault::Cycle,
            TypeFault::TooLarge { .. } => BenchFault::TooLarge,
            TypeFault::Memory => BenchFault::Memory,
            _ => BenchFault::Refused,
        }
    }
}

impl From<AllocError> for BenchFault {
    fn from(_: AllocError) -> BenchFault {
        BenchFault::Memory
    }
}
