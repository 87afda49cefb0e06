//! Least levels.
ghost use Rattle.std.specs.Prelude.{IfOk, IfErr, []};
ghost use Rattle.lego_context.specs.Causes.{together};
ghost use Rattle.lego_context.specs.Settling.{CanBeSettled, IsSettled, IsUnsettled};

use super::Context;
use crate::admission::admit;
use lego_inference::TypeFault;
use lego_level::Constraint;
use std::alloc::AllocError;

impl Context {
    /// The least values of all level variables of the context. There always are such values, so
    /// that only memory can be wanting.
    pub fn least(&self) -> Result<Vec<u64>, AllocError>
        ensures { IfOk result (λ values. IsSettled self.now [] self.now.levels values.items) }
    {
        self.graph.least(self.levels)
    }

    /// The least values of the first `levels` variables, which are all of the context and of these
    /// constraints, with these constraints added. The context itself stays as it is.
    pub fn settle(&self, more: &[Constraint], levels: u32) -> Result<Vec<u64>, TypeFault>
        requires { CanBeSettled self.now more.now levels }
        ensures settled { IfOk result (λ values. IsSettled self.now more.now levels values.items) }
        ensures refused { IfErr result (IsUnsettled (together self.now.entries more.now)) }
    {
        let mut graph = self.graph.copy()?;
        admit(&mut graph, more)?;
        let values = graph.least(levels)?;
        Ok(values)
    }
}
