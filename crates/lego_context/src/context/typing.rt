//! Types over a context.
ghost use Rattle.lego_context.specs.Calls.{CanBeInferred, CanBeChecked, Infers, Checks};
ghost use Rattle.lego_context.specs.Typed.{CanBeTyped, Types};

use super::Context;
use lego_inference::{At, Judged, Locals, TypeFault};
use lego_term::Term;

/// The type of a term, with the constraints under which it has it, and the least values of all
/// level variables that satisfy these and those of the context.
#[derive(Drop)]
pub struct Settled {
    pub judged: Judged,
    pub values: Vec<u64>,
}

impl Context {
    /// The type of a term, which is principal, and the constraints under which it has it. They may
    /// name level variables behind those held, one for each universe, product and Sigma type of
    /// the term. The first refusal is given: function before argument, domain before body, a
    /// pair's type before its parts.
    pub fn infer(&self, locals: &Locals, m: &Term, asked: At) -> Result<Judged, TypeFault>
        requires { CanBeInferred self.now locals.now m.now }
        ensures { Infers self.now locals.now m.now asked result }
    {
        lego_inference::infer(&self.signature, locals, m, self.levels, asked)
    }

    /// The constraints under which a term has the wanted type. Refusals are as those of `infer`.
    pub fn check(
        &self,
        locals: &Locals,
        m: &Term,
        want: &Term,
        asked: At,
    ) -> Result<Judged, TypeFault>
        requires { CanBeChecked self.now locals.now m.now want.now }
        ensures { Checks self.now locals.now m.now want.now asked result }
    {
        lego_inference::check(&self.signature, locals, m, want, self.levels, asked)
    }

    /// The type of a term without local variables, whose constraints can be satisfied together
    /// with those of the context, and the least levels. The context stays as it is.
    ///
    /// Refused, in this order: the refusals of `infer`, `Universe`, `LevelTooBig`; `Memory` at any
    /// point.
    pub fn typed(&self, m: &Term, asked: At) -> Result<Settled, TypeFault>
        requires { CanBeTyped self.now m.now }
        ensures { Types self.now m.now asked result }
    {
        let locals = Locals::new(self.alloc);
        let judged = self.infer(&locals, m, asked)?;
        let values = self.settle(judged.constraints.items(), judged.levels)?;
        Ok(Settled { judged, values })
    }
}
