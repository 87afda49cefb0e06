//! The parser's machine, which goes over the tokens of a command.
ghost use Rattle.std.specs.Prelude.{◌≡◌, []};
ghost use Rattle.lego_parser.specs.private.Stack.{stack};

use crate::stack::Stack;
use std::alloc::Global;

/// The machine over what is awaited. Trees are built or, at `false`, only the shape is followed.
#[derive(Drop)]
pub(crate) struct Machine<const BUILDING: bool> {
    pub(crate) alloc: Global,
    pub(crate) stack: Stack,
}

impl<const BUILDING: bool> Machine<BUILDING> {
    pub fn new(alloc: Global) -> Machine<BUILDING>
        ensures { stack result ≡ [] }
    {
        Machine {
            alloc,
            stack: Stack::new(alloc),
        }
    }
}
