//! Scans over tokens without trees: how far a command may go, and how deep.
ghost use Rattle.std.specs.Prelude.{◌≡◌, List, map, ℕ, IfOk};
ghost use Rattle.lego_grammar.specs.Grammar.{item_of};
ghost use Rattle.lego_parser.specs.private.Scanning.{mode_at, IsScan};

use crate::machine::Machine;
use crate::modes::Mode;
use lego_lexer::Token;
use std::alloc::{AllocError, Global};

/// How deep a token of a command may be nested.
const MAX_LEVEL: usize = 500;

/// Which commands are looked for: context commands begin otherwise than all others.
#[derive(Clone, Copy)]
pub(crate) enum Start {
    Context,
    Other,
}

impl Start {
    ghost use Rattle.lego_parser.specs.private.Frames.{mode_of};

    /// What may come first.
    pub fn mode(self, alloc: Global) -> Mode
        ensures { mode_of result ≡ mode_at self }
    {
        match self {
            Start::Context => Mode::Between(Vec::new(alloc)),
            Start::Other => Mode::Start,
        }
    }
}

/// Where a context command stands.
#[derive(Clone, Copy)]
pub(crate) enum Stage {
    /// In front of its first binding.
    Nothing,
    /// Inside a binding; so does any other command that has not ended.
    Inside,
    /// Behind a binding.
    Behind,
    /// Behind its end.
    Ended,
}

/// How far a scan went.
#[derive(Clone, Copy)]
pub(crate) struct Scan {
    /// How many tokens it went over.
    pub stop: usize,
    /// The first token, up to the one at which it stopped, that would stand above the limit.
    pub deep: Option<usize>,
    /// Where it stopped.
    pub stage: Stage,
}

impl Scan {
    /// Goes over tokens as far as a command of this start may go on.
    pub fn over(alloc: Global, tokens: &[Token], start: Start) -> Result<Scan, AllocError>
        ensures { IfOk result (λ scan. (bytes : List ℕ) → IsScan (map (item_of bytes) tokens.now) (mode_at start) scan) }
    {
        let mut machine = Machine::<false>::new(alloc);
        let mut mode = start.mode(alloc);
        let mut deep = None;
        for (index, token) in tokens.iter().enumerate() {
            let stage = mode.stage();
            let Some(next) = machine.step(mode, token.kind, token.place, 0)? else {
                return Ok(Scan {
                    stop: index,
                    deep,
                    stage,
                });
            };
            if machine.stack.level(&next) > MAX_LEVEL {
                deep = deep.or(Some(index + 1));
            }
            mode = next;
        }
        let stage = mode.stage();
        // by a call, since the proof of a drop in place goes through all that a mode may hold
        drop(mode);
        Ok(Scan {
            stop: tokens.len(),
            deep,
            stage,
        })
    }
}
