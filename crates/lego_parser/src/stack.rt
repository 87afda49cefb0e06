//! The stack of what is awaited, with its level.
ghost use Rattle.std.specs.Prelude.{◌≡◌};
ghost use Rattle.lego_grammar.specs.private.Machine.{height as level_of};
ghost use Rattle.lego_parser.specs.private.Frames.{frames_of};

use crate::modes::{Frame, Mode};
use std::alloc::{AllocError, Global};

/// What is awaited, the newest last.
#[derive(Drop)]
pub(crate) struct Stack {
    frames: Vec<Frame>,
    /// How many of the frames nest.
    height: usize,
    ghost counted: { height ≡ level_of (frames_of frames.items) },
}

impl Stack {
    ghost use Rattle.std.specs.Prelude.{[], ◌∷◌, OnOk, MatchOption};
    ghost use Rattle.lego_grammar.specs.private.Machine.{state, level as level_in};
    ghost use Rattle.lego_parser.specs.private.Frames.{frame_of, mode_of};
    ghost use Rattle.lego_parser.specs.private.Stack.{awaited};

    pub fn new(alloc: Global) -> Stack
        ensures { awaited result ≡ [] }
    {
        Stack {
            frames: Vec::new(alloc),
            height: 0,
        }
    }

    /// The level of the next token in this mode.
    pub fn level(&self, mode: &Mode) -> usize
        ensures { result ≡ level_in (state (mode_of mode.now) (awaited self.now)) }
    {
        match mode {
            Mode::WantLevel(_) | Mode::WantName(..) | Mode::BehindName(..) => self.height + 1,
            _ => self.height,
        }
    }

    pub fn push(&mut self, frame: Frame) -> Result<(), AllocError>
        ensures { OnOk result (awaited self.new ≡ frame_of frame ∷ awaited self.old) }
    {
        let nests = frame.nests();
        self.frames.push(frame)?;
        if nests {
            let held = self.frames.len();
            prove!(self.height < held);
            self.height += 1;
        }
        Ok(())
    }

    pub fn pop(&mut self) -> Option<Frame>
        ensures { MatchOption result ((awaited self.old ≡ []) × (awaited self.new ≡ [])) (λ frame. awaited self.old ≡ frame_of frame ∷ awaited self.new) }
    {
        let frame = self.frames.pop()?;
        if frame.nests() {
            self.height -= 1;
        }
        Some(frame)
    }
}
