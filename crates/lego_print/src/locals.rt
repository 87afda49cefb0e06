//! The enclosing local variables of what is printed.
ghost use Rattle.std.specs.Prelude.{◌≡◌, [], ◌∷◌, None, Some, false, drop, length, option_and_then, unwrap_or, IfSome, OnOk, slice_get};
ghost use Rattle.std.specs.List.{list_any};
ghost use Rattle.lego_print.specs.Names.{is_printed_as};
ghost use Rattle.lego_print.specs.private.Numbered.{numbered_frame, printed};
ghost use Rattle.lego_print.specs.private.Counted.{IsAmong};

use indexmap::IndexSet;
use std::alloc::{AllocError, Global};
use std::marker::Model;

/// More than memory can hold.
const MAX_LOCALS: usize = 0xFFFF_FFFF;

/// A printed name: the wished name and a number.
#[derive(Drop)]
pub(crate) struct Frame {
    pub text: Vec<u8>,
    pub wished: Option<u32>,
    pub number: u64,
}

/// The local variables around a term, which contracts see with the innermost first. The
/// variable of an arrow or a `#` has no printed name; the printed names differ.
#[derive(Drop)]
pub(crate) struct Locals {
    alloc: Global,
    frames: Vec<Option<Frame>>,
    texts: IndexSet<Vec<u8>>,
}

impl Model for Locals {
    ghost use Rattle.std.specs.Prelude.{◌≡◌, ◌≤◌, List, Option, map, vec_len};
    ghost use Rattle.lego_print.specs.declared.locals.TheConstants.{MAX_LOCALS};
    ghost use Rattle.lego_print.specs.private.Numbered.{Numbered, locals_of, frame_texts};
    ghost use Rattle.lego_print.specs.private.NumberedCode.{locals_code};

    ghost Value = { List (Option Numbered) };

    ghost coded = { locals_code };

    ghost view = { λ l. locals_of l.frames.items };

    ghost invariant = { λ l. (map (λ text. text.items) l.texts.keys ≡ frame_texts l.frames.items) × (vec_len l.frames ≤ MAX_LOCALS) };
}

impl Locals {
    pub fn new(alloc: Global) -> Locals
        ensures { result ≡ [] }
    {
        Locals {
            alloc,
            frames: Vec::new(alloc),
            texts: IndexSet::new(alloc),
        }
    }

    /// How many local variables there are.
    pub fn len(&self) -> u32
        ensures { result ≡ length self.now }
    {
        self.frames.len() as u32
    }

    /// Whether a local variable has the printed name.
    pub fn has_text(&self, text: &[u8]) -> bool
        ensures { result ≡ list_any (is_printed_as text.now) (printed self.now) }
    {
        self.texts.get_index_of(text).is_some()
    }

    /// The printed name of the local variable of an index; nothing where it has none.
    pub fn text(&self, index: u32) -> &[u8]
        ensures { result.now ≡ unwrap_or (option_and_then (λ text. text) (slice_get (printed self.now) index)) [] }
    {
        let index = index as usize;
        if index >= self.frames.len() {
            return b"";
        }
        match &self.frames[self.frames.len() - 1 - index] {
            Some(frame) => frame.text.as_slice(),
            None => b"",
        }
    }

    /// The frame at a place from outside, if it has the wished name.
    pub fn wishing(&self, place: usize, wished: Option<u32>) -> Option<&Frame>
        ensures { IfSome result (λ frame. IsAmong self.now (numbered_frame frame.now) × (frame.now.wished ≡ wished)) }
    {
        if place >= self.frames.len() {
            return None;
        }
        match &self.frames[place] {
            Some(frame) if frame.wished == wished => Some(frame),
            _ => None,
        }
    }

    /// Goes under a binder without a printed name.
    pub fn enter_unnamed(&mut self) -> Result<(), AllocError>
        ensures { OnOk result (self.new ≡ None ∷ self.old) }
    {
        if self.frames.len() == MAX_LOCALS {
            return Err(AllocError);
        }
        self.frames.push(None)?;
        Ok(())
    }

    /// Goes under a binder with a printed name that is not in use.
    pub fn enter(&mut self, frame: Frame) -> Result<(), AllocError>
        requires { list_any (is_printed_as frame.text.items) (printed self.old) ≡ false }
        ensures { OnOk result (self.new ≡ Some (numbered_frame frame) ∷ self.old) }
    {
        if self.frames.len() == MAX_LOCALS {
            return Err(AllocError);
        }
        let text = Vec::from_slice(self.alloc, frame.text.as_slice())?;
        self.frames.reserve(1)?;
        let Ok(_) = self.texts.insert(text) else {
            return Err(AllocError);
        };
        let Ok(()) = self.frames.push(Some(frame)) else {
            unreachable!()
        };
        Ok(())
    }

    /// Leaves the innermost binder.
    pub fn leave(&mut self)
        ensures { self.new ≡ drop 1 self.old }
    {
        match self.frames.pop() {
            Some(Some(_frame)) => {
                let _text = self.texts.pop();
            }
            Some(None) => {}
            None => {}
        }
    }
}
