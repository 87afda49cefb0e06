//! Bytes that are gathered, and sent in few writes.
ghost use Rattle.std.specs.Prelude.{◌≡◌, ◌++◌, [], ℕ, List, Option, OnOk, OnErr, IfErr};
ghost use Rattle.lego_base.specs.Bytes.{AppendsFront};
ghost use Rattle.lego_session.specs.private.Gathered.{Gathers, HasFailed};

use crate::status::Status;
use lego_base::{Failed, Sink, send};
use std::alloc::Global;

/// With so many bytes what is gathered is sent.
const MANY: usize = 65_536;

/// Bytes that are still to be sent.
#[derive(Drop)]
pub(crate) struct Gathered {
    text: Vec<u8>,
}

impl Gathered {
    /// No bytes.
    pub(crate) fn new(alloc: Global) -> Gathered
        ensures { result.text.items ≡ [] }
    {
        Gathered {
            text: Vec::new(alloc),
        }
    }

    /// Adds bytes, and sends all where they are many.
    pub(crate) fn push<K: Sink>(&mut self, bytes: &[u8], out: &mut K) -> Result<(), Status>
        ensures ok { OnOk result ((start : Option (List ℕ)) (text : List ℕ) → Gathers start (K.taken out.old) self.old.text.items text → Gathers start (K.taken out.new) self.new.text.items (text ++ bytes.now)) }
        ensures err { OnErr result ((start : Option (List ℕ)) (text : List ℕ) → Gathers start (K.taken out.old) self.old.text.items text → AppendsFront start (K.taken out.new) (text ++ bytes.now)) }
        ensures kept { OnOk result (K.faults out.new ≡ K.faults out.old) }
        ensures cause { IfErr result (λ status. HasFailed (K.faults out.old) (K.faults out.new) status) }
    {
        if self.text.extend_from_slice(bytes).is_err() {
            return Err(Status::Memory);
        }
        if self.text.len() < MANY {
            return Ok(());
        }
        self.send(out)
    }

    /// Sends all.
    pub(crate) fn send<K: Sink>(&mut self, out: &mut K) -> Result<(), Status>
        ensures ok { OnOk result ((start : Option (List ℕ)) (text : List ℕ) → Gathers start (K.taken out.old) self.old.text.items text → Gathers start (K.taken out.new) self.new.text.items text) }
        ensures none { OnOk result (self.new.text.items ≡ []) }
        ensures err { OnErr result ((start : Option (List ℕ)) (text : List ℕ) → Gathers start (K.taken out.old) self.old.text.items text → AppendsFront start (K.taken out.new) text) }
        ensures kept { OnOk result (K.faults out.new ≡ K.faults out.old) }
        ensures cause { IfErr result (λ status. HasFailed (K.faults out.old) (K.faults out.new) status) }
    {
        match send(out, self.text.as_slice()) {
            Ok(()) => {
                self.text.clear();
                Ok(())
            }
            Err(Failed) => Err(Status::WriteFault),
        }
    }
}
