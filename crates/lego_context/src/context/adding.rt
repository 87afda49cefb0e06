//! Entries that go behind the others.
ghost use Rattle.std.specs.Prelude.{◌≡◌, ◌<◌, ◌≤◌, ◌++◌, [], ◌∷◌, length, Contains, Some, OnOk, OnErr, IfErr, IfSome};
ghost use Rattle.lego_term.specs.Trees.{loose};
ghost use Rattle.lego_inference.specs.Entries.{numbers_of};
ghost use Rattle.lego_context.specs.Causes.{IsNewName};
ghost use Rattle.lego_context.specs.private.Adding.{IsNext, Stores, EnterFails};
ghost use Rattle.lego_context.specs.private.Kept.{places_from};

use super::Context;
use crate::admission::admit;
use crate::numbers::next_free;
use indexmap::IndexMap;
use lego_inference::{Counted, Entry, Signature, TypeFault};

/// The most entries of a context.
const MAX_ENTRIES: usize = 65_536;

impl Context {
    /// Puts an entry of this name behind the others, over so many level variables.
    pub(super) fn store(&mut self, name: u32, entry: Entry, levels: u32) -> Result<(), TypeFault>
        requires { IsNext self.old name entry levels }
        ensures { Stores self.old entry levels self.new result }
    {
        let held = self.graph.len();
        admit(&mut self.graph, entry.constraints.items())?;
        if let Err(fault) = enter(&mut self.signature, &mut self.names, name, entry) {
            self.graph.cut_to(held);
            return Err(fault);
        }
        self.free = next_free(&self.signature, self.free);
        self.levels = levels;
        Ok(())
    }
}

/// Puts the entry behind the others, and its name with its place among the names.
fn enter(
    signature: &mut Signature,
    names: &mut IndexMap<u32, usize>,
    name: u32,
    entry: Entry,
) -> Result<(), TypeFault>
    requires few { length signature.old ≤ 65536 }
    requires named { entry.name ≡ Some name }
    requires new { IsNewName signature.old name }
    requires number { Contains (numbers_of signature.old) entry.number → ⊥ }
    requires closed_type { loose entry.ty ≡ 0 }
    requires closed_body { IfSome entry.body (λ m. loose m ≡ 0) }
    requires places { names.old.entries ≡ places_from 0 signature.old }
    ensures entered { OnOk result (signature.new ≡ signature.old ++ entry ∷ []) }
    ensures room { OnOk result (length signature.old < 65536) }
    ensures places { OnOk result (names.new.entries ≡ places_from 0 signature.new) }
    ensures kept { OnErr result (signature.new ≡ signature.old) }
    ensures places_kept { OnErr result (names.new.entries ≡ names.old.entries) }
    ensures refused { IfErr result (EnterFails signature.old) }
{
    let at = signature.len();
    if at == MAX_ENTRIES {
        return Err(TypeFault::Full {
            of: Counted::Entries,
            held: MAX_ENTRIES as u32,
        });
    }
    // Room first, so that a refusal leaves both lists as they were.
    names.reserve(1)?;
    signature.push(entry)?;
    let Ok(_) = names.insert(name, at) else {
        unreachable!()
    };
    Ok(())
}
