//! Contexts of the entries before a place.
ghost use Rattle.std.specs.Prelude.{◌≡◌, ◌<◌, filter};
ghost use Rattle.std.specs.List.{list_any};
ghost use Rattle.lego_laws.specs.Entries.{entry_uses};
ghost use Rattle.lego_laws.specs.Principal.{entries_bound as bound_of_entries};
ghost use Rattle.lego_inference.specs.Entries.{laws_entries};
ghost use Rattle.lego_context.specs.Forgetting.{CanBeForgotten, front_of, universes_used};

use super::Context;
use super::cutting::keep_first;
use crate::variables::{entries_bound, is_named};
use lego_inference::{Entry, Universe};

impl Context {
    /// Keeps the entries before a place, and the universes whose variables their types, bodies or
    /// constraints have. The next level variable is one above the greatest that they have, and the
    /// next entry takes the least number that none of them has. It takes no memory.
    pub fn forget(&mut self, at: usize)
        requires { CanBeForgotten self.old at }
        ensures { self.new ≡ front_of self.old at }
    {
        self.free = keep_first(
            &mut self.signature,
            &mut self.names,
            &mut self.graph,
            self.free,
            at,
        );
        let entries = self.signature.entries();
        let bound = entries_bound(entries);
        keep_used(&mut self.universes, entries, bound);
        self.levels = bound as u32;
    }
}

/// Keeps the universes whose variables the entries have. All these are below the bound.
fn keep_used(universes: &mut Vec<Universe>, entries: &[Entry], bound: u64)
    requires { bound ≡ bound_of_entries (laws_entries entries.now) }
    ensures { universes.new.items ≡ universes_used entries.now universes.old.items }
{
    universes.retain(|universe| is_kept(entries, bound, universe.variable));
}

/// Whether some entry has the variable; the bound is above each that an entry has.
fn is_kept(entries: &[Entry], bound: u64, variable: u32) -> bool
    requires { bound ≡ bound_of_entries (laws_entries entries.now) }
    ensures { result ≡ list_any (entry_uses variable) (laws_entries entries.now) }
{
    if u64::from(variable) >= bound {
        return false;
    }
    is_named(entries, variable)
}
