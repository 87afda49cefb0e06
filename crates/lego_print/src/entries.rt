//! Where a printer finds the names of entries.
ghost use Rattle.std.specs.Prelude.{◌≡◌, ℕ, ◌<◌, ◌^◌, List, Option, length, nat_eq};
ghost use Rattle.std.specs.List.{list_any};

/// The names of the entries that a text speaks of.
pub trait Entries {
    /// The numbers of the names of the entries in scope.
    ghost in_scope: { Self → List ℕ };

    /// The name of the entry that has a number.
    ghost called: { Self → ℕ → Option ℕ };

    /// How many entries in scope have a name.
    fn count(&self) -> u32
        ensures { result ≡ length (in_scope self.now) };

    /// Whether an entry in scope has the name.
    fn has_name(&self, name: u32) -> bool
        ensures { result ≡ list_any (nat_eq name) (in_scope self.now) };

    /// The name of the entry that has the number.
    fn name_of(&self, number: u32) -> Option<u32>
        ensures { result ≡ called self.now number };
}
