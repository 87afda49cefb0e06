//! A few entries, for tests.
ghost use Rattle.std.specs.Prelude.{[], slice_get};

use lego_print::Entries;

/// Eight entries, each with the name of its number. Those before a place are in scope.
#[derive(Clone, Copy)]
pub struct Few {
    pub names: [u32; 8],
}

impl Entries for Few {
    ghost in_scope = { λ s. s.names };

    ghost called = { λ s k. slice_get s.names k };

    fn count(&self) -> u32 {
        8
    }

    fn has_name(&self, name: u32) -> bool {
        self.names.iter().any(|other| name == *other)
    }

    fn name_of(&self, number: u32) -> Option<u32> {
        self.names.get(number as usize).copied()
    }
}

/// The same entries, of which none is in scope.
#[derive(Clone, Copy)]
pub struct Later {
    pub names: [u32; 8],
}

impl Entries for Later {
    ghost in_scope = { λ s. [] };

    ghost called = { λ s k. slice_get s.names k };

    fn count(&self) -> u32 {
        0
    }

    fn has_name(&self, _name: u32) -> bool {
        false
    }

    fn name_of(&self, number: u32) -> Option<u32> {
        self.names.get(number as usize).copied()
    }
}
