//! Nodes that wait for their turn, the one with the greatest gain first.
ghost use Rattle.std.specs.Prelude.{◌≡◌, ◌+◌, ◌≤◌, ◌⊎◌, ℕ, [], length, Option, Contains, IfSome, IfNone, OnOk};

use std::alloc::{AllocError, Global};
use std::collections::BinaryHeap;
use std::marker::Model;

/// Pairs of a gain and a node.
#[derive(Drop)]
pub struct Queue {
    heap: BinaryHeap<(u64, Option<u32>)>,
}

impl Model for Queue {
    ghost use Rattle.std.specs.Prelude.{ℕ, List, Option};
    ghost use Rattle.std.specs.Option.{option_cmp};
    ghost use Rattle.std.specs.BinaryHeap.{heap_items, IsHeap};
    ghost use Rattle.std.specs.Ordering.{nat_cmp, ordering_then};

    ghost Value = { List (ℕ × Option ℕ) };

    ghost view = { λ q. heap_items q.heap };

    ghost invariant = { λ q. IsHeap (λ x y. ordering_then (nat_cmp x.0 y.0) (option_cmp nat_cmp x.1 y.1)) (heap_items q.heap) };
}

impl Queue {
    pub fn new(alloc: Global) -> Queue
        ensures { result ≡ [] }
    {
        Queue {
            heap: BinaryHeap::new(alloc),
        }
    }

    /// Adds a pair.
    pub fn push(&mut self, gain: u64, node: Option<u32>) -> Result<(), AllocError>
        ensures len { OnOk result (length self.new ≡ length self.old + 1) }
        ensures there { OnOk result (Contains self.new (gain, node)) }
        ensures keeps { OnOk result ((d : ℕ × Option ℕ) → Contains self.old d → Contains self.new d) }
        ensures only { OnOk result ((d : ℕ × Option ℕ) → Contains self.new d → (d ≡ (gain, node)) ⊎ Contains self.old d) }
    {
        self.heap.push((gain, node))?;
        Ok(())
    }

    /// Takes a pair whose gain is greatest.
    pub fn pop(&mut self) -> Option<(u64, Option<u32>)>
        ensures none { IfNone result ((self.old ≡ []) × (self.new ≡ [])) }
        ensures len { IfSome result (λ _. length self.new + 1 ≡ length self.old) }
        ensures was { IfSome result (λ e. Contains self.old e) }
        ensures greatest { IfSome result (λ e. (d : ℕ × Option ℕ) → Contains self.new d → d.0 ≤ e.0) }
        ensures keeps { IfSome result (λ e. (d : ℕ × Option ℕ) → Contains self.old d → (d ≡ e) ⊎ Contains self.new d) }
        ensures only { IfSome result (λ _. (d : ℕ × Option ℕ) → Contains self.new d → Contains self.old d) }
    {
        self.heap.pop()
    }
}
