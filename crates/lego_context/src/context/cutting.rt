//! Contexts without their last entries.
ghost use Rattle.std.specs.Prelude.{◌≡◌, ◌-◌, ◌<◌, ◌≤◌, take, length, IfSome};
ghost use Rattle.lego_context.specs.Cutting.{CanBeCut, cut_of};
ghost use Rattle.lego_context.specs.private.Cuts.{without_name};
ghost use Rattle.lego_context.specs.private.Kept.{IsKept};

use super::Context;
use indexmap::IndexMap;
use lego_inference::Signature;
use lego_level::Graph;

impl Context {
    /// Takes back what was added last: keeps so many first entries and first universes, and holds
    /// so many level variables. It takes no memory, and its time is linear in what is dropped.
    pub fn cut_to(&mut self, entries: usize, universes: usize, levels: u32)
        requires { CanBeCut self.old entries universes levels }
        ensures { self.new ≡ cut_of self.old entries universes levels }
    {
        self.free = keep_first(
            &mut self.signature,
            &mut self.names,
            &mut self.graph,
            self.free,
            entries,
        );
        self.universes.truncate(universes);
        self.levels = levels;
    }
}

/// Keeps the first entries, with their names and constraints. The answer is the least number that
/// none of them has.
pub(super) fn keep_first(
    signature: &mut Signature,
    names: &mut IndexMap<u32, usize>,
    graph: &mut Graph,
    free: u32,
    count: usize,
) -> u32
    requires within { count ≤ length signature.old }
    requires kept { IsKept signature.old names.old.entries graph.old free }
    ensures entries { signature.new ≡ take count signature.old }
    ensures kept { IsKept signature.new names.new.entries graph.new result }
{
    let mut least = free;
    while signature.len() > count {
        least = drop_last(signature, names, graph, least);
    }
    least
}

/// Takes away the last entry, with its name and constraints.
fn drop_last(
    signature: &mut Signature,
    names: &mut IndexMap<u32, usize>,
    graph: &mut Graph,
    free: u32,
) -> u32
    requires some { 0 < length signature.old }
    requires kept { IsKept signature.old names.old.entries graph.old free }
    ensures entries { signature.new ≡ take (length signature.old - 1) signature.old }
    ensures kept { IsKept signature.new names.new.entries graph.new result }
{
    let Some(entry) = signature.pop() else {
        unreachable!()
    };
    drop_name(names, entry.name);
    let held = graph.len() - entry.constraints.items().len();
    graph.cut_to(held);
    free.min(entry.number)
}

/// Takes away the last name, where the entry had one.
fn drop_name(names: &mut IndexMap<u32, usize>, name: Option<u32>)
    requires { IfSome name (λ _. 0 < length names.old.entries) }
    ensures { names.new.entries ≡ without_name name names.old.entries }
{
    if name.is_some() {
        let last = names.len() - 1;
        names.truncate(last);
    }
}
