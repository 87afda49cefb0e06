//! The numbers that a term keeps of its tree.
ghost use Rattle.std.specs.Prelude.{◌≡◌, ◌+◌, ◌^◌, ◌≤◌, suc, pred, max};
ghost use Rattle.lego_term.specs.Trees.{size as size_of, depth as depth_of, loose as loose_of};
ghost use Rattle.lego_term.specs.private.ConstantBound.{constant_bound};
ghost use Rattle.lego_term.specs.private.Digest.{mixed, digest as digest_of};

use crate::digest::mix;
use crate::term::Term;

/// Size, depth, bounds on variables and constants, and digest of a node with some of its parts.
#[derive(Clone, Copy)]
pub(crate) struct Numbers {
    pub(crate) size: u64,
    pub(crate) depth: u32,
    pub(crate) loose: u32,
    pub(crate) constants: u64,
    pub(crate) digest: u64,
}

impl Numbers {
    /// Those of a node without its parts, whose form has this digest.
    pub(crate) fn node(digest: u64) -> Numbers
        ensures size { result.size ≡ 1 }
        ensures depth { result.depth ≡ 1 }
        ensures loose { result.loose ≡ 0 }
        ensures constants { result.constants ≡ 0 }
        ensures digest { result.digest ≡ digest }
    {
        Numbers {
            size: 1,
            depth: 1,
            loose: 0,
            constants: 0,
            digest,
        }
    }

    /// Those of the node with its next part.
    pub(crate) fn with(self, part: &Term) -> Numbers
        requires room { self.size ≤ 2 ^ 32 }
        ensures size { result.size ≡ self.size + size_of part.now }
        ensures limit { result.size ≤ self.size + 1048576 }
        ensures depth { result.depth ≡ max self.depth (suc (depth_of part.now)) }
        ensures loose { result.loose ≡ max self.loose (loose_of part.now) }
        ensures constants { result.constants ≡ max self.constants (constant_bound part.now) }
        ensures digest { result.digest ≡ mixed self.digest (digest_of part.now) }
    {
        let loose = part.loose();
        self.joined(part, loose)
    }

    /// The same, where the part stands under the node's binder.
    pub(crate) fn with_body(self, part: &Term) -> Numbers
        requires room { self.size ≤ 2 ^ 32 }
        ensures size { result.size ≡ self.size + size_of part.now }
        ensures limit { result.size ≤ self.size + 1048576 }
        ensures depth { result.depth ≡ max self.depth (suc (depth_of part.now)) }
        ensures loose { result.loose ≡ max self.loose (pred (loose_of part.now)) }
        ensures constants { result.constants ≡ max self.constants (constant_bound part.now) }
        ensures digest { result.digest ≡ mixed self.digest (digest_of part.now) }
    {
        let loose = part.loose().saturating_sub(1);
        self.joined(part, loose)
    }

    /// The same, where the bound on the part's variables outside the node is given.
    fn joined(self, part: &Term, loose: u32) -> Numbers
        requires room { self.size ≤ 2 ^ 32 }
        ensures size { result.size ≡ self.size + size_of part.now }
        ensures limit { result.size ≤ self.size + 1048576 }
        ensures depth { result.depth ≡ max self.depth (suc (depth_of part.now)) }
        ensures loose { result.loose ≡ max self.loose loose }
        ensures constants { result.constants ≡ max self.constants (constant_bound part.now) }
        ensures digest { result.digest ≡ mixed self.digest (digest_of part.now) }
    {
        Numbers {
            size: self.size + part.size(),
            depth: self.depth.max(part.depth() + 1),
            loose: self.loose.max(loose),
            constants: self.constants.max(part.constants()),
            digest: mix(self.digest, part.digest()),
        }
    }
}
