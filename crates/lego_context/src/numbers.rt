//! Numbers of entries.
ghost use Rattle.std.specs.Prelude.{◌<◌, ◌≤◌, ℕ, length, Contains};
ghost use Rattle.lego_inference.specs.Entries.{numbers_of};
ghost use Rattle.lego_context.specs.Entries.{IsLeastFree};

use lego_inference::Signature;

/// The least number that no entry has, where each below `from` is one's.
pub(crate) fn next_free(signature: &Signature, from: u32) -> u32
    requires few { length signature.now ≤ 65536 }
    requires below { (k : ℕ) → k < from → Contains (numbers_of signature.now) k }
    ensures { IsLeastFree signature.now result }
{
    for number in from..65_537 {
        let Some(_) = signature.position(number) else {
            return number;
        };
    }
    unreachable!()
}
