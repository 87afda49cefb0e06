//! Digests of terms, by which most terms that differ are told apart at once.
ghost use Rattle.std.specs.Prelude.{◌≡◌};
ghost use Rattle.lego_term.specs.private.Digest.{mixed, base_number as number_of_base, level_digest as digest_of_level, lower_half as lower_half_of};

use crate::level::Level;

/// An odd number: the multiplier of Knuth's MMIX generator.
const MULTIPLIER: u64 = 6_364_136_223_846_793_005;

/// 2 to the power of 32.
const HALF: u64 = 4_294_967_296;

/// The digest of what came before, and what comes next.
pub(crate) fn mix(before: u64, next: u64) -> u64
    ensures { result ≡ mixed before next }
{
    let sum = before.wrapping_mul(MULTIPLIER).wrapping_add(next);
    sum.wrapping_mul(sum.wrapping_mul(2).wrapping_add(1))
}

/// The digest of a level, which is in the upper half.
pub(crate) fn level_digest(level: Level) -> u64
    ensures { result ≡ digest_of_level level }
{
    mix(base_number(level.base), u64::from(level.plus)).wrapping_mul(HALF)
}

/// The half of a digest in which levels have no part.
pub(crate) fn lower_half(digest: u64) -> u64
    ensures { result ≡ lower_half_of digest }
{
    digest % HALF
}

/// One more than the number of a level variable, or 0.
fn base_number(base: Option<u32>) -> u64
    ensures { result ≡ number_of_base base }
{
    match base {
        Some(variable) => u64::from(variable) + 1,
        None => 0,
    }
}
