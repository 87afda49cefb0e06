//! Numbers in words.
ghost use Rattle.std.specs.Prelude.{◌≡◌, ℕ, IfSome, IfNone};
ghost use Rattle.lego_words.specs.Words.{IsSteps};

/// The most digits of a number.
const MAX_DIGITS: usize = 8;

/// The most steps of one comparison or reduction.
const MAX_STEPS: u64 = 10_000_000;

/// The number of steps that the text writes.
pub(crate) fn steps_of(text: &str) -> Option<u64>
    ensures some { IfSome result (λ n. IsSteps text.now n) }
    ensures none { IfNone result ((n : ℕ) → IsSteps text.now n → ⊥) }
{
    if text.len() > MAX_DIGITS || text.as_bytes().first() == Some(&b'+') {
        return None;
    }
    let Ok(steps) = text.parse::<u64>() else {
        return None;
    };
    if steps == 0 || steps > MAX_STEPS {
        return None;
    }
    Some(steps)
}
