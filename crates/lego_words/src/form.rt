//! The written form, tested word by word from left to right.
ghost use Rattle.std.specs.Prelude.{◌≡◌, ◌<◌, ℕ, None, length, IfOk, IfErr, IfSome, IfNone};
ghost use Rattle.lego_words.specs.Words.{AreOfForm, IsSteps, IsUsage, IsUsageBehind, texts};
ghost use Rattle.lego_words.specs.private.Given.{IsOption, WritesSteps, any_steps};

use crate::number::steps_of;

/// Which options stand among the words that were read.
#[derive(Clone, Copy)]
struct Given {
    steps: bool,
    stop: bool,
}

/// What is given with one more option, and how many words that took.
#[derive(Clone, Copy)]
struct Next {
    given: Given,
    taken: usize,
}

/// The index at which the words aren't of the written form.
pub(crate) fn wrong_word(words: &[String]) -> Option<u32>
    ensures some { IfSome result (λ index. IsUsage (texts words.now) index) }
    ensures none { IfNone result (AreOfForm (texts words.now)) }
{
    let mut given = Given {
        steps: false,
        stop: false,
    };
    let mut at = 0;
    while at < words.len() {
        match option_at(given, &words[at..]) {
            Ok(next) => {
                given = next.given;
                at += next.taken;
            }
            Err(behind) => return Some((at + behind) as u32),
        }
    }
    None
}

/// The option that stands first, or the index of the word that is wrong.
fn option_at(given: Given, words: &[String]) -> Result<Next, usize>
    requires { 0 < length words.now }
    ensures ok { IfOk result (λ next. IsOption given (texts words.now) next) }
    ensures err { IfErr result (λ index. IsUsageBehind (any_steps given.steps) given.stop (texts words.now) index) }
    ensures near { IfErr result (λ index. index < 2) }
{
    let word = words[0].as_str();
    if word == "--stop" {
        if given.stop {
            return Err(0);
        }
        return Ok(Next {
            given: Given {
                stop: true,
                ..given
            },
            taken: 1,
        });
    }
    if given.steps {
        return Err(0);
    }
    if word == "--steps" {
        let Some(text) = words.get(1) else {
            return Err(1);
        };
        return with_steps(given, text.as_str(), 2).ok_or(1);
    }
    let Some(text) = word.strip_prefix("--steps=") else {
        return Err(0);
    };
    with_steps(given, text, 1).ok_or(0)
}

/// What is given where a text writes steps.
fn with_steps(given: Given, text: &str, taken: usize) -> Option<Next>
    ensures some { IfSome result (λ next. WritesSteps given text.now taken next) }
    ensures none { IfNone result ((n : ℕ) → IsSteps text.now n → ⊥) }
{
    steps_of(text)?;
    Some(Next {
        given: Given {
            steps: true,
            ..given
        },
        taken,
    })
}
