//! Texts cut at an ASCII character.

ghost use Rattle.std.specs.Prelude.{◌≡◌, ◌<◌, ◌++◌, ◌∷◌, [], IfOk, MatchOption, string_bytes};
ghost use Rattle.record_text.specs.Words.{words, Without, replaced as with_replaced};

use std::alloc::{AllocError, Global};

/// What stands before the first such character and after it.
pub(crate) fn cut(text: &str, mark: char) -> Option<(&str, &str)>
    requires { mark < 128 }
    ensures { MatchOption result (Without mark text.now)
        (λ x. (text.now ≡ x.0.now ++ mark ∷ x.1.now) × Without mark x.0.now) }
{
    text.split_once(mark)
}

/// The text with each such character replaced.
pub(crate) fn replaced(
    alloc: Global,
    text: &str,
    mark: char,
    by: &str,
) -> Result<String, AllocError>
    requires { mark < 128 }
    ensures { IfOk result (λ s. string_bytes s ≡ with_replaced mark by.now text.now) }
{
    let mut out = String::new(alloc);
    let mut rest = text;
    while let Some((front, after)) = cut(rest, mark) {
        out.push_str(front)?;
        out.push_str(by)?;
        rest = after;
    }
    out.push_str(rest)?;
    Ok(out)
}

/// The next word and what follows it; nothing where only spaces are left.
pub(crate) fn next_word(text: &str) -> Option<(&str, &str)>
    ensures { MatchOption result (words text.now ≡ [])
        (λ x. words text.now ≡ x.0.now ∷ words x.1.now) }
{
    let mut rest = text;
    while let Some((word, after)) = cut(rest, ' ') {
        if !word.is_empty() {
            return Some((word, after));
        }
        rest = after;
    }
    if rest.is_empty() {
        return None;
    }
    Some((rest, ""))
}
