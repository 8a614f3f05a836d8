//! Texts of one line.

ghost use Rattle.std.specs.Prelude.{◌≡◌, ◌++◌, ◌∷◌, IfOk, MatchOption, option_map, string_bytes};
ghost use Rattle.record_text.specs.Words.{Without};
ghost use Rattle.plain_export.specs.Allowed as allowed;

use record_text::Text;
use std::alloc::{AllocError, Global};

/// What stands before the first line end and after it.
fn cut(text: &str) -> Option<(&str, &str)>
    ensures { MatchOption result (Without 10 text.now)
        (λ x. (text.now ≡ x.0.now ++ 10 ∷ x.1.now) × Without 10 x.0.now) }
{
    text.split_once('\n')
}

/// The words with a blank in place of each line end.
pub(crate) fn words_in_line(alloc: Global, words: &str) -> Result<String, AllocError>
    ensures { IfOk result (λ s. string_bytes s ≡ allowed.one_line words.now) }
{
    let mut out = String::new(alloc);
    let mut rest = words;
    while let Some((front, after)) = cut(rest) {
        out.push_str(front)?;
        out.push_str(" ")?;
        rest = after;
    }
    out.push_str(rest)?;
    Ok(out)
}

/// The same of a text, which stays one.
pub(crate) fn one_line(alloc: Global, text: &Text) -> Result<Text, AllocError>
    ensures { IfOk result (λ t. t ≡ allowed.one_line text.now) }
{
    let words = words_in_line(alloc, text.as_str())?;
    Text::of_words(alloc, words.as_str())
}

/// The same of a text that may be missing.
pub(crate) fn maybe_one_line(alloc: Global, text: &Option<Text>) -> Result<Option<Text>, AllocError>
    ensures { IfOk result (λ o. o ≡ option_map allowed.one_line text.now) }
{
    match text {
        None => Ok(None),
        Some(text) => Ok(Some(one_line(alloc, text)?)),
    }
}
