//! The text of a line on one line, and the text of such words.

ghost use Rattle.std.specs.Prelude.{
  ◌≡◌,
  ◌<◌,
  ◌++◌,
  IfErr,
  IfOk,
  OnOk,
  IfSome,
  List,
  ℕ,
  Option,
  option_copied,
  option_map,
  string_bytes,
};
ghost use Rattle.record_text.specs.Text.{IsText};
ghost use Rattle.record_text.specs.Words.{replaced};
ghost use Rattle.packed_rows.specs.Packed.{on_one_line, text_part, FailsUnless};
ghost use Rattle.packed_rows.specs.Pieces.{Lacks};

use crate::cutting::cut;
use record_text::{RefusalKind, Text};
use std::alloc::{AllocError, Global};

/// Adds what stands for the text of a line.
pub(crate) fn push_text(out: &mut String, text: &Option<Text>) -> Result<(), AllocError>
    ensures { OnOk result (string_bytes out.new ≡ string_bytes out.old ++ text_part text.now) }
{
    match text {
        Some(text) => {
            out.push_str(" ")?;
            push_replaced(out, text.as_str(), '\n', "\r")
        }
        None => Ok(()),
    }
}

/// Adds a text with each such character replaced.
fn push_replaced(out: &mut String, text: &str, mark: char, by: &str) -> Result<(), AllocError>
    requires { mark < 128 }
    ensures { OnOk result (string_bytes out.new ≡ string_bytes out.old ++ replaced mark by.now text.now) }
{
    let mut rest = text;
    'front: while let Some((front, after)) = cut(rest, mark) {
        out.push_str(front)?;
        out.push_str(by)?;
        rest = after;
    }
    out.push_str(rest)
}

/// The text of a line, where words stand for one. 40: no text is written so.
pub(crate) fn text_if_any(alloc: Global, words: Option<&str>) -> Result<Option<Text>, RefusalKind>
    requires { IfSome (option_copied words) (Lacks 10) }
    ensures ok { IfOk result (λ t. (option_copied words.entry ≡ option_map on_one_line t) × IfSome t IsText) }
    ensures err { IfErr result (FailsUnless ((t : Option (List ℕ))
        × (option_copied words.entry ≡ option_map on_one_line t) × IfSome t IsText)) }
{
    let Some(words) = words else {
        return Ok(None);
    };
    let text = text_of(alloc, words)?;
    Ok(Some(text))
}

/// The text that words on one line are. 40: no text is written so.
fn text_of(alloc: Global, words: &str) -> Result<Text, RefusalKind>
    requires { Lacks 10 words.now }
    ensures ok { IfOk result (λ t. (words.now ≡ on_one_line t) × IsText t) }
    ensures err { IfErr result (FailsUnless ((t : List ℕ) × (words.now ≡ on_one_line t) × IsText t)) }
{
    let mut string = String::new(alloc);
    push_replaced(&mut string, words, '\r', "\n")?;
    let Some(text) = Text::try_new(string) else {
        return Err(RefusalKind::BadStored);
    };
    let _ = text.as_str();
    Ok(text)
}
