//! Pages of citations.

ghost use Rattle.std.specs.Prelude.{◌≡◌, ◌++◌, IfErr, IfOk, OnOk, Some, string_bytes};
ghost use Rattle.plain_export.specs.Allowed as allowed;
ghost use Rattle.plain_export.specs.Fitting.{Fails, Fits};

use crate::lines::{put_line, text_line, words_line};
use crate::one_line::{one_line, words_in_line};
use record_text::{RefusalKind, Text};
use std::alloc::{AllocError, Global};
use stored_lines::Carried;

/// The most bytes of a page on one line.
const MAX_PAGE: usize = 200;

/// Whether a page is too long for one line.
fn is_long(text: &str) -> bool
    ensures { result ≡ allowed.is_long text.now }
{
    text.len() > MAX_PAGE
}

/// The line of a page, or the note that a long one is.
pub(crate) fn page_line(alloc: Global, words: String) -> Result<Carried, RefusalKind>
    ensures made { IfOk result (λ c. c ≡ allowed.page_line (string_bytes words)) }
    ensures refused { IfErr result (λ e. Fails e (Fits (allowed.page_line (string_bytes words)))) }
{
    if is_long(words.as_str()) {
        return words_line(alloc, "NOTE", words);
    }
    let words = words_in_line(alloc, words.as_str())?;
    words_line(alloc, "PAGE", words)
}

/// A page that is not too long, on one line.
pub(crate) fn short_page(alloc: Global, page: &Option<Text>) -> Result<Option<Text>, AllocError>
    ensures { IfOk result (λ o. o ≡ allowed.short_page page.now) }
{
    match page {
        None => Ok(None),
        Some(text) => short_text(alloc, text),
    }
}

fn short_text(alloc: Global, text: &Text) -> Result<Option<Text>, AllocError>
    ensures { IfOk result (λ o. o ≡ allowed.short_page (Some text.now)) }
{
    if is_long(text.as_str()) {
        Ok(None)
    } else {
        Ok(Some(one_line(alloc, text)?))
    }
}

/// Puts the note that a long page is.
pub(crate) fn put_page(
    alloc: Global,
    page: &Option<Text>,
    lines: &mut Vec<Carried>,
) -> Result<(), AllocError>
    ensures { OnOk result (lines.new.items ≡ lines.old.items ++ allowed.page_note page.now) }
{
    match page {
        None => Ok(()),
        Some(text) => put_long(alloc, text, lines),
    }
}

fn put_long(alloc: Global, text: &Text, lines: &mut Vec<Carried>) -> Result<(), AllocError>
    ensures { OnOk result (lines.new.items ≡ lines.old.items ++ allowed.page_note (Some text.now)) }
{
    if is_long(text.as_str()) {
        put_line(lines, text_line(alloc, "NOTE", text.copy(alloc)?)?)?;
    }
    Ok(())
}
