//! Rows that are stored lines.

use crate::rows::{number, optional_number, optional_text, word};
use record_text::{RefusalKind, Tag};
use std::alloc::Global;
use stored_lines::StoredLine;

/// The line of a row: depth, tag, text and number. 58: a word is none of them.
pub fn line_of(alloc: Global, words: &[String]) -> Result<StoredLine, RefusalKind> {
    let text = optional_text(alloc, word(words, 3))?;
    Ok(StoredLine {
        depth: number(words, 1),
        tag: tag(alloc, word(words, 2))?,
        text,
        target: optional_number(words, 4),
    })
}

fn tag(alloc: Global, word: &str) -> Result<Tag, RefusalKind> {
    Tag::try_new(String::from_str(alloc, word)?).ok_or(RefusalKind::BadText)
}
