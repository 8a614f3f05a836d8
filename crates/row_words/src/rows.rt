//! Rows: words with tabs between, in which a backslash begins an escape.

use record_text::{RefusalKind, Text};
use std::alloc::{AllocError, Global};

/// The words of a row.
pub fn words_of(alloc: Global, row: &str) -> Result<Vec<String>, AllocError> {
    row.split('\t')
        .map(|word| unescaped(alloc, word))
        .try_collect(alloc)
}

/// The word with what its escapes stand for.
fn unescaped(alloc: Global, word: &str) -> Result<String, AllocError> {
    let mut out = String::new(alloc);
    let mut is_escaped = false;
    for c in word.chars() {
        if is_escaped {
            out.push(escaped_as(c))?;
            is_escaped = false;
        } else if c == '\\' {
            is_escaped = true;
        } else {
            out.push(c)?;
        }
    }
    Ok(out)
}

/// What a backslash and a character stand for.
fn escaped_as(c: char) -> char {
    match c {
        'n' => '\n',
        'r' => '\r',
        't' => '\t',
        '0' => '\0',
        _ => c,
    }
}

/// A word of a row, counted from 0; empty where there is none.
pub fn word(words: &[String], at: usize) -> &str {
    match words.get(at) {
        Some(found) => found.as_str(),
        None => "",
    }
}

/// The number that a word is. `None`: it is none.
pub fn optional_number(words: &[String], at: usize) -> Option<u32> {
    word(words, at).parse::<u32>().ok()
}

/// The number that a word is, and 0 where it is none.
pub fn number(words: &[String], at: usize) -> u32 {
    optional_number(words, at).unwrap_or(0)
}

/// The text that a word is. 58: it is none.
pub fn text(alloc: Global, words: &str) -> Result<Text, RefusalKind> {
    Text::try_new(String::from_str(alloc, words)?).ok_or(RefusalKind::BadText)
}

/// The text after the sign `=`, or none where another word stands.
pub fn optional_text(alloc: Global, word: &str) -> Result<Option<Text>, RefusalKind> {
    match word.strip_prefix("=") {
        Some(words) => Ok(Some(text(alloc, words)?)),
        None => Ok(None),
    }
}
