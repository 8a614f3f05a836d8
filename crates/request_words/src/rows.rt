//! Answers as rows of CSV, by the default writer of `csv`.

use csv::WriterBuilder;
use receipts::Answer;
use record_text::{Refusal, RefusalKind};
use std::alloc::{AllocError, Global};

/// The answer of a request under its token.
pub fn outcome_row(
    alloc: Global,
    token: &str,
    outcome: Result<Answer, Refusal>,
) -> Result<Vec<u8>, AllocError> {
    match outcome {
        Ok(answer) => {
            let first = answer.first.to_string(alloc)?;
            let count = answer.count.to_string(alloc)?;
            row_of_four(alloc, token, "ok", first.as_str(), count.as_str())
        }
        Err(refusal) => refused(alloc, token, refusal.kind),
    }
}

/// The answer of a row that is refused.
pub fn refused(alloc: Global, token: &str, kind: RefusalKind) -> Result<Vec<u8>, AllocError> {
    let number = kind.number().to_string(alloc)?;
    row_of_four(alloc, token, "refused", number.as_str(), kind.name())
}

/// A row of four fields.
pub(crate) fn row_of_four<'a>(
    alloc: Global,
    first: &'a str,
    second: &'a str,
    third: &'a str,
    fourth: &'a str,
) -> Result<Vec<u8>, AllocError> {
    row(
        alloc,
        &[
            first.as_bytes(),
            second.as_bytes(),
            third.as_bytes(),
            fourth.as_bytes(),
        ],
    )
}

/// A word and what is said of it.
pub fn said<'a>(alloc: Global, word: &'a str, what: &'a [u8]) -> Result<Vec<u8>, AllocError> {
    row(alloc, &[word.as_bytes(), what])
}

/// Only a word.
pub fn word(alloc: Global, text: &str) -> Result<Vec<u8>, AllocError> {
    row(alloc, &[text.as_bytes()])
}

/// A row of these fields.
fn row(alloc: Global, fields: &[&[u8]]) -> Result<Vec<u8>, AllocError> {
    let mut writer = WriterBuilder::new().from_writer(Vec::new(alloc));
    if writer.write_fields(fields).is_err() {
        return Err(AllocError);
    }
    match writer.into_inner() {
        Ok(bytes) => Ok(bytes),
        Err(_) => Err(AllocError),
    }
}
