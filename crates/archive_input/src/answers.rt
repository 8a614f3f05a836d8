//! Answers as rows of CSV, by the default writer of `csv`.

ghost use Rattle.std.specs.Prelude.{◌≡◌, ◌∷◌, [], IfOk, Ok, Err, map};
ghost use Rattle.csv.specs.Writing.{default_writer, row_text};
ghost use Rattle.archive_input.specs.Answers.{answer_text, outcome_row, refused_row};

use crate::bad_request::BadRequest;
use archive_core::Request;
use csv::WriterBuilder;
use receipts::Answer;
use record_text::{Refusal, RefusalKind};
use std::alloc::{AllocError, Global};

/// The bytes of the answer to a request with its outcome. Refused only if out of memory.
pub fn outcome_text(
    alloc: Global,
    request: &Request,
    outcome: Result<Answer, Refusal>,
) -> Result<Vec<u8>, AllocError>
    ensures { IfOk result (λ bytes. bytes.items ≡ answer_text (Ok («request».now, outcome))) }
{
    let token = request.token.as_str();
    match outcome {
        Ok(answer) => answered_text(alloc, token, answer),
        Err(refusal) => refused_text(alloc, token, refusal.kind),
    }
}

/// The bytes of the answer to a row that is no request. Refused only if out of memory.
pub fn bad_text(alloc: Global, bad: &BadRequest) -> Result<Vec<u8>, AllocError>
    ensures { IfOk result (λ bytes. bytes.items ≡ answer_text (Err bad.now)) }
{
    match &bad.token {
        Some(token) => refused_text(alloc, token.as_str(), bad.kind),
        None => refused_text(alloc, "", bad.kind),
    }
}

/// The row of a token and what was answered under it.
fn answered_text(alloc: Global, token: &str, answer: Answer) -> Result<Vec<u8>, AllocError>
    ensures { IfOk result (λ bytes. bytes.items ≡ row_text default_writer (outcome_row token.now (Ok answer))) }
{
    let first = answer.first.to_string(alloc)?;
    let count = answer.count.to_string(alloc)?;
    row_of_four(alloc, token, "ok", first.as_str(), count.as_str())
}

/// The row of a token and a refusal.
fn refused_text(alloc: Global, token: &str, kind: RefusalKind) -> Result<Vec<u8>, AllocError>
    ensures { IfOk result (λ bytes. bytes.items ≡ row_text default_writer (refused_row token.now kind)) }
{
    let number = kind.number().to_string(alloc)?;
    row_of_four(alloc, token, "refused", number.as_str(), kind.name())
}

/// The bytes of a row of four fields.
fn row_of_four<'a>(
    alloc: Global,
    first: &'a str,
    second: &'a str,
    third: &'a str,
    fourth: &'a str,
) -> Result<Vec<u8>, AllocError>
    ensures { IfOk result (λ bytes. bytes.items
        ≡ row_text default_writer (first.now ∷ second.now ∷ third.now ∷ fourth.now ∷ [])) }
{
    row_bytes(
        alloc,
        &[
            first.as_bytes(),
            second.as_bytes(),
            third.as_bytes(),
            fourth.as_bytes(),
        ],
    )
}

/// The bytes of a row of these fields.
fn row_bytes(alloc: Global, fields: &[&[u8]]) -> Result<Vec<u8>, AllocError>
    ensures { IfOk result (λ bytes. bytes.items ≡ row_text default_writer (map (λ f. f.now) fields.now)) }
{
    let mut writer = WriterBuilder::new().from_writer(Vec::new(alloc));
    if writer.write_fields(fields).is_err() {
        return Err(AllocError);
    }
    match writer.into_inner() {
        Ok(bytes) => Ok(bytes),
        Err(_) => Err(AllocError),
    }
}
