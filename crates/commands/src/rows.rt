//! Rows of a verb and its fields in CSV: RFC 4180, section 2, as the default writer of `csv` writes them.

ghost use Rattle.std.specs.Prelude.{◌≡◌, ◌∷◌, IfOk, map};
ghost use Rattle.csv.specs.Writing.{default_writer, row_text};
ghost use Rattle.commands.specs.Verbs.{verb_word};

use crate::verb::Verb;
use csv::WriterBuilder;
use std::alloc::{AllocError, Global};

/// The bytes of a row of these fields.
pub(crate) fn row_bytes(alloc: Global, fields: &[&[u8]]) -> Result<Vec<u8>, AllocError>
    ensures { IfOk result (λ bytes. bytes.items ≡ row_text default_writer (map (λ f. f.now) fields.now)) }
{
    let mut writer = WriterBuilder::new().from_writer(Vec::new(alloc));
    if writer.write_fields(fields).is_err() {
        return Err(AllocError);
    }
    match writer.into_inner() {
        Ok(bytes) => Ok(bytes),
        Err(_) => Err(AllocError),
    }
}

/// The bytes of a row of a verb and its fields.
pub(crate) fn verb_row(alloc: Global, verb: Verb, fields: &[&str]) -> Result<Vec<u8>, AllocError>
    ensures { IfOk result
        (λ bytes. bytes.items ≡ row_text default_writer (verb_word verb ∷ map (λ f. f.now) fields.now)) }
{
    let mut words: Vec<&[u8]> = Vec::new(alloc);
    words.push(verb.as_str().as_bytes())?;
    for field in fields {
        words.push(field.as_bytes())?;
    }
    row_bytes(alloc, words.as_slice())
}
