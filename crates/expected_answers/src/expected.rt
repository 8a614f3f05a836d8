//! Answers that are expected, by their tokens.

ghost use Rattle.std.specs.Prelude.{◌≡◌, ◌⊎◌, ◌∷◌, ℕ, List, [], IfErr, IfOk, OnOk, bytes_eq, if◌then◌else◌, map, true};
ghost use Rattle.csv.specs.Records.{fields_of};
ghost use Rattle.csv.specs.Writing.{default_writer, row_text};
ghost use Rattle.devices.specs.Devices.{Rose};
ghost use Rattle.record_text.specs.declared.refusal.RefusalKind.TheVariants as refusal;
ghost use Rattle.request_csv.specs.Input.{AreRows, Row, row_bytes};
ghost use Rattle.expected_answers.specs.Expected.{
  IsLeft,
  is_next as is_next_of,
  left,
  rest,
  token_of as token_in,
  under,
};

use crate::reading::rows_of;
use crate::stacks::{is_next, put, take};
use csv::{ByteRecord, WriterBuilder};
use devices::{Device, has_risen};
use record_text::RefusalKind;
use std::alloc::{AllocError, Global};
use std::collections::BTreeMap;
use std::io::Read;

/// Answers that are expected, by the token of each: their texts, of which the next one is the last.
#[derive(Debug)]
pub struct Expected {
    texts: BTreeMap<String, Vec<Vec<u8>>>,
}

// It is written out, so that no crate above proves again how a map is dropped.
impl Drop for Expected {
    fn drop(self) {
        let Expected { texts: _ } = self;
    }
}

impl Expected {
    /// Reads the answers of an input: rows of CSV, of which each has its token first. What is no text is the token of
    /// no row.
    ///
    /// 94: the reader failed in this call, by its count. 1: memory was refused, or the reader did not count its error.
    pub fn read<R: Read + Device>(alloc: Global, input: &mut R) -> Result<Expected, RefusalKind>
        ensures read { IfOk result (λ e. (rows : List Row) × AreRows (row_bytes (R.remaining input.old)) rows
            × IsLeft e rows) }
        ensures refused { IfErr result (λ kind. (kind ≡ refusal.OutOfMemory) ⊎ (kind ≡ refusal.ReadFailed)) }
        ensures failed { IfErr result
            (λ kind. kind ≡ refusal.ReadFailed → Rose (R.failed input.old) (R.failed input.new)) }
    {
        let before = input.failures();
        match rows_of(alloc, &mut *input) {
            Ok(rows) => Ok(by_token(alloc, rows)?),
            Err(kind) => Err(blamed(kind, has_risen(before, input.failures()))),
        }
    }

    /// Whether this text is that of the next answer that is expected of a token; or none is expected of it. Takes no
    /// memory.
    pub fn is_next(&self, token: &str, text: &[u8]) -> bool
        ensures { result ≡ is_next_of (left self.now token.now) text.now }
    {
        match self.texts.get(token) {
            Some(stack) => is_next(stack, text),
            None => true,
        }
    }

    /// The next answer that is expected of a token is expected no more. Takes no memory.
    pub fn take(&mut self, token: &str)
        ensures { (other : List ℕ) → left self.new other
            ≡ (if bytes_eq token.now other then rest (left self.old other) else left self.old other) }
    {
        match self.texts.get_mut(token) {
            Some(stack) => take(stack),
            None => {}
        }
    }

    /// Expects an answer before the others.
    fn put(&mut self, alloc: Global, row: &ByteRecord) -> Result<(), AllocError>
        ensures { OnOk result ((rows : List Row) → IsLeft self.old rows → IsLeft self.new (fields_of row.now ∷ rows)) }
    {
        match str::from_utf8(token_of(row)) {
            Ok(token) => put_under(alloc, &mut self.texts, token, row),
            Err(_) => Ok(()),
        }
    }
}

/// Why answers were not read: the reader is blamed only where its count of failures has risen.
fn blamed(kind: RefusalKind, risen: bool) -> RefusalKind
    ensures kind { (result ≡ refusal.OutOfMemory) ⊎ (result ≡ kind) }
    ensures risen { result ≡ refusal.ReadFailed → risen ≡ true }
{
    match kind {
        RefusalKind::ReadFailed if risen => RefusalKind::ReadFailed,
        _ => RefusalKind::OutOfMemory,
    }
}

/// The answers of rows, each of which is given back as it is put under its token.
fn by_token(alloc: Global, rows: Vec<ByteRecord>) -> Result<Expected, AllocError>
    ensures { IfOk result (λ e. IsLeft e (map fields_of rows.items)) }
{
    let mut expected = Expected {
        texts: BTreeMap::new(alloc),
    };
    let mut above = rows;
    'rows: while let Some(row) = above.pop() {
        expected.put(alloc, &row)?;
    }
    Ok(expected)
}

/// The bytes of the first field, none where there is none.
fn token_of(row: &ByteRecord) -> &[u8]
    ensures { result.now ≡ token_in (fields_of row.now) }
{
    match row.get(0) {
        Some(field) => field,
        None => &[],
    }
}

fn put_under(
    alloc: Global,
    texts: &mut BTreeMap<String, Vec<Vec<u8>>>,
    token: &str,
    row: &ByteRecord,
) -> Result<(), AllocError>
    ensures { OnOk result ((other : List ℕ) → under texts.new other
        ≡ (if bytes_eq token.now other then row_text default_writer (fields_of row.now) ∷ under texts.old other
        else under texts.old other)) }
{
    let text = text_of(alloc, row)?;
    if let Some(stack) = texts.get_mut(token) {
        put(stack, text)?;
        return Ok(());
    }
    let mut first = Vec::new(alloc);
    put(&mut first, text)?;
    let key = String::from_str(alloc, token)?;
    texts.insert(key, first)?;
    Ok(())
}

/// The bytes of a row, as `apply` writes its answers.
fn text_of(alloc: Global, row: &ByteRecord) -> Result<Vec<u8>, AllocError>
    ensures { IfOk result (λ bytes. bytes.items ≡ row_text default_writer (fields_of row.now)) }
{
    let mut writer = WriterBuilder::new().from_writer(Vec::new(alloc));
    if writer.write_byte_record(row).is_err() {
        return Err(AllocError);
    }
    match writer.into_inner() {
        Ok(bytes) => Ok(bytes),
        Err(_) => Err(AllocError),
    }
}
