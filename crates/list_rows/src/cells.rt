//! Cells and rows.

ghost use Rattle.std.specs.Prelude.{◌≡◌, ◌∷◌, ◌++◌, ◌+◌, [], IfOk, OnOk, drop};
ghost use Rattle.csv.specs.Records.{fields_of};
ghost use Rattle.csv.specs.Writing.{default_writer, row_text};
ghost use Rattle.list_rows.specs.Cells as cells;

use csv::{ByteRecord, WriterBuilder};
use std::alloc::{AllocError, Global};
use std::marker::Model;

/// The cells of a row. Contracts see their bytes.
#[derive(Drop)]
pub struct Row {
    record: ByteRecord,
}

impl Model for Row {
    ghost use Rattle.std.specs.Prelude.{◌≡◌, List, ℕ, []};
    ghost use Rattle.csv.specs.Records.{fields_of, partial_of};

    ghost Value = { List (List ℕ) };

    ghost view = { λ a. fields_of a.record };

    ghost invariant = { λ a. partial_of a.record ≡ [] };
}

impl Row {
    /// A row without cells.
    pub fn new(alloc: Global) -> Row
        ensures { result ≡ [] }
    {
        Row {
            record: ByteRecord::new(alloc),
        }
    }

    /// Adds a cell with a text; an apostrophe stands before what would be taken for a formula.
    pub fn push(&mut self, alloc: Global, text: &[u8]) -> Result<(), AllocError>
        ensures { OnOk result (self.new ≡ self.old ++ cells.cell text.now ∷ []) }
    {
        if begins_formula(text) {
            return self.push_guarded(alloc, text);
        }
        self.push_bytes(text)
    }

    /// Adds a cell with a text after an apostrophe.
    fn push_guarded(&mut self, alloc: Global, text: &[u8]) -> Result<(), AllocError>
        ensures { OnOk result (self.new ≡ self.old ++ (39 ∷ text.now) ∷ []) }
    {
        let mut guarded = Vec::new(alloc);
        guarded.push(b'\'')?;
        guarded.extend_from_slice(text)?;
        self.push_bytes(&guarded)
    }

    /// Adds a cell of these bytes. The row is empty where memory was refused.
    fn push_bytes(&mut self, cell: &[u8]) -> Result<(), AllocError>
        ensures { OnOk result (self.new ≡ self.old ++ cell.now ∷ []) }
    {
        match self.record.push_field(cell) {
            Ok(()) => Ok(()),
            Err(error) => {
                self.record.clear();
                Err(error)
            }
        }
    }
}

/// Whether a spreadsheet would take the text for a formula.
fn begins_formula(text: &[u8]) -> bool
    ensures { result ≡ cells.begins_formula text.now }
{
    match text.first() {
        Some(byte) => is_formula_mark(*byte),
        None => false,
    }
}

#[tactic(auto, unfolding(crate::specs::Cells::is_formula_mark))]
fn is_formula_mark(byte: u8) -> bool
    ensures { result ≡ cells.is_formula_mark byte }
{
    byte == b'=' || byte == b'+' || byte == b'-' || byte == b'@' || byte == b'\t' || byte == b'\r'
}

/// Appends a row as CSV, with its line end.
pub fn push_row(alloc: Global, out: &mut Vec<u8>, row: &Row) -> Result<(), AllocError>
    ensures { OnOk result (out.new.items ≡ out.old.items ++ row_text default_writer row.now) }
{
    let bytes = row_bytes(alloc, row)?;
    out.extend_from_slice(&bytes)?;
    Ok(())
}

/// The row as CSV, with its line end.
fn row_bytes(alloc: Global, row: &Row) -> Result<Vec<u8>, AllocError>
    ensures { IfOk result (λ bytes. bytes.items ≡ row_text default_writer row.now) }
{
    let mut writer = WriterBuilder::new().from_writer(Vec::new(alloc));
    if writer.write_byte_record(&row.record).is_err() {
        return Err(AllocError);
    }
    match writer.into_inner() {
        Ok(bytes) => Ok(bytes),
        Err(_) => Err(AllocError),
    }
}

/// Appends the row of two texts.
pub fn push_pair(
    alloc: Global,
    out: &mut Vec<u8>,
    first: &[u8],
    second: &[u8],
) -> Result<(), AllocError>
    ensures { OnOk result (out.new.items ≡ out.old.items ++ cells.row (first.now ∷ second.now ∷ [])) }
{
    let mut row = Row::new(alloc);
    row.push(alloc, first)?;
    row.push(alloc, second)?;
    push_row(alloc, out, &row)
}

/// Appends the row of a line that begins with a number and two spaces: the number, and what stands after them.
pub fn push_numbered(
    alloc: Global,
    out: &mut Vec<u8>,
    number: u32,
    line: &str,
) -> Result<(), AllocError>
    ensures { OnOk result (out.new.items ≡ out.old.items ++ cells.row (cells.numbered (number, line.now))) }
{
    let digits = number.to_string(alloc)?;
    let said = after(line.as_bytes(), digits.len());
    push_pair(alloc, out, digits.as_bytes(), said)
}

/// What stands after so many bytes and two spaces.
fn after(line: &[u8], digits: usize) -> &[u8]
    ensures { result.now ≡ drop (digits + 2) line.now }
{
    match line.get(digits.saturating_add(2)..) {
        Some(rest) => rest,
        None => &[],
    }
}
