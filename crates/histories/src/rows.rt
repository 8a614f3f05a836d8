//! The rows that put back a value, with their tokens.

ghost use Rattle.std.specs.Prelude.{◌≡◌, ◌+◌, ◌<◌, ◌++◌, ◌∷◌, IfOk, OnOk, codes, decimal, map, string_bytes};
ghost use Rattle.csv.specs.Writing.{default_writer, row_text};
ghost use Rattle.put_back.specs.Back as back;
ghost use Rattle.histories.specs.Rows as rows;

use csv::WriterBuilder;
use put_back::{Row, rows_back};
use record_kinds::Record;
use std::alloc::{AllocError, Global};

/// Appends the rows that put back a value of a number, where an archive has so many answers.
pub(crate) fn push_rows_back(
    alloc: Global,
    out: &mut Vec<u8>,
    answers: usize,
    number: u32,
    old: &Record,
    now: &Record,
) -> Result<(), AllocError>
    ensures { OnOk result (out.new.items
        ≡ out.old.items ++ rows.rows (rows.front answers number) 1 (back.rows_back number old.now now.now)) }
{
    let begin = format!(in alloc; "back-{answers}-{number}-")?;
    let found = rows_back(alloc, number, old, now)?;
    push_rows(alloc, out, begin.as_str(), &found)
}

fn push_rows(alloc: Global, out: &mut Vec<u8>, begin: &str, found: &[Row]) -> Result<(), AllocError>
    ensures { OnOk result (out.new.items ≡ out.old.items ++ rows.rows begin.now 1 found.now) }
{
    'each: for before in 0..found.len() {
        push_row(alloc, out, begin, before, &found[before])?;
    }
    Ok(())
}

/// Appends a row behind so many others.
fn push_row(
    alloc: Global,
    out: &mut Vec<u8>,
    begin: &str,
    before: usize,
    row: &Row,
) -> Result<(), AllocError>
    requires { before < 18446744073709551615 }
    ensures { OnOk result (out.new.items ≡ out.old.items ++ rows.row begin.now (before + 1) row.now) }
{
    let place = before + 1;
    let token = format!(in alloc; "{begin}{place}")?;
    let bytes = row_bytes(alloc, token.as_str(), row.cells())?;
    out.extend_from_slice(&bytes)?;
    Ok(())
}

/// A row of CSV of a token and cells, with its line end.
fn row_bytes(alloc: Global, token: &str, cells: &[String]) -> Result<Vec<u8>, AllocError>
    ensures { IfOk result (λ bytes. bytes.items
        ≡ row_text default_writer (token.now ∷ map string_bytes cells.now)) }
{
    let fields = fields_of(alloc, token, cells)?;
    let mut writer = WriterBuilder::new().from_writer(Vec::new(alloc));
    if writer.write_fields(&fields).is_err() {
        return Err(AllocError);
    }
    match writer.into_inner() {
        Ok(bytes) => Ok(bytes),
        Err(_) => Err(AllocError),
    }
}

fn fields_of<'a>(
    alloc: Global,
    token: &'a str,
    cells: &'a [String],
) -> Result<Vec<&'a [u8]>, AllocError>
    ensures { IfOk result (λ fields. map (λ f. f.now) fields.items ≡ token.now ∷ map string_bytes cells.now) }
{
    let mut fields = Vec::new(alloc);
    fields.push(token.as_bytes())?;
    'each: for cell in cells {
        fields.push(cell.as_bytes())?;
    }
    Ok(fields)
}
