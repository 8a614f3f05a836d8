//! A sheet: its columns and its rows.

ghost use Rattle.std.specs.Prelude.{◌≡◌, [], ◌++◌, ◌≤◌, IfOk, IfSome, MatchResult, Err, Ok, OnOk, length};
ghost use Rattle.table_pages.specs.Cells.{rows_of};
ghost use Rattle.table_pages.specs.Sheets as sheets;

use crate::cells::{ReadRows, RowBytes, read_rows};
use crate::columns::Column;
use crate::fault::{FaultKind, PageFault};
use crate::headers::{columns_of, header_fault, missing};
use crate::line_ends::{line_feeds, without_mark};
use crate::separators::separator;
use crate::texts::row_texts;
use commands::{Field, FieldRow};
use std::alloc::{AllocError, Global};
use std::marker::Model;

/// A row of a sheet with its number, the header's being 1. A cell that is missing at its end is empty.
#[derive(Drop)]
pub struct SheetRow {
    pub number: usize,
    pub cells: FieldRow,
}

/// A sheet: what its columns are, their names, and the rows after the header that are not empty. Contracts see it as
/// these lists.
#[derive(Drop)]
pub struct Sheet {
    columns: Vec<Column>,
    names: FieldRow,
    rows: Vec<SheetRow>,
}

impl Model for Sheet {
    ghost use Rattle.table_pages.specs.Sheets as given;

    ghost Value = { given.Sheet };

    ghost view = { λ a. record { columns = a.columns.items; names = a.names; rows = a.rows.items } };
}

impl Sheet {
    /// What the columns are, in their order.
    pub fn columns(&self) -> &[Column]
        ensures { result.now ≡ self.now.columns }
    {
        self.columns.as_slice()
    }

    /// The names of the columns, as the header has them.
    pub fn names(&self) -> &[Field]
        ensures { result.now ≡ self.now.names }
    {
        self.names.fields()
    }

    /// The rows after the header that are not empty, in their order.
    pub fn rows(&self) -> &[SheetRow]
        ensures { result.now ≡ self.now.rows }
    {
        self.rows.as_slice()
    }
}

/// Reads a sheet in UTF-8. Refused are, in this order: the first byte that is not UTF-8, with its row; a quote that is
/// not closed, with the row where it began; the first column that is not known or stands twice; and a column that is
/// missing.
#[tactic(auto, unfolding(crate::specs::Sheets::sheet_of))]
pub fn read_sheet(alloc: Global, bytes: &[u8]) -> Result<Result<Sheet, PageFault>, AllocError>
    ensures { IfOk result (λ r. r ≡ sheets.sheet_of bytes.now) }
{
    let lines = line_feeds(alloc, without_mark(bytes))?;
    let (separator, rest) = separator(&lines);
    sheet_of_lines(alloc, separator, rest)
}

/// The sheet of lines whose cells are parted so.
fn sheet_of_lines(
    alloc: Global,
    separator: u8,
    lines: &[u8],
) -> Result<Result<Sheet, PageFault>, AllocError>
    ensures { IfOk result (λ r. r ≡ sheets.sheet_of_lines separator lines.now) }
{
    match first_stray(lines) {
        Some(at) => {
            let row = count_rows(alloc, separator, &lines[..at])?;
            Ok(Err(row_fault(alloc, row, FaultKind::NotUtf8)))
        }
        None => {
            let ReadRows { rows, is_open } = read_rows(alloc, separator, lines)?;
            sheet_of_rows(alloc, &rows, is_open)
        }
    }
}

/// How many bytes are before the first that is not UTF-8. `None`: all are.
fn first_stray(lines: &[u8]) -> Option<usize>
    ensures first { result ≡ sheets.first_stray lines.now }
    ensures within { IfSome result (λ n. n ≤ length lines.now) }
{
    match str::from_utf8(lines) {
        Ok(_) => None,
        Err(e) => Some(e.valid_up_to()),
    }
}

/// How many rows lines begin.
fn count_rows(alloc: Global, separator: u8, lines: &[u8]) -> Result<usize, AllocError>
    ensures { IfOk result (λ n. n ≡ length (rows_of separator lines.now)) }
{
    let ReadRows { rows, is_open: _ } = read_rows(alloc, separator, lines)?;
    Ok(rows.len())
}

/// The sheet of these rows, of which the last has an open quote, or has none.
fn sheet_of_rows(
    alloc: Global,
    rows: &[RowBytes],
    is_open: bool,
) -> Result<Result<Sheet, PageFault>, AllocError>
    ensures { IfOk result (λ r. r ≡ sheets.sheet_of_rows is_open rows.now) }
{
    match rows {
        [header, others @ ..] => match row_texts(alloc, header.as_slice())? {
            Some(names) => sheet_below(alloc, names, others, is_open),
            None => Ok(Err(row_fault(alloc, 1, FaultKind::NotUtf8))),
        },
        [] => Ok(Err(header_fault(alloc, FaultKind::MissingColumn, "kind")?)),
    }
}

/// The sheet of a header and the rows after it.
fn sheet_below(
    alloc: Global,
    names: FieldRow,
    rows: &[RowBytes],
    is_open: bool,
) -> Result<Result<Sheet, PageFault>, AllocError>
    ensures { IfOk result (λ r. r ≡ sheets.sheet_below is_open names rows.now) }
{
    match rows_of(alloc, rows)? {
        Ok(_) if is_open => Ok(Err(row_fault(alloc, rows.len() + 1, FaultKind::OpenQuote))),
        Ok(rows) => headed(alloc, names, rows),
        Err(row) => Ok(Err(row_fault(alloc, row, FaultKind::NotUtf8))),
    }
}

/// The sheet of a header and rows that are read.
fn headed(
    alloc: Global,
    names: FieldRow,
    rows: Vec<SheetRow>,
) -> Result<Result<Sheet, PageFault>, AllocError>
    ensures { IfOk result (λ r. r ≡ sheets.headed names rows.items) }
{
    let columns = match columns_of(alloc, names.fields())? {
        Ok(columns) => columns,
        Err(fault) => return Ok(Err(fault)),
    };
    match missing(&columns) {
        Some(word) => Ok(Err(header_fault(alloc, FaultKind::MissingColumn, word)?)),
        None => Ok(Ok(Sheet {
            columns,
            names,
            rows,
        })),
    }
}

/// The rows after the header that are not empty. `Err`: the number of the first that has a cell that is not UTF-8.
fn rows_of(alloc: Global, rows: &[RowBytes]) -> Result<Result<Vec<SheetRow>, usize>, AllocError>
    ensures { IfOk result (λ r. MatchResult r (λ shown. sheets.rows_from 2 rows.now ≡ Ok shown.items)
        (λ row. sheets.rows_from 2 rows.now ≡ Err row)) }
{
    let mut shown = Vec::new(alloc);
    let mut number = 2;
    for row in rows {
        match row_texts(alloc, row.as_slice())? {
            Some(cells) => push_row(&mut shown, number, cells)?,
            None => return Ok(Err(number)),
        }
        number += 1;
    }
    Ok(Ok(shown))
}

/// Adds a row where it is not empty.
fn push_row(shown: &mut Vec<SheetRow>, number: usize, cells: FieldRow) -> Result<(), AllocError>
    ensures { OnOk result (shown.new.items ≡ shown.old.items ++ sheets.shown number cells) }
{
    if !is_empty(cells.fields()) {
        shown.push(SheetRow { number, cells })?;
    }
    Ok(())
}

/// Whether each cell is empty.
fn is_empty(cells: &[Field]) -> bool
    ensures { result ≡ sheets.is_empty cells.now }
{
    cells.iter().all(|cell| cell.as_str().is_empty())
}

/// A fault that no cell is named for.
fn row_fault(alloc: Global, row: usize, kind: FaultKind) -> PageFault
    ensures { result ≡ sheets.row_fault row kind }
{
    PageFault {
        row,
        kind,
        column: Field::new(String::new(alloc)),
        cell: Field::new(String::new(alloc)),
    }
}
