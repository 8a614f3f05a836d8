//! The rows of a sheet and their cells, as bytes.

ghost use Rattle.std.specs.Prelude.{◌≡◌, ◌++◌, ◌∷◌, [], ℕ, List, IfOk, OnOk};
ghost use Rattle.table_pages.specs.Cells as cells;

use std::alloc::{AllocError, Global};
use std::marker::Model;
use std::mem;

/// How far a cell was read.
#[derive(Clone, Copy, Debug, PartialEq, Eq)]
pub(crate) enum Mode {
    /// Nothing of it.
    Start,
    /// Something that no quote is around.
    Plain,
    /// The last quote is open.
    Quoted,
    /// The last byte closed a quote, unless another quote follows.
    Closed,
}

/// What a byte does.
#[derive(Clone, Copy, Debug, PartialEq, Eq)]
pub(crate) enum Act {
    /// It is a quote around the cell.
    Turn(Mode),
    /// It belongs to the cell.
    Put(Mode),
    /// It ends the cell.
    EndCell,
    /// It ends the row.
    EndRow,
}

/// The bytes of a cell. Contracts see their list.
#[derive(Drop)]
pub(crate) struct CellBytes {
    bytes: Vec<u8>,
}

impl Model for CellBytes {
    ghost use Rattle.std.specs.Prelude.{List, ℕ};

    ghost Value = { List ℕ };

    ghost view = { λ a. a.bytes.items };
}

impl CellBytes {
    pub(crate) fn as_slice(&self) -> &[u8]
        ensures { result.now ≡ self.now }
    {
        self.bytes.as_slice()
    }
}

/// The cells of a row. Contracts see their list.
#[derive(Drop)]
pub(crate) struct RowBytes {
    cells: Vec<CellBytes>,
}

impl Model for RowBytes {
    ghost use Rattle.std.specs.Prelude.{List, ℕ};

    ghost Value = { List (List ℕ) };

    ghost view = { λ a. a.cells.items };
}

impl RowBytes {
    pub(crate) fn as_slice(&self) -> &[CellBytes]
        ensures { result.now ≡ self.now }
    {
        self.cells.as_slice()
    }
}

/// The rows that were read, of which the last may be empty, and whether a quote is open at their end.
pub(crate) struct ReadRows {
    pub rows: Vec<RowBytes>,
    pub is_open: bool,
}

/// What a byte does to a cell that was read so far.
fn act_of(separator: u8, mode: Mode, byte: u8) -> Act
    ensures { result ≡ cells.act separator mode byte }
{
    match mode {
        Mode::Quoted if byte == b'"' => Act::Turn(Mode::Closed),
        Mode::Quoted => Act::Put(Mode::Quoted),
        Mode::Start if byte == b'"' => Act::Turn(Mode::Quoted),
        Mode::Closed if byte == b'"' => Act::Put(Mode::Quoted),
        _ => plain_act(separator, byte),
    }
}

/// The same outside quotes.
fn plain_act(separator: u8, byte: u8) -> Act
    ensures { result ≡ cells.plain separator byte }
{
    if byte == separator {
        Act::EndCell
    } else if byte == b'\n' {
        Act::EndRow
    } else {
        Act::Put(Mode::Plain)
    }
}

/// The rows before the one that is read, its cells before the one that is read, and what of that was read.
#[derive(Drop)]
struct Reading {
    rows: Vec<RowBytes>,
    row: Vec<CellBytes>,
    cell: Vec<u8>,
    mode: Mode,
}

impl Reading {
    ghost use Rattle.table_pages.specs.Cells.{read, read_on};

    fn take(&mut self, alloc: Global, separator: u8, byte: u8) -> Result<(), AllocError>
        ensures rows { OnOk result ((bytes : List ℕ)
            → read_on separator self.new.rows.items self.new.row.items self.new.cell.items self.new.mode bytes
            ≡ read_on separator self.old.rows.items self.old.row.items self.old.cell.items self.old.mode
            (byte ∷ bytes)) }
        ensures ends { OnOk result ((bytes : List ℕ)
            → (read separator self.new.mode bytes).ends ≡ (read separator self.old.mode (byte ∷ bytes)).ends) }
    {
        match act_of(separator, self.mode, byte) {
            Act::Turn(mode) => {
                self.mode = mode;
                Ok(())
            }
            Act::Put(mode) => {
                self.cell.push(byte)?;
                self.mode = mode;
                Ok(())
            }
            Act::EndCell => {
                self.end_cell(alloc)?;
                self.mode = Mode::Start;
                Ok(())
            }
            Act::EndRow => {
                self.end_row(alloc)?;
                self.mode = Mode::Start;
                Ok(())
            }
        }
    }

    /// Ends the cell.
    fn end_cell(&mut self, alloc: Global) -> Result<(), AllocError>
        ensures rows { self.new.rows ≡ self.old.rows }
        ensures row { OnOk result (self.new.row.items ≡ self.old.row.items ++ self.old.cell.items ∷ []) }
        ensures cell { OnOk result (self.new.cell.items ≡ []) }
    {
        let bytes = mem::replace(&mut self.cell, Vec::new(alloc));
        self.row.push(CellBytes { bytes })?;
        Ok(())
    }

    /// Ends the cell and the row.
    fn end_row(&mut self, alloc: Global) -> Result<(), AllocError>
        ensures rows { OnOk result (self.new.rows.items
            ≡ self.old.rows.items ++ (self.old.row.items ++ self.old.cell.items ∷ []) ∷ []) }
        ensures row { OnOk result (self.new.row.items ≡ []) }
        ensures cell { OnOk result (self.new.cell.items ≡ []) }
    {
        self.end_cell(alloc)?;
        let cells = mem::replace(&mut self.row, Vec::new(alloc));
        self.rows.push(RowBytes { cells })?;
        Ok(())
    }
}

/// The rows of lines whose cells are parted so.
pub(crate) fn read_rows(alloc: Global, separator: u8, lines: &[u8]) -> Result<ReadRows, AllocError>
    ensures rows { IfOk result (λ found. found.rows.items ≡ cells.rows_of separator lines.now) }
    ensures open { IfOk result (λ found. found.is_open ≡ cells.is_open separator lines.now) }
{
    let mut reading = Reading {
        rows: Vec::new(alloc),
        row: Vec::new(alloc),
        cell: Vec::new(alloc),
        mode: Mode::Start,
    };
    for byte in lines {
        reading.take(alloc, separator, *byte)?;
    }
    let is_open = is_quoted(reading.mode);
    reading.end_row(alloc)?;
    let Reading { rows, .. } = reading;
    Ok(ReadRows { rows, is_open })
}

/// Whether a quote is open.
fn is_quoted(mode: Mode) -> bool
    ensures { result ≡ cells.is_quoted mode }
{
    matches!(mode, Mode::Quoted)
}
