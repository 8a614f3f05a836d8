//! An import that is open.

ghost use Rattle.std.specs.Prelude.{◌≡◌, ◌↔◌, ◌∷◌, ◌++◌, [], ℕ, IfOk, OnOk, false};
ghost use Rattle.store_rows.specs.Spans.{AreDrawn, Drawn};
ghost use Rattle.staged_rows.specs.Staging.{numbers_of, rows_of_import};
ghost use Rattle.staging.specs.Opened.{links_written};

use crate::cursor::Cursor;
use crate::later::{Later, later_of_puts};
use archive_state::{Changes, Numbered};
use std::alloc::{AllocError, Global};
use std::marker::Model;
use store_tables::LinkRow;

/// An import that is open: its batch, what it changes, and how far its rows are written.
///
/// Contracts see the rows that are left to be written: see `Import` in specs/Opened.antt.
#[derive(Drop)]
pub struct OpenImport {
    pub(crate) batch: u32,
    pub(crate) changes: Changes,
    /// The numbers that it puts, so that taking it out again needs no memory.
    pub(crate) numbers: Vec<u32>,
    /// The rows that come after the lines of the records that it puts.
    pub(crate) later: Later,
    pub(crate) cursor: Cursor,
}

impl Model for OpenImport {
    ghost use Rattle.std.specs.Prelude.{◌≡◌};
    ghost use Rattle.staged_rows.specs.Staging.{numbers_of};
    ghost use Rattle.staging.specs.Opened.{AreLater, Import, IsPlaced, left_of};
    ghost use Rattle.std.specs.Coded.{codes};
    ghost use Rattle.stored_lines.specs.Line.{lines_code, value_code};

    ghost Value = { Import };

    ghost coded = { Prim.hlevel (codes, lines_code, value_code) };

    ghost view = { λ a. record {
      batch = a.batch;
      changes = a.changes;
      left = left_of a.batch a.changes.puts a.later a.cursor;
    } };

    ghost invariant = { λ a. (a.numbers.items ≡ numbers_of a.changes.puts) × IsPlaced a.changes.puts a.cursor
        × AreLater a.changes.puts a.later };
}

impl OpenImport {
    /// An import of which no row is written yet. Its batch is to be there, and open.
    pub fn new(alloc: Global, batch: u32, changes: Changes) -> Result<OpenImport, AllocError>
        ensures { IfOk result (λ i. (drawn : Drawn) × AreDrawn changes.puts drawn
            × (i ≡ record { batch = batch; changes = changes; left = rows_of_import batch changes.puts drawn })) }
    {
        let numbers = numbers_of(alloc, &changes.puts)?;
        let later = later_of_puts(alloc, &changes.puts)?;
        Ok(OpenImport {
            batch,
            changes,
            numbers,
            later,
            cursor: Cursor::new(),
        })
    }

    /// The number of its batch.
    pub fn batch(&self) -> u32
        ensures { result ≡ self.now.batch }
    {
        self.batch
    }

    /// What it changes.
    pub fn changes(&self) -> &Changes
        ensures { result.now ≡ self.now.changes }
    {
        &self.changes
    }

    /// The numbers of the records that it puts.
    pub fn numbers(&self) -> &[u32]
        ensures { result.now ≡ numbers_of self.now.changes.puts }
    {
        &self.numbers
    }

    /// The links of the records that it puts, of those that are written.
    pub fn links(&self) -> &[LinkRow]
        ensures { result.now ≡ links_written self.now }
    {
        let all = self.later.links.as_slice();
        &all[..self.cursor.links.min(all.len())]
    }

    /// Whether rows are left to be written.
    pub fn has_more(&self) -> bool
        ensures { (result ≡ false) ↔ (self.now.left ≡ []) }
    {
        self.cursor.has_more(&self.changes.puts, &self.later)
    }
}

/// The numbers of these records.
fn numbers_of(alloc: Global, puts: &[Numbered]) -> Result<Vec<u32>, AllocError>
    ensures { IfOk result (λ numbers. numbers.items ≡ numbers_of puts.now) }
{
    let mut numbers = Vec::with_capacity(alloc, puts.len())?;
    'puts: for put in puts {
        push(&mut numbers, put.number)?;
    }
    Ok(numbers)
}

/// Adds a number at the end.
fn push(numbers: &mut Vec<u32>, number: u32) -> Result<(), AllocError>
    ensures { OnOk result (numbers.new.items ≡ numbers.old.items ++ number ∷ []) }
{
    numbers.push(number)?;
    Ok(())
}
