//! The rows of a batch as they were read, and their entries with the numbers of their references.

ghost use Rattle.std.specs.Prelude.{
  ◌≡◌,
  ◌⊎◌,
  ◌++◌,
  ◌∷◌,
  [],
  ℕ,
  Err,
  IfErr,
  IfOk,
  List,
  Ok,
  OnOk,
  Option,
  Some,
  map,
  true,
};
ghost use Rattle.archive_state.specs.Looks.{CountsFailures, Looked};
ghost use Rattle.archive_state.specs.Views.{On};
ghost use Rattle.csv.specs.Records.{fields_of};
ghost use Rattle.commands.specs.Rows.{Decided};
ghost use Rattle.record_text.specs.declared.refusal.RefusalKind.TheVariants as refusal;
ghost use Rattle.row_references.specs.Entries.{has_place_reference as has_reference, place_field};
ghost use Rattle.row_references.specs.References.{kept_number, with_number};
ghost use Rattle.request_csv.specs.Batches.{
  AreRead,
  IsRead,
  ReadsRow,
  Settles,
  SettlesRow,
  number_at,
  number_for,
  placeless,
};
ghost use Rattle.request_csv.specs.Input.{Row};

use crate::reading::{entry_of, refused_row};
use archive_state::View;
use commands::{EntryRow, EntryRows};
use csv::ByteRecord;
use record_text::{Refusal, RefusalKind};
use row_references::{place_number, with_place};
use std::alloc::{AllocError, Global};
use std::marker::Model;

/// A row of a batch as it was read.
#[derive(Drop)]
pub enum BatchRow {
    /// Its entry.
    Entry(EntryRow),
    /// A row whose place is a reference, and its entry with the number 1 in place of that.
    Referring(ByteRecord, EntryRow),
}

/// The rows of a batch, in their order. Contracts see it as their list.
#[derive(Drop)]
pub struct BatchRows {
    rows: Vec<BatchRow>,
}

impl Model for BatchRows {
    ghost use Rattle.std.specs.Prelude.{List};
    ghost use Rattle.request_csv.specs.declared.batch_rows.BatchRow as row;

    ghost Value = { List row.BatchRow };

    ghost view = { λ a. a.rows.items };
}

impl BatchRows {
    /// The rows of a batch. Takes no memory.
    pub fn new(rows: Vec<BatchRow>) -> BatchRows
        ensures { result ≡ rows.items }
    {
        BatchRows { rows }
    }

    /// The rows, in their order.
    pub fn as_slice(&self) -> &[BatchRow]
        ensures { result.now ≡ self.now }
    {
        self.rows.as_slice()
    }

    /// For each row the number that an archive has for the token of its reference: the first of the answer that is
    /// stored for it. `None`: it has no reference, nothing is stored for it, or an answer that made nothing. Refused as
    /// a look is.
    pub fn numbers<V: View>(
        &self,
        alloc: Global,
        view: &mut V,
    ) -> Result<Vec<Option<u32>>, RefusalKind>
        ensures shows { On V.View view.old view.new (λ c. Looked result
            (λ found. found.items ≡ map (number_for (kept_number c)) self.now)) }
        ensures counts { CountsFailures (V.failed view.old) (V.failed view.new) result }
    {
        numbers_of(alloc, view, self.rows.as_slice())
    }

    /// The entries of the rows, with these numbers in place of their references.
    ///
    /// 50: the first row with a reference that has no number, with its place from 1. 1: memory was refused, or there
    /// are more rows than numbers of 32 bits.
    pub fn entries(self, alloc: Global, numbers: &[Option<u32>]) -> Result<EntryRows, Refusal>
        ensures { (rows : List Row) → AreRead rows self → Settles numbers.now rows result }
    {
        let mut entries = Vec::new(alloc);
        let mut rows = self.rows.into_iter();
        'rows: for before in 0..u32::MAX {
            match rows.next() {
                Some(row) => {
                    let number = number_at(numbers, before);
                    let entry = placed_entry(alloc, row, number, before + 1)?;
                    add_entry(&mut entries, entry)?;
                }
                None => return Ok(EntryRows::new(entries)),
            }
        }
        Err(Refusal::from(RefusalKind::OutOfMemory))
    }
}

/// The numbers for rows.
fn numbers_of<V: View>(
    alloc: Global,
    view: &mut V,
    rows: &[BatchRow],
) -> Result<Vec<Option<u32>>, RefusalKind>
    ensures shows { On V.View view.old view.new
        (λ c. Looked result (λ found. found.items ≡ map (number_for (kept_number c)) rows.now)) }
    ensures counts { CountsFailures (V.failed view.old) (V.failed view.new) result }
{
    let mut numbers = Vec::new(alloc);
    'rows: for row in rows {
        let number = number_for(alloc, view, row)?;
        push(&mut numbers, number)?;
    }
    Ok(numbers)
}

/// Adds a number after the others.
fn push(numbers: &mut Vec<Option<u32>>, number: Option<u32>) -> Result<(), AllocError>
    ensures { OnOk result (numbers.new.items ≡ numbers.old.items ++ number ∷ []) }
{
    numbers.push(number)?;
    Ok(())
}

/// The number for a row.
fn number_for<V: View>(
    alloc: Global,
    view: &mut V,
    row: &BatchRow,
) -> Result<Option<u32>, RefusalKind>
    ensures shows { On V.View view.old view.new
        (λ c. Looked result (λ found. found ≡ number_for (kept_number c) row.now)) }
    ensures counts { CountsFailures (V.failed view.old) (V.failed view.new) result }
{
    match row {
        BatchRow::Entry(_) => Ok(None),
        BatchRow::Referring(own, _) => place_number(alloc, view, own),
    }
}

/// The number at a place. `None`: there is none.
fn number_at(numbers: &[Option<u32>], at: u32) -> Option<u32>
    ensures { result ≡ number_at numbers.now at }
{
    match numbers.get(at as usize) {
        Some(number) => *number,
        None => None,
    }
}

/// Adds an entry after the others. Refused only if out of memory.
fn add_entry(entries: &mut Vec<EntryRow>, entry: EntryRow) -> Result<(), Refusal>
    ensures added { OnOk result (entries.new.items ≡ entries.old.items ++ entry ∷ []) }
    ensures refused { IfErr result (λ e. e ≡ placeless refusal.OutOfMemory) }
{
    match entries.push(entry) {
        Ok(()) => Ok(()),
        Err(_) => Err(Refusal::from(RefusalKind::OutOfMemory)),
    }
}

/// The entry of the row at this place, with the number for it.
fn placed_entry(
    alloc: Global,
    row: BatchRow,
    number: Option<u32>,
    place: u32,
) -> Result<EntryRow, Refusal>
    ensures { (raw : Row) → IsRead raw row → SettlesRow number raw place result }
{
    match row {
        BatchRow::Entry(entry) => Ok(entry),
        BatchRow::Referring(own, form) => {
            drop(form);
            referring_entry(alloc, &own, number, place)
        }
    }
}

/// The entry of the row with a reference at this place, with the number for it.
fn referring_entry(
    alloc: Global,
    own: &ByteRecord,
    number: Option<u32>,
    place: u32,
) -> Result<EntryRow, Refusal>
    ensures { has_reference (fields_of own.now) ≡ true → SettlesRow number (fields_of own.now) place result }
{
    match number {
        Some(number) => entry_with(alloc, own, number, place),
        None => Err(Refusal {
            kind: RefusalKind::NoSuch,
            at: Some(place),
        }),
    }
}

/// The entry of the row at this place with a number for its reference.
fn entry_with(alloc: Global, own: &ByteRecord, number: u32, place: u32) -> Result<EntryRow, Refusal>
    ensures read { IfOk result (λ e. ReadsRow (with_number (fields_of own.now) place_field number) (Ok e)) }
    ensures refused { IfErr result (λ e. (e ≡ placeless refusal.OutOfMemory)
        ⊎ (ReadsRow (with_number (fields_of own.now) place_field number) (Err e.kind) × (e.at ≡ Some place))) }
{
    match numbered_entry(alloc, own, number) {
        Ok(entry) => Ok(entry),
        Err(kind) => Err(refused_row(kind, place)),
    }
}

fn numbered_entry(alloc: Global, own: &ByteRecord, number: u32) -> Result<EntryRow, RefusalKind>
    ensures { Decided result (ReadsRow (with_number (fields_of own.now) place_field number)) }
{
    let row = with_place(alloc, own, number)?;
    entry_of(alloc, &row)
}
