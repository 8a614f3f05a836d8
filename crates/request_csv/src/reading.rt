//! All rows of an input, read as rows of a batch of register entries.

ghost use Rattle.std.specs.Prelude.{
  ◌≡◌,
  ◌⊎◌,
  ◌++◌,
  ◌∷◌,
  [],
  false,
  true,
  Err,
  IfErr,
  IfOk,
  IsTrue,
  Ok,
  OnOk,
  Some,
  if◌then◌else◌,
  map,
};
ghost use Rattle.csv.specs.Reading.{
  Ready,
  default_config,
  is_flexible,
  reader_config,
  reader_state,
  reader_trim,
  source_of,
};
ghost use Rattle.csv.specs.Records.{fields_of};
ghost use Rattle.csv.specs.declared.parser.State.TheVariants as state;
ghost use Rattle.csv.specs.declared.reader.Trim.TheVariants as trim;
ghost use Rattle.devices.specs.Devices.{Rose};
ghost use Rattle.record_text.specs.declared.refusal.RefusalKind.TheVariants as refusal;
ghost use Rattle.commands.specs.Rows.{Decided, ReadsEntry, is_want};
ghost use Rattle.commands.specs.declared.entry_row.EntryRow.{EntryRow as SpecEntry};
ghost use Rattle.request_csv.specs.Batches.{IsRead, IsRefused, ReadsRow, ReadsRows, in_form, placeless};
ghost use Rattle.request_csv.specs.declared.batch_rows.BatchRow.{BatchRow as SpecRow};
ghost use Rattle.request_csv.specs.Input.{row_bytes};

use crate::batch_rows::{BatchRow, BatchRows};
use crate::fields::text_fields;
use commands::EntryRow;
use csv::{ByteRecord, Reader, ReaderBuilder};
use devices::{Device, has_risen};
use record_text::{Refusal, RefusalKind};
use row_references::{copied, has_place_reference, with_any_place};
use std::alloc::{AllocError, Global};
use std::io::{ErrorKind, Read};

/// Reads the rows of a batch of register entries. A row is kind, page, item, date, place, text, and then role and name
/// of each mention, 1 to 100; its place may be a reference. There is no header row; empty lines are no rows, and a byte
/// order mark before the first is taken off.
///
/// Refused is the first row that is no entry, whatever number a reference has, with its number from 1, in this order:
/// 90: a field is not UTF-8. 92: there are too few or too many fields, or a role without a name. 90: a field is not of
/// its type. Without a place come 94: the reader failed in this call, by its count; and 1: memory was refused, the
/// reader did not count its error, or there are more rows than numbers of 32 bits.
pub fn read_entries<R: Read + Device>(alloc: Global, input: &mut R) -> Result<BatchRows, Refusal>
    ensures read { IfOk result (ReadsRows (row_bytes (R.remaining input.old))) }
    ensures refused { IfErr result (IsRefused (row_bytes (R.remaining input.old))) }
    ensures failed { IfErr result (λ e. e.kind ≡ refusal.ReadFailed → Rose (R.failed input.old) (R.failed input.new)) }
{
    let before = input.failures();
    match rows_of(alloc, &mut *input) {
        Ok(rows) => Ok(rows),
        Err(why) => Err(blamed(why, has_risen(before, input.failures()))),
    }
}

/// Why rows are no batch: the reader is blamed only where its count of failures has risen.
fn blamed(why: Refusal, risen: bool) -> Refusal
    ensures { ((result ≡ why) × (why.kind ≡ refusal.ReadFailed → IsTrue risen))
        ⊎ ((why.kind ≡ refusal.ReadFailed) × (result ≡ placeless refusal.OutOfMemory)) }
{
    match why.kind {
        RefusalKind::ReadFailed if !risen => Refusal::from(RefusalKind::OutOfMemory),
        _ => why,
    }
}

/// The same over a reader that this call uses up, which is blamed at each error that is not out of memory.
fn rows_of<R: Read + Drop>(alloc: Global, input: R) -> Result<BatchRows, Refusal>
    ensures read { IfOk result (ReadsRows (row_bytes (R.remaining input))) }
    ensures refused { IfErr result (IsRefused (row_bytes (R.remaining input))) }
{
    let mut rows = ReaderBuilder::new()
        .has_headers(false)
        .flexible(true)
        .from_reader(alloc, input);
    let mut read = Vec::new(alloc);
    match add_rows(alloc, &mut rows, &mut read) {
        Ok(()) => Ok(BatchRows::new(read)),
        Err(why) => Err(why),
    }
}

/// Puts all rows into a list without any. At a refusal those before the refused row are in it.
fn add_rows<R: Read>(
    alloc: Global,
    rows: &mut Reader<R>,
    read: &mut Vec<BatchRow>,
) -> Result<(), Refusal>
    requires ready { Ready rows.old }
    requires plain { reader_trim rows.old ≡ trim.None }
    requires config { reader_config rows.old ≡ default_config }
    requires flexible { is_flexible rows.old ≡ true }
    requires start { reader_state rows.old ≡ state.StartRecord }
    requires none { read.old.items ≡ [] }
    ensures read { OnOk result (ReadsRows (source_of R.remaining rows.old) read.new.items) }
    ensures refused { IfErr result (IsRefused (source_of R.remaining rows.old)) }
{
    let mut row = ByteRecord::new(alloc);
    'rows: for number in 0..u32::MAX {
        match rows.read_byte_record(&mut row) {
            Ok(true) => match add_row(alloc, &row, number + 1, read) {
                Ok(()) => {}
                Err(why) => return Err(why),
            },
            Ok(false) => return Ok(()),
            Err(e) => return Err(Refusal::from(reading_failed(e))),
        }
    }
    Err(Refusal::from(RefusalKind::OutOfMemory))
}

/// Puts the row with this number after those that are there.
fn add_row(
    alloc: Global,
    row: &ByteRecord,
    number: u32,
    read: &mut Vec<BatchRow>,
) -> Result<(), Refusal>
    ensures added { OnOk result ((next : SpecRow) × IsRead (fields_of row.now) next
        × (read.new.items ≡ read.old.items ++ next ∷ [])) }
    ensures refused { IfErr result (λ e. (e ≡ placeless refusal.OutOfMemory)
        ⊎ (ReadsRow (in_form (fields_of row.now)) (Err e.kind) × (e.at ≡ Some number))) }
{
    match read_row(alloc, row) {
        Ok(next) => add(next, read),
        Err(kind) => Err(refused_row(kind, number)),
    }
}

/// Puts a row after those that are there. Refused only if out of memory.
fn add(next: BatchRow, read: &mut Vec<BatchRow>) -> Result<(), Refusal>
    ensures added { OnOk result (read.new.items ≡ read.old.items ++ next ∷ []) }
    ensures refused { IfErr result (λ e. e ≡ placeless refusal.OutOfMemory) }
{
    match read.push(next) {
        Ok(()) => Ok(()),
        Err(_) => Err(Refusal::from(RefusalKind::OutOfMemory)),
    }
}

/// The refusal of the row with this number. Want of memory is no fault of a row.
pub(crate) fn refused_row(kind: RefusalKind, number: u32) -> Refusal
    ensures { result ≡ (if is_want kind then placeless refusal.OutOfMemory else record {
      kind = kind;
      at = Some number;
    }) }
{
    match kind {
        RefusalKind::OutOfMemory => Refusal::from(kind),
        _ => Refusal {
            kind,
            at: Some(number),
        },
    }
}

/// A row as it is read: its entry, or the row with the entry of its form where its place is a reference.
fn read_row(alloc: Global, row: &ByteRecord) -> Result<BatchRow, RefusalKind>
    ensures read { IfOk result (IsRead (fields_of row.now)) }
    ensures refused { IfErr result (λ kind. is_want kind ≡ false
        → ReadsRow (in_form (fields_of row.now)) (Err kind)) }
{
    match entry_in_form(alloc, row) {
        Ok(entry) => Ok(row_with(alloc, row, entry)?),
        Err(kind) => Err(kind),
    }
}

/// A row with the entry of its form.
fn row_with(alloc: Global, row: &ByteRecord, entry: EntryRow) -> Result<BatchRow, AllocError>
    requires form { ReadsRow (in_form (fields_of row.now)) (Ok entry) }
    ensures read { IfOk result (IsRead (fields_of row.now)) }
{
    if has_place_reference(row) {
        Ok(BatchRow::Referring(copied(alloc, row)?, entry))
    } else {
        Ok(BatchRow::Entry(entry))
    }
}

/// The entry of a row with the number 1 in place of its reference.
fn entry_in_form(alloc: Global, row: &ByteRecord) -> Result<EntryRow, RefusalKind>
    ensures { Decided result (ReadsRow (in_form (fields_of row.now))) }
{
    if has_place_reference(row) {
        let plain = with_any_place(alloc, row)?;
        entry_of(alloc, &plain)
    } else {
        entry_of(alloc, row)
    }
}

/// The entry of a row without a reference.
pub(crate) fn entry_of(alloc: Global, row: &ByteRecord) -> Result<EntryRow, RefusalKind>
    ensures { Decided result (ReadsRow (fields_of row.now)) }
{
    match text_fields(alloc, row)? {
        Some(fields) => EntryRow::of_row(alloc, fields.as_slice()),
        None => Err(RefusalKind::BadRow),
    }
}

/// What an error of reading rows means: 94, or 1 if it is out of memory.
pub fn reading_failed(error: csv::Error) -> RefusalKind
    ensures { (result ≡ refusal.OutOfMemory) ⊎ (result ≡ refusal.ReadFailed) }
{
    match error.kind() {
        csv::ErrorKind::Io(e) if e.kind() != ErrorKind::OutOfMemory => RefusalKind::ReadFailed,
        _ => RefusalKind::OutOfMemory,
    }
}
