//! All rows of an input.

ghost use Rattle.std.specs.Prelude.{◌≡◌, ◌⊎◌, ◌++◌, ◌∷◌, [], map, true, IfErr, IfOk, OnOk};
ghost use Rattle.csv.specs.Reading.{
  Ready,
  default_config,
  is_flexible,
  reader_config,
  reader_state,
  reader_trim,
  source_of,
};
ghost use Rattle.csv.specs.Records.{fields_of};
ghost use Rattle.csv.specs.declared.parser.State.TheVariants as state;
ghost use Rattle.csv.specs.declared.reader.Trim.TheVariants as trim;
ghost use Rattle.record_text.specs.declared.refusal.RefusalKind.TheVariants as refusal;
ghost use Rattle.request_csv.specs.Input.{AreRows, row_bytes};

use csv::{ByteRecord, Reader, ReaderBuilder};
use record_text::RefusalKind;
use request_csv::reading_failed;
use row_references::copied;
use std::alloc::{AllocError, Global};
use std::io::Read;

/// The rows of an input. 94: the reader failed. 1: memory was refused.
pub(crate) fn rows_of<R: Read + Drop>(
    alloc: Global,
    input: R,
) -> Result<Vec<ByteRecord>, RefusalKind>
    ensures read { IfOk result (λ rows. AreRows (row_bytes (R.remaining input)) (map fields_of rows.items)) }
    ensures refused { IfErr result (λ kind. (kind ≡ refusal.OutOfMemory) ⊎ (kind ≡ refusal.ReadFailed)) }
{
    let mut reader = ReaderBuilder::new()
        .has_headers(false)
        .flexible(true)
        .from_reader(alloc, input);
    let mut rows = Vec::new(alloc);
    match add_rows(alloc, &mut reader, &mut rows) {
        Ok(()) => Ok(rows),
        Err(kind) => Err(kind),
    }
}

/// Puts all rows into a list without any.
fn add_rows<R: Read>(
    alloc: Global,
    reader: &mut Reader<R>,
    rows: &mut Vec<ByteRecord>,
) -> Result<(), RefusalKind>
    requires ready { Ready reader.old }
    requires plain { reader_trim reader.old ≡ trim.None }
    requires config { reader_config reader.old ≡ default_config }
    requires flexible { is_flexible reader.old ≡ true }
    requires start { reader_state reader.old ≡ state.StartRecord }
    requires none { rows.old.items ≡ [] }
    ensures read { OnOk result (AreRows (source_of R.remaining reader.old) (map fields_of rows.new.items)) }
    ensures refused { IfErr result (λ kind. (kind ≡ refusal.OutOfMemory) ⊎ (kind ≡ refusal.ReadFailed)) }
{
    let mut row = ByteRecord::new(alloc);
    'rows: for _ in 0..u64::MAX {
        match reader.read_byte_record(&mut row) {
            Ok(true) => match add(alloc, rows, &row) {
                Ok(()) => {}
                Err(_) => return Err(RefusalKind::OutOfMemory),
            },
            Ok(false) => return Ok(()),
            Err(e) => return Err(reading_failed(e)),
        }
    }
    Err(RefusalKind::OutOfMemory)
}

/// Adds a row after the others.
fn add(alloc: Global, rows: &mut Vec<ByteRecord>, row: &ByteRecord) -> Result<(), AllocError>
    ensures { OnOk result (map fields_of rows.new.items ≡ map fields_of rows.old.items ++ fields_of row.now ∷ []) }
{
    rows.push(copied(alloc, row)?)?;
    Ok(())
}
