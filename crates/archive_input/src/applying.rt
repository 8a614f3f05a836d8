//! All rows of an input, applied to an archive.

ghost use Rattle.std.specs.Prelude.{◌≡◌, ◌⊎◌, true, Err, IfErr, IfOk, IfSome, IsTrue, None, OnOk, Some};
ghost use Rattle.csv.specs.Reading.{
  Ready,
  default_config,
  is_flexible,
  reader_config,
  reader_state,
  reader_trim,
  source_of,
};
ghost use Rattle.csv.specs.declared.parser.State.TheVariants as state;
ghost use Rattle.csv.specs.declared.reader.Trim.TheVariants as trim;
ghost use Rattle.devices.specs.Devices.{Rose};
ghost use Rattle.record_text.specs.declared.refusal.RefusalKind.TheVariants as refusal;
ghost use Rattle.archive_input.specs.RowByRow.{AppliedInTurn, EndedInTurn};
ghost use Rattle.archive_input.specs.Stopping.{
  AppliedAs,
  AppliedUntilRefused,
  EndedAs,
  EndedUntilRefused,
  row_place,
};
ghost use Rattle.request_csv.specs.Input.{row_bytes};

use crate::serving::serve_row;
use csv::{ByteRecord, Reader, ReaderBuilder};
use devices::{Device, has_risen};
use record_text::{Refusal, RefusalKind};
use request_csv::reading_failed;
use sqlite::Alter;
use std::alloc::Global;
use std::io::{Read, Write};
use store::Archive;

/// Reads rows of requests, performs each on the archive, and writes its answer and flushes it before the next row is
/// decided. Of a row that is refused it tells on `faults` why: `row <n>: <no.> <Name>: <what is wrong>`, with rows
/// counted from 1 as they are read, and the field where one is to blame. Where `faults` fails, less is said there, and
/// nothing else changes: what is done, what is answered and how the call ends.
///
/// A row may name records by `@` and a token: its request is that with the numbers that the archive has for them when
/// the row comes. The rows have no header row and any number of fields; empty lines are no rows, and a byte order mark
/// before the first is taken off. A row that is refused is answered so, and the rows after it are served.
///
/// It ends early with 80: the database failed, and the request in doubt is not answered. 94 and 95: the reader or the
/// writer failed in this call, by its count. 1: no memory was found to read a row or to form its answer, or a device
/// did not count its error. What was written is then a beginning of the answers of the requests done.
pub fn apply<S: Alter, R: Read + Device, W: Write + Device, F: Write + Device>(
    alloc: Global,
    archive: &mut Archive<S>,
    input: &mut R,
    output: &mut W,
    faults: &mut F,
) -> Result<(), RefusalKind>
    ensures applied { OnOk result (AppliedInTurn S.Store W.contents F.contents (row_bytes (R.remaining input.old))
        (record { archive = archive.old; output = output.old; faults = faults.old })
        (record { archive = archive.new; output = output.new; faults = faults.new })) }
    ensures ended { IfErr result (λ kind. EndedInTurn S.Store W.contents F.contents kind
        (row_bytes (R.remaining input.old))
        (record { archive = archive.old; output = output.old; faults = faults.old })
        (record { archive = archive.new; output = output.new; faults = faults.new })) }
    ensures read_failed { result ≡ Err refusal.ReadFailed → Rose (R.failed input.old) (R.failed input.new) }
    ensures write_failed { result ≡ Err refusal.WriteFailed → Rose (W.failed output.old) (W.failed output.new) }
{
    match apply_blaming(alloc, archive, false, input, output, faults) {
        Ok(_) => Ok(()),
        Err(kind) => Err(kind),
    }
}

/// Reads and performs rows as `apply` does, up to the first that is refused: that one is answered, it is reported on
/// `faults` why, and then the call ends and hands back why, with the number of the row. No row is read after it.
/// `None`: no row was refused.
///
/// It ends early as `apply` does.
pub fn apply_until_refused<S: Alter, R: Read + Device, W: Write + Device, F: Write + Device>(
    alloc: Global,
    archive: &mut Archive<S>,
    input: &mut R,
    output: &mut W,
    faults: &mut F,
) -> Result<Option<Refusal>, RefusalKind>
    ensures applied { IfOk result (λ stop. AppliedUntilRefused S.Store W.contents F.contents stop
        (row_bytes (R.remaining input.old))
        (record { archive = archive.old; output = output.old; faults = faults.old })
        (record { archive = archive.new; output = output.new; faults = faults.new })) }
    ensures ended { IfErr result (λ kind. EndedUntilRefused S.Store W.contents F.contents kind
        (row_bytes (R.remaining input.old))
        (record { archive = archive.old; output = output.old; faults = faults.old })
        (record { archive = archive.new; output = output.new; faults = faults.new })) }
    ensures read_failed { result ≡ Err refusal.ReadFailed → Rose (R.failed input.old) (R.failed input.new) }
    ensures write_failed { result ≡ Err refusal.WriteFailed → Rose (W.failed output.old) (W.failed output.new) }
{
    apply_blaming(alloc, archive, true, input, output, faults)
}

/// The same of both: with `stops` up to the first row that is refused.
fn apply_blaming<S: Alter, R: Read + Device, W: Write + Device, F: Write + Device>(
    alloc: Global,
    archive: &mut Archive<S>,
    stops: bool,
    input: &mut R,
    output: &mut W,
    faults: &mut F,
) -> Result<Option<Refusal>, RefusalKind>
    ensures applied { IfOk result (λ stop. AppliedAs S.Store W.contents F.contents stops stop
        (row_bytes (R.remaining input.old))
        (record { archive = archive.old; output = output.old; faults = faults.old })
        (record { archive = archive.new; output = output.new; faults = faults.new })) }
    ensures ended { IfErr result (λ kind. EndedAs S.Store W.contents F.contents stops kind
        (row_bytes (R.remaining input.old))
        (record { archive = archive.old; output = output.old; faults = faults.old })
        (record { archive = archive.new; output = output.new; faults = faults.new })) }
    ensures read_failed { result ≡ Err refusal.ReadFailed → Rose (R.failed input.old) (R.failed input.new) }
    ensures write_failed { result ≡ Err refusal.WriteFailed → Rose (W.failed output.old) (W.failed output.new) }
{
    let reads = input.failures();
    let writes = output.failures();
    match apply_input(alloc, archive, stops, &mut *input, output, faults, writes) {
        Ok(stop) => Ok(stop),
        Err(kind) => Err(blamed(kind, has_risen(reads, input.failures()))),
    }
}

/// Why a call ended early: the reader is blamed only where its count of failures has risen.
pub fn blamed(kind: RefusalKind, risen: bool) -> RefusalKind
    ensures { ((result ≡ kind) × (kind ≡ refusal.ReadFailed → IsTrue risen))
        ⊎ ((kind ≡ refusal.ReadFailed) × (result ≡ refusal.OutOfMemory)) }
{
    match kind {
        RefusalKind::ReadFailed if !risen => RefusalKind::OutOfMemory,
        _ => kind,
    }
}

/// The same over a reader that this call uses up, which is blamed at each error that is not out of memory. `before` is
/// the writer's count of failures at the start of the call that asks.
fn apply_input<S: Alter, R: Read + Drop, W: Write + Device, F: Write + Device>(
    alloc: Global,
    archive: &mut Archive<S>,
    stops: bool,
    input: R,
    output: &mut W,
    faults: &mut F,
    before: u64,
) -> Result<Option<Refusal>, RefusalKind>
    ensures applied { IfOk result (λ stop. AppliedAs S.Store W.contents F.contents stops stop
        (row_bytes (R.remaining input))
        (record { archive = archive.old; output = output.old; faults = faults.old })
        (record { archive = archive.new; output = output.new; faults = faults.new })) }
    ensures ended { IfErr result (λ kind. EndedAs S.Store W.contents F.contents stops kind
        (row_bytes (R.remaining input))
        (record { archive = archive.old; output = output.old; faults = faults.old })
        (record { archive = archive.new; output = output.new; faults = faults.new })) }
    ensures write_failed { result ≡ Err refusal.WriteFailed → Rose before (W.failed output.new) }
{
    let mut rows = ReaderBuilder::new()
        .has_headers(false)
        .flexible(true)
        .from_reader(alloc, input);
    apply_rows(alloc, archive, stops, &mut rows, output, faults, before)
}

/// The same over the rows of a reader that is set up for them.
fn apply_rows<S: Alter, R: Read, W: Write + Device, F: Write + Device>(
    alloc: Global,
    archive: &mut Archive<S>,
    stops: bool,
    rows: &mut Reader<R>,
    output: &mut W,
    faults: &mut F,
    before: u64,
) -> Result<Option<Refusal>, RefusalKind>
    requires ready { Ready rows.old }
    requires plain { reader_trim rows.old ≡ trim.None }
    requires config { reader_config rows.old ≡ default_config }
    requires flexible { is_flexible rows.old ≡ true }
    requires start { reader_state rows.old ≡ state.StartRecord }
    ensures applied { IfOk result (λ stop. AppliedAs S.Store W.contents F.contents stops stop
        (source_of R.remaining rows.old)
        (record { archive = archive.old; output = output.old; faults = faults.old })
        (record { archive = archive.new; output = output.new; faults = faults.new })) }
    ensures ended { IfErr result (λ kind. EndedAs S.Store W.contents F.contents stops kind
        (source_of R.remaining rows.old)
        (record { archive = archive.old; output = output.old; faults = faults.old })
        (record { archive = archive.new; output = output.new; faults = faults.new })) }
    ensures write_failed { result ≡ Err refusal.WriteFailed → Rose before (W.failed output.new) }
{
    let mut row = ByteRecord::new(alloc);
    'rows: for number in 0..u64::MAX {
        match rows.read_byte_record(&mut row) {
            Ok(true) => match serve_row(alloc, archive, &row, number + 1, output, faults, before) {
                Ok(refused) => match stop_at(stops, refused, number + 1) {
                    None => {}
                    Some(stop) => return Ok(Some(stop)),
                },
                Err(kind) => return Err(kind),
            },
            Ok(false) => return Ok(None),
            Err(e) => return Err(reading_failed(e)),
        }
    }
    Err(RefusalKind::OutOfMemory)
}

/// Where a call stops after a row of this number, which was refused so, where `stops` is that it ends at the first that
/// is. `None`: it goes on.
pub fn stop_at(stops: bool, refused: Option<RefusalKind>, number: u64) -> Option<Refusal>
    ensures goes_on { result ≡ None → stops ≡ true → refused ≡ None }
    ensures stops { IfSome result (λ e. (stops ≡ true) × (refused ≡ Some e.kind) × (e.at ≡ Some (row_place number))) }
{
    match refused {
        Some(kind) => {
            if stops {
                let at = Some(row_place(number));
                Some(Refusal { kind, at })
            } else {
                None
            }
        }
        None => None,
    }
}

/// The number of a row as a refusal has it: the greatest of 32 bits where it is above that.
pub fn row_place(number: u64) -> u32
    ensures { result ≡ row_place number }
{
    if number <= 4_294_967_295 {
        number as u32
    } else {
        4_294_967_295
    }
}
