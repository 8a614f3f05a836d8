//! All rows of an input, as long as each is answered as is expected.

ghost use Rattle.std.specs.Prelude.{◌≡◌, true, Err, IfErr, IfOk};
ghost use Rattle.csv.specs.Reading.{
  Ready,
  default_config,
  is_flexible,
  reader_config,
  reader_state,
  reader_trim,
  source_of,
};
ghost use Rattle.csv.specs.declared.parser.State.TheVariants as state;
ghost use Rattle.csv.specs.declared.reader.Trim.TheVariants as trim;
ghost use Rattle.devices.specs.Devices.{Rose};
ghost use Rattle.expected_answers.specs.Expected.{left};
ghost use Rattle.record_text.specs.declared.refusal.RefusalKind.TheVariants as refusal;
ghost use Rattle.request_csv.specs.Input.{row_bytes};
ghost use Rattle.expected_rows.specs.Expecting.{AppliedAsExpected, EndedAsExpected};

use crate::meeting::{Met, meet_row};
use archive_input::{blamed, row_place, stop_at};
use csv::{ByteRecord, Reader, ReaderBuilder};
use devices::{Device, has_risen};
use expected_answers::Expected;
use record_text::{Refusal, RefusalKind};
use request_csv::reading_failed;
use sqlite::Alter;
use std::alloc::Global;
use std::io::{Read, Write};
use store::Archive;

/// How rows ended whose answers are expected.
#[derive(Clone, Copy, Debug)]
pub enum Ending {
    /// All were served.
    All,
    /// After a row that was refused.
    Refused(Refusal),
    /// Before the row of this number, which would be answered otherwise than is expected.
    Unexpected(u32),
}

/// Reads and performs rows as `apply` of `archive_input` does, as long as each is answered as is expected: the k-th row
/// of a token as the k-th of these answers that has it, field for field. Of a token that they have not, or not so
/// often, nothing is expected. The first row that would be answered otherwise is not done and not answered, and the
/// call hands its number back. With `stops` the call ends after the first row that is refused, as
/// `apply_until_refused`.
///
/// It ends early as `apply` does; 1 also where memory was refused to find out what a row would be answered. A row in
/// which it ends is done only if its answer is as is expected.
pub fn apply_as_expected<S: Alter, R: Read + Device, W: Write + Device, F: Write + Device>(
    alloc: Global,
    archive: &mut Archive<S>,
    expected: Expected,
    stops: bool,
    input: &mut R,
    output: &mut W,
    faults: &mut F,
) -> Result<Ending, RefusalKind>
    ensures applied { IfOk result (λ ending. AppliedAsExpected S.Store W.contents F.contents stops (left expected)
        ending (row_bytes (R.remaining input.old))
        (record { archive = archive.old; output = output.old; faults = faults.old })
        (record { archive = archive.new; output = output.new; faults = faults.new })) }
    ensures ended { IfErr result (λ kind. EndedAsExpected S.Store W.contents F.contents stops (left expected) kind
        (row_bytes (R.remaining input.old))
        (record { archive = archive.old; output = output.old; faults = faults.old })
        (record { archive = archive.new; output = output.new; faults = faults.new })) }
    ensures read_failed { result ≡ Err refusal.ReadFailed → Rose (R.failed input.old) (R.failed input.new) }
    ensures write_failed { result ≡ Err refusal.WriteFailed → Rose (W.failed output.old) (W.failed output.new) }
{
    let reads = input.failures();
    let writes = output.failures();
    match expected_input(
        alloc,
        archive,
        expected,
        stops,
        &mut *input,
        output,
        faults,
        writes,
    ) {
        Ok(ending) => Ok(ending),
        Err(kind) => Err(blamed(kind, has_risen(reads, input.failures()))),
    }
}

/// The same over a reader that this call uses up, which is blamed at each error that is not out of memory. `before` is
/// the writer's count of failures at the start of the call that asks.
fn expected_input<S: Alter, R: Read + Drop, W: Write + Device, F: Write + Device>(
    alloc: Global,
    archive: &mut Archive<S>,
    expected: Expected,
    stops: bool,
    input: R,
    output: &mut W,
    faults: &mut F,
    before: u64,
) -> Result<Ending, RefusalKind>
    ensures applied { IfOk result (λ ending. AppliedAsExpected S.Store W.contents F.contents stops (left expected)
        ending (row_bytes (R.remaining input))
        (record { archive = archive.old; output = output.old; faults = faults.old })
        (record { archive = archive.new; output = output.new; faults = faults.new })) }
    ensures ended { IfErr result (λ kind. EndedAsExpected S.Store W.contents F.contents stops (left expected) kind
        (row_bytes (R.remaining input))
        (record { archive = archive.old; output = output.old; faults = faults.old })
        (record { archive = archive.new; output = output.new; faults = faults.new })) }
    ensures write_failed { result ≡ Err refusal.WriteFailed → Rose before (W.failed output.new) }
{
    let mut rows = ReaderBuilder::new()
        .has_headers(false)
        .flexible(true)
        .from_reader(alloc, input);
    expected_rows(
        alloc, archive, expected, stops, &mut rows, output, faults, before,
    )
}

/// The same over the rows of a reader that is set up for them.
fn expected_rows<S: Alter, R: Read, W: Write + Device, F: Write + Device>(
    alloc: Global,
    archive: &mut Archive<S>,
    expected: Expected,
    stops: bool,
    rows: &mut Reader<R>,
    output: &mut W,
    faults: &mut F,
    before: u64,
) -> Result<Ending, RefusalKind>
    requires ready { Ready rows.old }
    requires plain { reader_trim rows.old ≡ trim.None }
    requires config { reader_config rows.old ≡ default_config }
    requires flexible { is_flexible rows.old ≡ true }
    requires start { reader_state rows.old ≡ state.StartRecord }
    ensures applied { IfOk result (λ ending. AppliedAsExpected S.Store W.contents F.contents stops (left expected)
        ending (source_of R.remaining rows.old)
        (record { archive = archive.old; output = output.old; faults = faults.old })
        (record { archive = archive.new; output = output.new; faults = faults.new })) }
    ensures ended { IfErr result (λ kind. EndedAsExpected S.Store W.contents F.contents stops (left expected) kind
        (source_of R.remaining rows.old)
        (record { archive = archive.old; output = output.old; faults = faults.old })
        (record { archive = archive.new; output = output.new; faults = faults.new })) }
    ensures write_failed { result ≡ Err refusal.WriteFailed → Rose before (W.failed output.new) }
{
    let mut still = expected;
    let mut row = ByteRecord::new(alloc);
    'rows: for number in 0..u64::MAX {
        match rows.read_byte_record(&mut row) {
            Ok(true) => match meet_row(
                alloc,
                archive,
                &mut still,
                &row,
                number + 1,
                output,
                faults,
                before,
            ) {
                Ok(Met::Served(refused)) => match stop_at(stops, refused, number + 1) {
                    None => {}
                    Some(stop) => return Ok(Ending::Refused(stop)),
                },
                Ok(Met::Unexpected) => return Ok(Ending::Unexpected(row_place(number + 1))),
                Err(kind) => return Err(kind),
            },
            Ok(false) => return Ok(Ending::All),
            Err(e) => return Err(reading_failed(e)),
        }
    }
    Err(RefusalKind::OutOfMemory)
}
