//! What is wrong with a row, reported beside its answer.

ghost use Rattle.std.specs.Prelude.{Some};
ghost use Rattle.archive_input.specs.RowByRow.{IsTold};

use csv::ByteRecord;
use devices::{Device, write_bytes};
use record_text::RefusalKind;
use request_csv::fault_line;
use std::alloc::Global;
use std::io::Write;

/// Reports why the row of this number was refused. Where memory is refused, or the writer fails, less is said: nothing
/// else depends on it.
pub fn tell_fault<F: Write + Device>(
    alloc: Global,
    number: u64,
    kind: RefusalKind,
    row: &ByteRecord,
    faults: &mut F,
)
    ensures { IsTold number (Some kind) (F.contents faults.old) (F.contents faults.new) }
{
    let Ok(line) = fault_line(alloc, number, kind, row) else {
        return;
    };
    let before = faults.failures();
    let _ = write_bytes(faults, before, line.as_bytes());
}
