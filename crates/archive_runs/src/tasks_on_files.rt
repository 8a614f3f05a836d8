//! A task, performed on the archive in a file.

ghost use Rattle.sqlite_wal.specs.Files.{image_at};
ghost use Rattle.archive_runs.specs.Reporting.{EndsBeside, EndsReportedOnFile};
ghost use Rattle.archive_runs.specs.Tasks.{EndsOnFile};

use crate::hints::refuse_opening;
use archive_files::{Left, LeftFile, Openable, open};
use archive_output::Shelf;
use devices::Device;
use receipts::Token;
use std::io::{Read, Write};
use std::rt::HostRuntime;
use tasks::{FaultStream, Task, import_reported, perform_task};

/// Opens the archive in a file, performs a task on it, and gives the exit status; of `Task::Library` also what may be
/// shown; and what is left of the file.
///
/// 82: there is no file, or it has no archive. 83: a later program made it. 80: the file cannot be opened or is no
/// database, or the database failed. 1: memory was refused. At these nothing is read, and nothing written but the line
/// of the refusal. Else it ends as `tasks::perform_task`.
pub fn perform_on_file<S: Openable, R: Read + Device, W: Write + Device, F: FaultStream>(
    rt: &HostRuntime,
    file: &str,
    start: S,
    task: Task,
    input: &mut R,
    output: &mut W,
    faults: &mut F,
) -> (u8, Option<Shelf>, LeftFile<S>)
    ensures { EndsOnFile R.Read R.Device W.Write W.Device F.Write F.Device (image_at S.Start) task
        (record { input = input.old; output = output.old; faults = faults.old })
        (record { input = input.new; output = output.new; faults = faults.new }) result.0 result.1 result.2 }
{
    match open(rt, file, start) {
        Ok(mut archive) => {
            let (status, shown) = perform_task(
                rt.alloc(),
                rt,
                &mut archive,
                task,
                input,
                output,
                faults,
            );
            (status, shown, Left::Open(archive.into_connection()))
        }
        Err((kind, cause, left)) => (refuse_opening(kind, cause, faults), None, left),
    }
}

/// Opens the archive in a file, and imports the file of the input under a token, after its report was written, as
/// `tasks::import_reported`; where it cannot be opened, as `perform_on_file`. Gives the exit status, whether the report
/// is to be kept, and what is left of the file.
pub fn import_on_file<
    S: Openable,
    R: Read + Device,
    P: Write + Device,
    W: Write + Device,
    F: FaultStream,
>(
    rt: &HostRuntime,
    file: &str,
    start: S,
    token: Token,
    progress: bool,
    input: &mut R,
    report: &mut P,
    output: &mut W,
    faults: &mut F,
) -> (u8, bool, LeftFile<S>)
    ensures reported { EndsReportedOnFile R.Read R.Device W.Write W.Device F.Write F.Device P.Write P.Device
        (image_at S.Start) token progress
        (record { input = input.old; output = output.old; faults = faults.old })
        (record { input = input.new; output = output.new; faults = faults.new }) report.old report.new result.0 result.1
        result.2 }
    ensures beside { EndsBeside R.Read R.Device W.Write W.Device F.Write F.Device (image_at S.Start) token progress
        (record { input = input.old; output = output.old; faults = faults.old })
        (record { input = input.new; output = output.new; faults = faults.new }) result.0 result.2 }
{
    match open(rt, file, start) {
        Ok(mut archive) => {
            let (status, kept) = import_reported(
                rt.alloc(),
                rt,
                &mut archive,
                token,
                progress,
                input,
                report,
                output,
                faults,
            );
            (status, kept, Left::Open(archive.into_connection()))
        }
        Err((kind, cause, left)) => (refuse_opening(kind, cause, faults), false, left),
    }
}
