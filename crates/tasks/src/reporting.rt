//! A GEDCOM file imported into an archive, after a report of it was written.

ghost use Rattle.std.specs.Prelude.{◌≡◌, Err, false, true};
ghost use Rattle.tasks.specs.Reporting.{EndsReported, SaysDoneBefore, is_kept, may_be_done};
ghost use Rattle.tasks.specs.Status.{Finishes};

use crate::faults::FaultStream;
use crate::hints::status_of_file;
use crate::importing::import_read;
use crate::status::{placeless, status_of};
use archive_input::read_file;
use devices::Device;
use import_reports::write_report;
use receipts::Token;
use record_text::{RefusalKind, RefusalText, Unit};
use sqlite::Alter;
use std::alloc::Global;
use std::io::{Read, Write};
use std::time::Clock;
use store::Archive;

/// What is said where an import has no report.
const DONE_BEFORE: &str = "  the import was done before: its report was made then\n";

/// Imports the file of the input under a token, as `Task::Import`, and writes its report first, which is flushed before
/// the import is done. Gives the exit status, and whether the report is to be kept: it is whole, and the import was
/// done, or may have been.
///
/// There is none where the token has an answer, of which the faults get a line after an import that is done; and none
/// where the file or the archive refuses the import. 95, and nothing is imported: the report could not be written. At 1
/// and 80 nobody knows whether the import was done, and a report that is whole is kept.
pub fn import_reported<
    S: Alter,
    C: Clock,
    R: Read + Device,
    P: Write + Device,
    W: Write + Device,
    F: FaultStream,
>(
    alloc: Global,
    clock: &C,
    archive: &mut Archive<S>,
    token: Token,
    progress: bool,
    input: &mut R,
    report: &mut P,
    output: &mut W,
    faults: &mut F,
) -> (u8, bool)
    ensures { EndsReported S.Store R.Read R.Device W.Write W.Device F.Write F.Device P.Write P.Device token progress
        (record { archive = archive.old; input = input.old; output = output.old; faults = faults.old })
        report.old report.new
        (record { archive = archive.new; input = input.new; output = output.new; faults = faults.new })
        result.0 result.1 }
{
    if archive.is_lost() {
        return (refused(placeless(RefusalKind::Reopen), faults), false);
    }
    let mut start = Vec::new(alloc);
    match read_file(alloc, input, &mut start) {
        Err(why) => {
            let outcome = Err(why.text(Unit::Line));
            (status_of_file(alloc, outcome, &start, faults), false)
        }
        Ok(forest) => match write_report(alloc, archive, &token, &forest, report) {
            Ok(is_whole) => {
                let outcome = import_read(
                    alloc, clock, archive, token, progress, forest, output, faults,
                );
                let kept = is_kept(is_whole, outcome);
                let status = status_of(outcome, faults);
                say_unless(is_whole, status, faults);
                (status, kept)
            }
            Err(kind) => (refused(placeless(kind), faults), false),
        },
    }
}

/// The status of what was refused, after its line.
fn refused<F: FaultStream>(why: RefusalText, faults: &mut F) -> u8
    ensures { Finishes F.contents F.failed (Err why) result faults.old faults.new }
{
    status_of(Err(why), faults)
}

/// Whether the report of an import is to be kept.
fn is_kept(is_whole: bool, outcome: Result<(), RefusalText>) -> bool
    ensures { result ≡ is_kept is_whole outcome }
{
    is_whole && may_be_done(outcome)
}

/// Whether an import was done, or may have been: not where it was refused with something else than 1, 80 and 95.
fn may_be_done(outcome: Result<(), RefusalText>) -> bool
    ensures { result ≡ may_be_done outcome }
{
    match outcome {
        Ok(()) => true,
        Err(text) => matches!(
            text.refusal.kind,
            RefusalKind::OutOfMemory | RefusalKind::Storage | RefusalKind::WriteFailed
        ),
    }
}

/// Says of an import that is done why it has no report, unless it has one.
fn say_unless<F: FaultStream>(is_whole: bool, status: u8, faults: &mut F)
    ensures whole { is_whole ≡ true → faults.new ≡ faults.old }
    ensures none { is_whole ≡ false → SaysDoneBefore F.contents F.failed status faults.old faults.new }
{
    if !is_whole && status == 0 {
        faults.report(DONE_BEFORE.as_bytes());
    }
}
