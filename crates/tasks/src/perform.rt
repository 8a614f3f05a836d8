//! A task, performed on an archive that is open.

ghost use Rattle.std.specs.Prelude.{◌≡◌, false, true};
ghost use Rattle.tasks.specs.Ends.{Does, Ends, MustReopen};

use crate::auditing::audit_archive;
use crate::checking::check_table;
use crate::entering::enter_batch;
use crate::expecting::apply_expected;
use crate::faults::FaultStream;
use crate::importing::import_file;
use crate::libraries::show_library;
use crate::plain_exporting::{export_plain, export_public_plain};
use crate::status::{placeless, plain};
use crate::stopping::{conclude, reporting_of, stopped};
use crate::tabling::enter_table;
use crate::task::Task;
use archive_input::{apply, apply_until_refused};
use archive_output::{Shelf, write_archive, write_days, write_public, write_sheet};
use archive_tables::{write_history, write_list, write_shown};
use devices::Device;
use record_text::{RefusalKind, RefusalText};
use sqlite::Alter;
use std::alloc::Global;
use std::io::{Read, Write};
use std::time::Clock;
use store::Archive;

/// Performs a task on an archive that is open, and gives the exit status: 0; or 1, after the line of the refusal on
/// the faults, and that of its hint. Of `Task::Library` also what may be shown. `clock` says when a line of progress
/// is due.
///
/// Results go to `output`. On `faults` stands, before that line, what is wrong with each row of `Task::Apply` that is
/// refused, what `Task::Audit` finds wrong, what a plain export leaves out, and with `progress` how far an import is.
/// Where `Task::ApplyUntilRefused` ends at a row that is refused, the status is 1 after the line of what is wrong with
/// it; and so it is where `Task::ApplyAsExpected` ends so, or before a row that it has named, where `Task::CheckTable`
/// has printed what is wrong with a row, or why the input is no table, and where `Task::EnterTable` has said the first
/// fault of a table.
///
/// 81: a call or a look answered 80 before, and the archive has to be opened again; nothing is read, written or
/// changed. While an import is open, tasks that read serve, and requests are refused with 84. Else refusals are those
/// of the task.
pub fn perform_task<S: Alter, C: Clock, R: Read + Device, W: Write + Device, F: FaultStream>(
    alloc: Global,
    clock: &C,
    archive: &mut Archive<S>,
    task: Task,
    input: &mut R,
    output: &mut W,
    faults: &mut F,
) -> (u8, Option<Shelf>)
    ensures { Ends S.Store R.Read R.Device W.Write W.Device F.Write F.Device task
        (record { archive = archive.old; input = input.old; output = output.old; faults = faults.old })
        (record { archive = archive.new; input = input.new; output = output.new; faults = faults.new })
        result.0 result.1 }
{
    let reporting = reporting_of(&task);
    let mut start = Vec::new(alloc);
    let (outcome, shown) = try_task(
        alloc, clock, archive, task, input, &mut start, output, faults,
    );
    (conclude(alloc, reporting, outcome, &start, faults), shown)
}

/// Tries a task: on an archive that is lost it is refused with 81, and nothing is done. A file that is refused may
/// leave its first bytes in `start`.
fn try_task<S: Alter, C: Clock, R: Read + Device, W: Write + Device, F: FaultStream>(
    alloc: Global,
    clock: &C,
    archive: &mut Archive<S>,
    task: Task,
    input: &mut R,
    start: &mut Vec<u8>,
    output: &mut W,
    faults: &mut F,
) -> (Result<(), RefusalText>, Option<Shelf>)
    ensures does { archive.old.is_lost ≡ false → Does S.Store R.Read R.Device W.Write W.Device F.Write F.Device
        (record { archive = archive.old; input = input.old; output = output.old; faults = faults.old })
        (record { archive = archive.new; input = input.new; output = output.new; faults = faults.new })
        task result.0 result.1 }
    ensures reopen { archive.old.is_lost ≡ true → MustReopen S.Store R.Read R.Device W.Write W.Device F.Write F.Device
        (record { archive = archive.old; input = input.old; output = output.old; faults = faults.old })
        (record { archive = archive.new; input = input.new; output = output.new; faults = faults.new })
        result.0 result.1 }
{
    if archive.is_lost() {
        return (Err(placeless(RefusalKind::Reopen)), None);
    }
    do_task(alloc, clock, archive, task, input, start, output, faults)
}

/// Does a task, and gives its outcome, with what may be shown where that was asked for.
fn do_task<S: Alter, C: Clock, R: Read + Device, W: Write + Device, F: FaultStream>(
    alloc: Global,
    clock: &C,
    archive: &mut Archive<S>,
    task: Task,
    input: &mut R,
    start: &mut Vec<u8>,
    output: &mut W,
    faults: &mut F,
) -> (Result<(), RefusalText>, Option<Shelf>)
    requires kept { archive.old.is_lost ≡ false }
    ensures { Does S.Store R.Read R.Device W.Write W.Device F.Write F.Device
        (record { archive = archive.old; input = input.old; output = output.old; faults = faults.old })
        (record { archive = archive.new; input = input.new; output = output.new; faults = faults.new })
        task result.0 result.1 }
{
    match task {
        Task::Apply => (plain(apply(alloc, archive, input, output, faults)), None),
        Task::ApplyUntilRefused => (
            stopped(apply_until_refused(alloc, archive, input, output, faults)),
            None,
        ),
        Task::ApplyAsExpected { expected, stops } => (
            apply_expected(alloc, archive, expected, stops, input, output, faults),
            None,
        ),
        Task::Entries { token, source } => (
            enter_batch(alloc, archive, token, &source, input, output),
            None,
        ),
        Task::EnterTable {
            token,
            source,
            form,
        } => (
            enter_table(alloc, archive, token, &source, form, input, output, faults),
            None,
        ),
        Task::CheckTable { source, form } => (
            check_table(alloc, archive, &source, form, input, output, faults),
            None,
        ),
        Task::Import { token, progress } => (
            import_file(
                alloc, clock, archive, token, progress, input, start, output, faults,
            ),
            None,
        ),
        Task::Export => (plain(write_archive(alloc, archive, output)), None),
        Task::ExportPublic { today } => (plain(write_public(alloc, archive, today, output)), None),
        Task::ExportPlain => (plain(export_plain(alloc, archive, output, faults)), None),
        Task::ExportPublicPlain { today } => (
            plain(export_public_plain(alloc, archive, today, output, faults)),
            None,
        ),
        Task::Sheet { sheet, today } => (
            plain(write_sheet(alloc, archive, &sheet, today, output)),
            None,
        ),
        Task::Library { today } => show_library(alloc, archive, today),
        Task::Audit => (audit_archive(alloc, archive, output, faults), None),
        Task::Days { first, last, words } => (
            plain(write_days(alloc, archive, first, last, words, output)),
            None,
        ),
        Task::List { source, listing } => (
            plain(write_list(alloc, archive, &source, listing, output)),
            None,
        ),
        Task::Show { numbers } => (plain(write_shown(alloc, archive, &numbers, output)), None),
        Task::History { number } => (plain(write_history(alloc, archive, number, output)), None),
    }
}
