//! Rows of requests, which may have to be answered as a file of answers has it.

ghost use Rattle.std.specs.Prelude.{◌≡◌, ◌⊎◌, IfErr, is_some, true};
ghost use Rattle.sqlite_wal.specs.Files.{image_at};
ghost use Rattle.parish.specs.Doing.{DoesRows};
ghost use Rattle.parish.specs.Rows.{apply_task};
ghost use Rattle.record_text.specs.declared.refusal.RefusalKind.TheVariants.{OutOfMemory, ReadFailed};

use crate::archives::{Ended, do_task};
use archive_files::{Left, Openable};
use devices::{Counted, Device};
use expected_answers::Expected;
use record_text::RefusalKind;
use std::fs::File;
use std::io::{Read, Write};
use std::rt::HostRuntime;
use tasks::{FaultStream, Task, placeless, status_of};

/// `apply`: does the rows of the input; with `stops` up to the first that is refused, and as long as each is answered
/// as in the file `answers`, where one is given. That is read before. 94: it cannot be read; nothing is opened then,
/// and nothing read.
pub(crate) fn apply<S: Openable, R: Read + Device, W: Write + Device, F: FaultStream>(
    rt: &HostRuntime,
    file: &str,
    stops: bool,
    answers: Option<&str>,
    start: S,
    input: &mut R,
    output: &mut W,
    faults: &mut F,
) -> Ended<S>
    ensures { DoesRows R.Read R.Device W.Write W.Device F.Write F.Device (image_at S.Start) result.0
        (record { input = input.old; output = output.old; faults = faults.old })
        (record { input = input.new; output = output.new; faults = faults.new }) result.1 result.2
        (is_some answers.entry) stops }
{
    match answers {
        None => {
            let task = apply_task(stops);
            do_task(rt, file, task, start, input, output, faults)
        }
        Some(path) => apply_expected(rt, file, stops, path, start, input, output, faults),
    }
}

/// The same as long as each row is answered as in a file.
fn apply_expected<S: Openable, R: Read + Device, W: Write + Device, F: FaultStream>(
    rt: &HostRuntime,
    file: &str,
    stops: bool,
    path: &str,
    start: S,
    input: &mut R,
    output: &mut W,
    faults: &mut F,
) -> Ended<S>
    ensures { DoesRows R.Read R.Device W.Write W.Device F.Write F.Device (image_at S.Start) result.0
        (record { input = input.old; output = output.old; faults = faults.old })
        (record { input = input.new; output = output.new; faults = faults.new }) result.1 result.2 true stops }
{
    match answers_of(rt, path) {
        Ok(expected) => {
            let task = Task::ApplyAsExpected { expected, stops };
            do_task(rt, file, task, start, input, output, faults)
        }
        Err(kind) => (
            status_of(Err(placeless(kind)), faults),
            Left::Untouched(start),
            None,
        ),
    }
}

/// The rows of the input; with `stops` up to the first that is refused.
fn apply_task(stops: bool) -> Task
    ensures { result ≡ apply_task stops }
{
    if stops {
        Task::ApplyUntilRefused
    } else {
        Task::Apply
    }
}

/// The answers of a file. 94: it cannot be opened or read. 1: memory was refused.
fn answers_of(rt: &HostRuntime, path: &str) -> Result<Expected, RefusalKind>
    ensures { IfErr result (λ kind. (kind ≡ OutOfMemory) ⊎ (kind ≡ ReadFailed)) }
{
    match File::open(rt, path) {
        Ok(opened) => {
            let mut input = Counted::new(opened);
            Expected::read(rt.alloc(), &mut input)
        }
        Err(_) => Err(RefusalKind::ReadFailed),
    }
}
