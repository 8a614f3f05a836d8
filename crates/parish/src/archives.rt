//! The commands on the archive in a file.

ghost use Rattle.std.specs.Prelude.{◌≡◌, ◌⊎◌, IfErr, IfOk, Option, is_some};
ghost use Rattle.sqlite_wal.specs.Files.{image_at};
ghost use Rattle.archive_state.specs.Content.{Content};
ghost use Rattle.archive_runs.specs.Tasks.{EndsOnFile};
ghost use Rattle.parish.specs.Doing.{DoesImport, DoesTask, DoesUnder, Makes};
ghost use Rattle.parish.specs.Rooms.{IsRoomOf};
ghost use Rattle.parish.specs.Tables.{entering_task};
ghost use Rattle.receipts.specs.Tokens.{IsToken};
ghost use Rattle.record_text.specs.declared.refusal.RefusalKind.TheVariants.{BadToken, OutOfMemory};
ghost use Rattle.tasks.specs.Status.{Finishes, Outcome};
ghost use Rattle.tasks.specs.declared.task.Task.TheVariants as task;

use crate::reporting::take_in_reported;
use crate::tables::entering_task;
use crate::visits::{Visits, room_of};
use archive_files::{Left, LeftFile, Openable, init};
use archive_runs::{perform_on_file, status_of_opening};
use command_line::{RoomPages, TableWords};
use devices::Device;
use receipts::Token;
use record_text::RefusalKind;
use row_references::NumberWord;
use std::alloc::Global;
use std::io::{Read, Write};
use std::rt::HostRuntime;
use tasks::{FaultStream, Task, placeless, status_of};

/// What a command ends with: the exit status, what is left of the archive's file, and the room that is to be served.
pub(crate) type Ended<S> = (u8, LeftFile<S>, Option<Visits>);

/// `init`: makes the archive of a society in a file.
pub(crate) fn make<S: Openable, F: FaultStream>(
    rt: &HostRuntime,
    file: &str,
    society: &str,
    start: S,
    faults: &mut F,
) -> (u8, LeftFile<S>)
    ensures { (outcome : Outcome) × Makes (image_at S.Start) result.1 society.now outcome
        × Finishes F.contents F.failed outcome result.0 faults.old faults.new }
{
    let (outcome, cause, left) = init(rt, file, society, start);
    (status_of_opening(outcome, cause, faults), left)
}

/// Performs a task on the archive in a file.
pub(crate) fn do_task<S: Openable, R: Read + Device, W: Write + Device, F: FaultStream>(
    rt: &HostRuntime,
    file: &str,
    task: Task,
    start: S,
    input: &mut R,
    output: &mut W,
    faults: &mut F,
) -> Ended<S>
    ensures { DoesTask R.Read R.Device W.Write W.Device F.Write F.Device (image_at S.Start) result.0
        (record { input = input.old; output = output.old; faults = faults.old })
        (record { input = input.new; output = output.new; faults = faults.new }) result.1 result.2 task }
{
    let (status, _shown, left) = perform_on_file(rt, file, start, task, input, output, faults);
    (status, left, None)
}

/// `entries`: enters the rows of the input as a batch, under a token. 93: the word is no token; no file is opened.
pub(crate) fn enter<S: Openable, R: Read + Device, W: Write + Device, F: FaultStream>(
    rt: &HostRuntime,
    file: &str,
    token: &str,
    source: NumberWord,
    start: S,
    input: &mut R,
    output: &mut W,
    faults: &mut F,
) -> Ended<S>
    ensures { DoesUnder R.Read R.Device W.Write W.Device F.Write F.Device (image_at S.Start) result.0
        (record { input = input.old; output = output.old; faults = faults.old })
        (record { input = input.new; output = output.new; faults = faults.new }) result.1 result.2 token.now
        (task.Entries token.now source) }
{
    match token_given(rt.alloc(), token) {
        Ok(token) => do_task(
            rt,
            file,
            Task::Entries { token, source },
            start,
            input,
            output,
            faults,
        ),
        Err(kind) => (
            status_of(Err(placeless(kind)), faults),
            Left::Untouched(start),
            None,
        ),
    }
}

/// `entries --table`: enters the table of the input, under a token. 93: the word is no token; no file is opened.
pub(crate) fn enter_table<S: Openable, R: Read + Device, W: Write + Device, F: FaultStream>(
    rt: &HostRuntime,
    file: &str,
    token: &str,
    source: NumberWord,
    words: TableWords,
    start: S,
    input: &mut R,
    output: &mut W,
    faults: &mut F,
) -> Ended<S>
    ensures { DoesUnder R.Read R.Device W.Write W.Device F.Write F.Device (image_at S.Start) result.0
        (record { input = input.old; output = output.old; faults = faults.old })
        (record { input = input.new; output = output.new; faults = faults.new }) result.1 result.2 token.now
        (entering_task token.now source words) }
{
    match token_given(rt.alloc(), token) {
        Ok(token) => {
            let task = entering_task(token, source, words);
            do_task(rt, file, task, start, input, output, faults)
        }
        Err(kind) => (
            status_of(Err(placeless(kind)), faults),
            Left::Untouched(start),
            None,
        ),
    }
}

/// `import`: takes in the file of the input, under a token, after a report if one is asked for. 93: the word is no
/// token; no file is opened or made.
pub(crate) fn take_in<S: Openable, R: Read + Device, W: Write + Device, F: FaultStream>(
    rt: &HostRuntime,
    file: &str,
    token: &str,
    progress: bool,
    report: Option<&str>,
    start: S,
    input: &mut R,
    output: &mut W,
    faults: &mut F,
) -> Ended<S>
    ensures { DoesImport R.Read R.Device W.Write W.Device F.Write F.Device (image_at S.Start) result.0
        (record { input = input.old; output = output.old; faults = faults.old })
        (record { input = input.new; output = output.new; faults = faults.new }) result.1 result.2
        (is_some report.entry) token.now progress }
{
    match token_given(rt.alloc(), token) {
        Ok(token) => match report {
            None => {
                let task = Task::Import { token, progress };
                do_task(rt, file, task, start, input, output, faults)
            }
            Some(path) => take_in_reported(
                rt, file, token, progress, path, start, input, output, faults,
            ),
        },
        Err(kind) => (
            status_of(Err(placeless(kind)), faults),
            Left::Untouched(start),
            None,
        ),
    }
}

/// The word as a token, in memory of its own. 93: it is none. 1: memory was refused.
fn token_given(alloc: Global, word: &str) -> Result<Token, RefusalKind>
    ensures given { IfOk result (λ token. (token ≡ word.now) × IsToken word.now) }
    ensures refused { IfErr result (λ kind. (kind ≡ OutOfMemory) ⊎ ((kind ≡ BadToken) × ¬ (IsToken word.now))) }
{
    match Token::try_new(String::from_str(alloc, word)?) {
        Some(token) => {
            // From this the proof knows that it is a token.
            let _word = token.as_str();
            Ok(token)
        }
        None => Err(RefusalKind::BadToken),
    }
}

/// `serve`: the room that is to be served, with what may be shown of the archive in a file on a day, in pages of that
/// kind.
pub(crate) fn open_room<S: Openable, R: Read + Device, W: Write + Device, F: FaultStream>(
    rt: &HostRuntime,
    file: &str,
    port: u16,
    count: u32,
    today: i32,
    pages: RoomPages,
    start: S,
    input: &mut R,
    output: &mut W,
    faults: &mut F,
) -> Ended<S>
    ensures { (shown : Option Content) × EndsOnFile R.Read R.Device W.Write W.Device F.Write F.Device (image_at S.Start)
        (task.Library today)
        (record { input = input.old; output = output.old; faults = faults.old })
        (record { input = input.new; output = output.new; faults = faults.new }) result.0 shown result.1
        × IsRoomOf port count pages shown result.2 }
{
    let task = Task::Library { today };
    let (status, shown, left) = perform_on_file(rt, file, start, task, input, output, faults);
    (status, left, room_of(shown, pages, port, count))
}
