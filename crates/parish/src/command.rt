//! What a command line does, over any streams, and its exit status.

ghost use Rattle.std.specs.Prelude.{
  ◌≡◌,
  ◌≢◌,
  ◌⊎◌,
  ◌≤◌,
  ℕ,
  List,
  Option,
  codes,
  map,
  string_bytes,
  Err,
  None,
};
ghost use Rattle.std.specs.IoError.{error_kind};
ghost use Rattle.sqlite_wal.specs.Files.{image_at};
ghost use Rattle.sqlite_wal.specs.Recovery.{Image};
ghost use Rattle.command_line.specs.Asking.{HasWords, IsTaken};
ghost use Rattle.archive_files.specs.DatabaseOpening.{IsUntouched};
ghost use Rattle.devices.specs.Devices.{Rose};
ghost use Rattle.record_text.specs.declared.refusal.RefusalKind.TheVariants as refusal;
ghost use Rattle.parish.specs.Doing.{Does, DoesWords, IsWanting, RefusesWords};
ghost use Rattle.parish.specs.Ends.{
  AreOf,
  AreOfEnteredTable,
  AreOfPlainExport,
  AreOfReportedImport,
  AreOfToldImport,
  Shows,
  not_utf8_text,
};
ghost use Rattle.parish.specs.Runs.{IsRunOf};
ghost use Rattle.archive_runs.specs.Leaving.{FindsAfter};
ghost use Rattle.archive_runs.specs.Seeing.{IsSeen, IsSeenAs};
ghost use Rattle.tasks.specs.Faults.{IsReported};
ghost use Rattle.tasks.specs.Status.{Finishes, placeless_text};

use crate::applying::apply;
use crate::archives::{Ended, do_task, enter, enter_table, make, open_room, take_in};
use crate::converting::convert;
use crate::files::{check, check_all, norm};
use crate::laws::what_is_asked_for_loses_nothing;
use crate::lists::{find_task, list_task, review_task};
use crate::tables::table_task;
use crate::visits::sheet_of;
use archive_files::{Left, Openable};
use archive_output::write_text;
use command_line::{Asked, Refused, read_words};
use devices::Device;
use record_text::{RefusalKind, RefusalText};
use sqlite::FileFrom;
use std::io;
use std::io::{ErrorKind, Read, Write};
use std::rt::HostRuntime;
use tasks::{FaultStream, Task, placeless, status_of};

/// The words were refused.
const WORDS_REFUSED: u8 = 2;

/// Does what the words ask for, the program's name first, and gives the exit status, with what is left of the
/// archive's file, and the reading room where one is to be served. Who calls closes the file, and
/// serves the room then.
///
/// Results go to `output`, a refusal goes to `faults` as one line, after which its hint may stand, and so does what is
/// wrong with a row of `apply` that is refused, what `audit` finds wrong, with `--progress` how far an import is, why
/// one with `--report` has none, what `convert` did, what an export with `--plain` leaves out, and how many dates of a
/// table that is entered are only words. Where `faults` fails too, only the status says so. Where the words are
/// refused nothing is read, and nothing written elsewhere: what is not taken is answered on `output` only where it
/// asks for help or for the version. Words that are taken are never refused: what they name is done, with 0, or 1 and
/// a reason. Of each archive that the file held nothing is lost, however much was seen of the output and of the end,
/// as soon as the file is closed, or given up in a stop.
pub fn command<S: Openable, R: Read + Device, W: Write + Device, F: FaultStream>(
    rt: &HostRuntime,
    words: &[String],
    start: S,
    input: &mut R,
    output: &mut W,
    faults: &mut F,
) -> Ended<S>
    ensures status { result.0 ≤ 2 }
    ensures done { result.0 ≡ 0 → ¬ (AreOf (map string_bytes words.now) (codes "apply"))
        → ¬ (AreOf (map string_bytes words.now) (codes "convert"))
        → ¬ (AreOfToldImport (map string_bytes words.now))
        → ¬ (AreOfReportedImport (map string_bytes words.now))
        → ¬ (AreOfPlainExport (map string_bytes words.now))
        → ¬ (AreOfEnteredTable (map string_bytes words.now)) → faults.new ≡ faults.old }
    ensures words { result.0 ≡ 2 → (input.new ≡ input.old) × (output.new ≡ output.old) × IsUntouched result.1
        × (result.2 ≡ None) }
    ensures does { IsTaken (map string_bytes words.now)
        → IsWanting R.Read R.Device W.Write W.Device F.Write F.Device (image_at S.Start) result.0
        (record { input = input.old; output = output.old; faults = faults.old })
        (record { input = input.new; output = output.new; faults = faults.new }) result.1 result.2
        ⊎ DoesWords R.Read R.Device W.Write W.Device F.Write F.Device (image_at S.Start) result.0
        (record { input = input.old; output = output.old; faults = faults.old })
        (record { input = input.new; output = output.new; faults = faults.new }) result.1 result.2
        (map string_bytes words.now) }
    ensures others { ¬ (IsTaken (map string_bytes words.now))
        → RefusesWords R.Read R.Device W.Write W.Device F.Write F.Device (image_at S.Start) result.0
        (record { input = input.old; output = output.old; faults = faults.old })
        (record { input = input.new; output = output.new; faults = faults.new }) result.1 result.2
        (map string_bytes words.now) }
    ensures carries { (bytes seen unseen : List ℕ) (ended : Option ℕ) (after : Image) → IsSeen R.Read W.Write
        (record { input = input.old; output = output.old; faults = faults.old })
        (record { input = input.new; output = output.new; faults = faults.new }) bytes seen unseen
        → IsSeenAs result.0 unseen ended → FindsAfter (image_at S.Start) result.1 after
        → IsRunOf (image_at S.Start) bytes seen ended after (map string_bytes words.now) }
{
    what_is_asked_for_loses_nothing::<S, FileFrom<S>, R, W, F>();
    match read_words(rt.alloc(), words) {
        Ok(asked) => work(rt, asked, start, input, output, faults),
        Err(Refused::Words { text }) => (refuse_words(faults, &text), Left::Untouched(start), None),
        Err(Refused::OutOfMemory) => (
            status_of(Err(placeless(RefusalKind::OutOfMemory)), faults),
            Left::Untouched(start),
            None,
        ),
    }
}

/// Does what was asked for, and gives the exit status, with what is left of the archive's file, and the room that is to
/// be served.
fn work<S: Openable, R: Read + Device, W: Write + Device, F: FaultStream>(
    rt: &HostRuntime,
    asked: Asked<'_>,
    start: S,
    input: &mut R,
    output: &mut W,
    faults: &mut F,
) -> Ended<S>
    requires words { (found : _) × HasWords found asked }
    ensures { Does R.Read R.Device W.Write W.Device F.Write F.Device (image_at S.Start) result.0
        (record { input = input.old; output = output.old; faults = faults.old })
        (record { input = input.new; output = output.new; faults = faults.new }) result.1 result.2 asked.entry }
{
    match asked {
        Asked::Norm => {
            let status = norm(rt.alloc(), input, output, faults);
            (status, Left::Untouched(start), None)
        }
        Asked::Check => {
            let status = check(rt.alloc(), input, output, faults);
            (status, Left::Untouched(start), None)
        }
        Asked::CheckAll => {
            let outcome = check_all(rt.alloc(), input, output);
            (status_of(outcome, faults), Left::Untouched(start), None)
        }
        Asked::Convert { from } => {
            let status = convert(rt.alloc(), from, input, output, faults);
            (status, Left::Untouched(start), None)
        }
        Asked::Init { file, society } => {
            let (status, left) = make(rt, file, society, start, faults);
            (status, left, None)
        }
        Asked::Apply {
            file,
            stops,
            answers,
        } => apply(rt, file, stops, answers, start, input, output, faults),
        Asked::Entries {
            file,
            source,
            token,
        } => enter(rt, file, token, source, start, input, output, faults),
        Asked::EnterTable {
            file,
            source,
            form,
            token,
        } => enter_table(rt, file, token, source, form, start, input, output, faults),
        Asked::CheckTable { file, source, form } => {
            let task = table_task(source, form);
            do_task(rt, file, task, start, input, output, faults)
        }
        Asked::Import {
            file,
            token,
            progress,
            report,
        } => take_in(
            rt, file, token, progress, report, start, input, output, faults,
        ),
        Asked::Export { file } => do_task(rt, file, Task::Export, start, input, output, faults),
        Asked::ExportPublic { file, today } => {
            let task = Task::ExportPublic { today };
            do_task(rt, file, task, start, input, output, faults)
        }
        Asked::ExportPlain { file } => {
            do_task(rt, file, Task::ExportPlain, start, input, output, faults)
        }
        Asked::ExportPublicPlain { file, today } => {
            let task = Task::ExportPublicPlain { today };
            do_task(rt, file, task, start, input, output, faults)
        }
        Asked::Sheet {
            file,
            kind,
            number,
            generations,
            today,
        } => {
            let sheet = sheet_of(kind, number, generations);
            let task = Task::Sheet { sheet, today };
            do_task(rt, file, task, start, input, output, faults)
        }
        Asked::Serve {
            file,
            port,
            count,
            today,
            pages,
        } => open_room(
            rt, file, port, count, today, pages, start, input, output, faults,
        ),
        Asked::Audit { file } => do_task(rt, file, Task::Audit, start, input, output, faults),
        Asked::Days {
            file,
            first,
            last,
            words,
        } => {
            let task = Task::Days { first, last, words };
            do_task(rt, file, task, start, input, output, faults)
        }
        Asked::List {
            file,
            kind,
            source,
            after,
            limit,
            csv,
        } => {
            let task = list_task(rt.alloc(), kind, source, after, limit, csv);
            do_task(rt, file, task, start, input, output, faults)
        }
        Asked::Find {
            file,
            words,
            kind,
            limit,
            csv,
        } => {
            let task = find_task(words, kind, limit, csv);
            do_task(rt, file, task, start, input, output, faults)
        }
        Asked::Show { file, numbers } => {
            let task = Task::Show { numbers };
            do_task(rt, file, task, start, input, output, faults)
        }
        Asked::History { file, number } => {
            let task = Task::History { number };
            do_task(rt, file, task, start, input, output, faults)
        }
        Asked::Review { file, csv } => {
            let task = review_task(csv);
            do_task(rt, file, task, start, input, output, faults)
        }
        Asked::Completions { text } => (
            status_of(show(text, output), faults),
            Left::Untouched(start),
            None,
        ),
        Asked::Text { text } => (
            status_of(show(&text, output), faults),
            Left::Untouched(start),
            None,
        ),
    }
}

/// Prints a text that was asked for. 95: the output failed. 1: memory was refused. Then a prefix of it is printed.
fn show<W: Write + Device>(text: &str, output: &mut W) -> Result<(), RefusalText>
    ensures { Shows text.now (W.contents output.old) (W.contents output.new)
        (Rose (W.failed output.old) (W.failed output.new)) result }
{
    match write_text(text, output) {
        Ok(()) => Ok(()),
        Err(kind) => Err(placeless(kind)),
    }
}

/// Prints why the words were refused. Where `faults` fails, by its count, only the status says so.
fn refuse_words<F: FaultStream>(faults: &mut F, text: &str) -> u8
    ensures status { result ≡ 2 }
    ensures reported { IsReported F.contents F.failed faults.old faults.new text.now }
{
    faults.report(text.as_bytes());
    WORDS_REFUSED
}

/// The exit status of a command line that could not be read, because of a word that is not UTF-8, or out of memory;
/// which of these goes to `faults`, as the text of words that are refused or as the line of a refusal.
pub fn refuse_command_line<F: FaultStream>(error: &io::Error, faults: &mut F) -> u8
    ensures memory { error_kind error.now ≡ ErrorKind.OutOfMemory
        → Finishes F.contents F.failed (Err (placeless_text refusal.OutOfMemory)) result faults.old faults.new }
    ensures words { error_kind error.now ≢ ErrorKind.OutOfMemory
        → (result ≡ 2) × IsReported F.contents F.failed faults.old faults.new not_utf8_text }
{
    if error.kind() == ErrorKind::OutOfMemory {
        status_of(Err(placeless(RefusalKind::OutOfMemory)), faults)
    } else {
        refuse_words(faults, NOT_UTF8)
    }
}

const NOT_UTF8: &str = "\
error: a word of the command line is not UTF-8

For more information, try '--help'.
";
