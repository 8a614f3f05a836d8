//! Why the file of an archive was not opened, made or written, as it is said after the line of 80.

ghost use Rattle.std.specs.Prelude.{◌≡◌, ◌&&◌, ◌==◌, Err, MatchBool};
ghost use Rattle.archive_files.specs.Closing.{found_no_room};
ghost use Rattle.tasks.specs.Faults.{IsReported};
ghost use Rattle.tasks.specs.Hints.{IsCause, no_place};
ghost use Rattle.tasks.specs.Status.{Finishes, as_text, placeless_text};

use archive_files::{Cause, ClosedFile, Openable};
use record_text::RefusalKind;
use tasks::{FaultStream, placeless, refuse, status_of};

/// What is said of a disk that is full.
const NO_PLACE: &str = "  no place on the disk\n";

/// The exit status of a file that was opened or made: 0; or 1, after the line of the refusal, and of 80 what caused it,
/// if that is known.
pub fn status_of_opening<F: FaultStream>(
    outcome: Result<(), RefusalKind>,
    cause: Option<Cause>,
    faults: &mut F,
) -> u8
    ensures { Finishes F.contents F.failed (as_text outcome) result faults.old faults.new }
{
    match outcome {
        Ok(()) => status_of(Ok(()), faults),
        Err(kind) => refuse_opening(kind, cause, faults),
    }
}

/// The same of a refusal.
pub(crate) fn refuse_opening<F: FaultStream>(
    kind: RefusalKind,
    cause: Option<Cause>,
    faults: &mut F,
) -> u8
    ensures { Finishes F.contents F.failed (Err (placeless_text kind)) result faults.old faults.new }
{
    match (kind, cause) {
        (RefusalKind::Storage, Some(cause)) => refuse(
            placeless(kind),
            text_of(cause).as_bytes(),
            faults,
        ),
        _ => status_of(Err(placeless(kind)), faults),
    }
}

/// What is said of a cause.
fn text_of(cause: Cause) -> &'static str
    ensures { IsCause result.now }
{
    match cause {
        Cause::InUse => "  another program has the file open\n",
        Cause::NotFile => "  it is a folder, or something else that is no file\n",
        Cause::NoFolder => "  the folder does not exist\n",
        Cause::NoReading => "  no right to read it\n",
        Cause::NoWriting => "  no right to write it\n",
        Cause::Journal => "  SQLite has left a journal beside it: open it once with sqlite3\n",
        Cause::SecondName => "  it could not be opened: has it a second name (a hard link)?\n",
        Cause::NotDatabase => "  it is no database that parish can read\n",
        Cause::Damaged => "  the database in it is damaged: go back to the last good copy\n",
        Cause::Device => "  it could not be read or written\n",
        Cause::NoMemory => "  run it again with more memory free\n",
        Cause::NoPlace => NO_PLACE,
    }
}

/// Says of a run that was refused if a write to the file of its archive has found no room on the disk.
pub fn say_no_place<S: Openable, F: FaultStream>(status: u8, closed: &ClosedFile<S>, faults: &mut F)
    ensures { MatchBool (status == 1 && found_no_room closed.now)
        (IsReported F.contents F.failed faults.old faults.new no_place) (faults.new ≡ faults.old) }
{
    if status == 1 && closed.found_no_room() {
        faults.report(NO_PLACE.as_bytes());
    }
}
