//! An import whose report goes into a new file, before it is done.

ghost use Rattle.std.specs.Prelude.{◌≡◌, ◌⊎◌};
ghost use Rattle.sqlite_wal.specs.Files.{image_at};
ghost use Rattle.parish.specs.Reporting.{ImportsReported, IsUnmade, there_hint, unmade_hint};

use crate::archives::Ended;
use archive_files::{Left, Openable};
use archive_runs::import_on_file;
use devices::{Counted, Device};
use receipts::Token;
use record_text::RefusalKind;
use std::fs::{File, remove_file};
use std::io;
use std::io::{ErrorKind, Read, Write};
use std::rt::HostRuntime;
use tasks::{FaultStream, placeless, refuse};

/// What is said of a file that is there.
const THERE: &str = "  the file of the report is there already: name another\n";

/// What is said of a file that cannot be made.
const UNMADE: &str = "  the file of the report cannot be made\n";

/// What the name of a log ends with, after the name of the file of its archive.
const LOG_ENDING: &str = "-wal";

/// A file whose flush waits until the disk has all that was written.
#[derive(Drop)]
struct SyncedFile {
    file: File,
}

impl Write for SyncedFile {
    fn write(&mut self, buf: &[u8]) -> io::Result<usize> {
        self.file.write(buf)
    }

    fn flush(&mut self) -> io::Result<()> {
        self.file.sync_all()
    }
}

/// Makes the file of the report, which overwrites none, and imports the file of the input under a token after the
/// report. A report that is not to be kept is removed. 80: the file cannot be made; nothing is opened or read then.
pub(crate) fn take_in_reported<S: Openable, R: Read + Device, W: Write + Device, F: FaultStream>(
    rt: &HostRuntime,
    file: &str,
    token: Token,
    progress: bool,
    path: &str,
    start: S,
    input: &mut R,
    output: &mut W,
    faults: &mut F,
) -> Ended<S>
    ensures { ImportsReported R.Read R.Device W.Write W.Device F.Write F.Device (image_at S.Start) result.0
        (record { input = input.old; output = output.old; faults = faults.old })
        (record { input = input.new; output = output.new; faults = faults.new }) result.1 result.2 token progress }
{
    match make_file(rt, path) {
        Ok(made) => {
            let mut report = Counted::new(SyncedFile { file: made });
            let (status, kept, left) = import_on_file(
                rt,
                file,
                start,
                token,
                progress,
                input,
                &mut report,
                output,
                faults,
            );
            drop(report);
            remove_unless(rt, kept, path);
            (status, left, None)
        }
        Err(error) => (cannot_make(&error, faults), Left::Untouched(start), None),
    }
}

/// Makes a new file. Its name may not be that of a log, which the database would take for changes of the archive beside
/// it.
fn make_file(rt: &HostRuntime, path: &str) -> io::Result<File> {
    if path.ends_with(LOG_ENDING) {
        return Err(ErrorKind::InvalidInput.into());
    }
    File::create_new(rt, path)
}

/// Removes a report unless it is to be kept. A file that cannot be removed stays.
fn remove_unless(rt: &HostRuntime, kept: bool, path: &str) {
    if !kept {
        let _removed = remove_file(rt, path);
    }
}

/// The exit status where the file of the report is not made, after the line of the refusal and why.
fn cannot_make<F: FaultStream>(error: &io::Error, faults: &mut F) -> u8
    ensures { IsUnmade F.contents F.failed result faults.old faults.new }
{
    refuse(
        placeless(RefusalKind::Storage),
        hint_of(error).as_bytes(),
        faults,
    )
}

/// Why a file cannot be made.
fn hint_of(error: &io::Error) -> &'static str
    ensures { (result.now ≡ there_hint) ⊎ (result.now ≡ unmade_hint) }
{
    match error.kind() {
        ErrorKind::AlreadyExists => THERE,
        _ => UNMADE,
    }
}
