//! A run of the program: what the words ask for, up to the close of the archive's file, or to a stop before it.

ghost use Rattle.std.specs.Prelude.{◌≡◌, ◌++◌, [], ℕ, List, None, Some, map, string_bytes};
ghost use Rattle.sqlite_wal.specs.Files.{image_at};
ghost use Rattle.sqlite_wal.specs.Recovery.{Image};
ghost use Rattle.archive_files.specs.Closing.{IsClosing};
ghost use Rattle.archive_files.specs.Leaving.{IsNumbered, MayBeLeft};
ghost use Rattle.parish.specs.Runs.{IsRunOf};
ghost use Rattle.archive_runs.specs.Leaving.{IsAsTold};

use crate::command::command;
use crate::visits::Visits;
use archive_files::{ClosedFile, Openable};
use archive_runs::{close_file, say_no_place, stop_file};
use devices::Device;
use std::io::{Read, Write};
use std::rt::HostRuntime;
use tasks::FaultStream;

/// Does what the words ask for, as `command`, and closes the file. It gives the exit status, what is left of the file,
/// and the room that is to be served. If it was refused and the disk is full, that is said last.
///
/// `ended`: nothing is lost of each archive that the file held, by what the run wrote and its status, so that runs
/// follow each other by the law of `archive_runs`. `stopped`: nor where it is stopped after the close, with some of
/// what it wrote seen.
pub fn run<S: Openable, R: Read + Device, W: Write + Device, F: FaultStream>(
    rt: &HostRuntime,
    words: &[String],
    start: S,
    input: &mut R,
    output: &mut W,
    faults: &mut F,
) -> (u8, ClosedFile<S>, Option<Visits>)
    ensures closed { (left : _) × IsClosing left result.1 }
    ensures ended { (bytes written : List ℕ) (after : Image) → R.remaining input.old ≡ Some bytes
        → W.contents output.old ≡ Some [] → W.contents output.new ≡ Some written
        → IsAsTold (image_at S.Start) result.1 → IsNumbered result.1 → MayBeLeft (image_at S.Start) result.1 after
        → IsRunOf (image_at S.Start) bytes written (Some result.0) after (map string_bytes words.now) }
    ensures stopped { (bytes seen unseen : List ℕ) (after : Image) → R.remaining input.old ≡ Some bytes
        → W.contents output.old ≡ Some [] → W.contents output.new ≡ Some (seen ++ unseen)
        → IsAsTold (image_at S.Start) result.1 → IsNumbered result.1 → MayBeLeft (image_at S.Start) result.1 after
        → IsRunOf (image_at S.Start) bytes seen None after (map string_bytes words.now) }
{
    let (status, left, room) = command(rt, words, start, input, output, faults);
    let closed = close_file(left);
    say_no_place(status, &closed, faults);
    (status, closed, room)
}

/// The same up to a stop before the file is closed: with a disk that fails from the stop on, `command` comes to its
/// end, and the connection is given up as it stands. Nothing calls it: it is here for its contract.
pub fn run_to_a_stop<S: Openable, R: Read + Device, W: Write + Device, F: FaultStream>(
    rt: &HostRuntime,
    words: &[String],
    start: S,
    input: &mut R,
    output: &mut W,
    faults: &mut F,
) -> ClosedFile<S>
    ensures stopped { (bytes seen unseen : List ℕ) (after : Image) → R.remaining input.old ≡ Some bytes
        → W.contents output.old ≡ Some [] → W.contents output.new ≡ Some (seen ++ unseen)
        → IsAsTold (image_at S.Start) result → MayBeLeft (image_at S.Start) result after
        → IsRunOf (image_at S.Start) bytes seen None after (map string_bytes words.now) }
{
    let (_, left, _) = command(rt, words, start, input, output, faults);
    stop_file(left)
}
