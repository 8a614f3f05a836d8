//! The close of an archive's file after a run, and a stop before it.

ghost use Rattle.sqlite_wal.specs.Recovery.{Image};
ghost use Rattle.archive_files.specs.Closing.{IsClosing};
ghost use Rattle.archive_files.specs.Leaving.{IsNumbered, MayBeLeft};
ghost use Rattle.archive_runs.specs.Leaving.{FindsAfter, IsAsTold};

use archive_files::laws::{a_close_loses_no_database, a_stop_loses_no_database};
use archive_files::{ClosedFile, LeftFile, Openable};
use sqlite::FileFrom;

/// Closes the file where it is open. Each database that it held is found in what a close, or a stop after it, may
/// leave.
pub fn close_file<S: Openable>(left: LeftFile<S>) -> ClosedFile<S>
    ensures closed { IsClosing left result }
    ensures found { (before after : Image) → IsAsTold before result → IsNumbered result
        → MayBeLeft before result after → FindsAfter before left after }
{
    a_close_loses_no_database::<S, FileFrom<S>>();
    left.close()
}

/// Gives the connection up as it stands, where the file is open: what a stop before the close leaves.
pub fn stop_file<S: Openable>(left: LeftFile<S>) -> ClosedFile<S>
    ensures found { (before after : Image) → IsAsTold before result → MayBeLeft before result after
        → FindsAfter before left after }
{
    a_stop_loses_no_database::<S, FileFrom<S>>();
    left.stop()
}
