//! What is found of the archive in a file after what was asked for.

ghost use Rattle.std.specs.Prelude.{◌≡◌, ◌≢◌, ℕ, List, Option};
ghost use Rattle.sqlite_wal.specs.Recovery.{Image};
ghost use Rattle.command_line.specs.Asking.{IsTaken};
ghost use Rattle.command_line.specs.declared.tasks.Asked.{Asked};
ghost use Rattle.archive_files.specs.DatabaseOpening.{IsUntouched};
ghost use Rattle.archive_files.specs.declared.left.Left.{Left};
ghost use Rattle.parish.specs.Doing.{Does};
ghost use Rattle.parish.specs.Runs.{IsRun, IsRunOf};
ghost use Rattle.parish.specs.declared.visits.Visits.{Visits};
ghost use Rattle.archive_runs.specs.Leaving.{FindsAfter};
ghost use Rattle.archive_runs.specs.Seeing.{IsSeen, IsSeenAs};
ghost use Rattle.tasks.specs.Moments.{Streams};

use archive_runs::laws::{a_run_without_a_task_loses_nothing, a_task_on_a_file_loses_nothing};
use devices::Device;
use sqlite_disk::Disk;
use std::io::{Read, Write};

/// What was asked for, however it ended, is a run that loses nothing of an archive in the file, whatever was seen of
/// it; and so is what did nothing, since the words were refused.
pub fn what_is_asked_for_loses_nothing<
    S,
    D: Disk,
    R: Read + Device,
    W: Write + Device,
    F: Write + Device,
>()
    ensures asked { (image after : Image) (asked : Asked) (status : ℕ) (x y : Streams R W F) (left : Left S D D.Disk)
        (room : Option Visits) (bytes seen unseen : List ℕ) (ended : Option ℕ)
        → Does R.Read R.Device W.Write W.Device F.Write F.Device image status x y left room asked
        → IsSeen R.Read W.Write x y bytes seen unseen → IsSeenAs status unseen ended → FindsAfter image left after
        → IsRun image bytes seen ended after asked }
    ensures refused { (image after : Image) (words : List (List ℕ)) (status : ℕ) (x y : Streams R W F)
        (left : Left S D D.Disk) (bytes seen unseen : List ℕ) (ended : Option ℕ)
        → IsSeen R.Read W.Write x y bytes seen unseen → IsSeenAs status unseen ended → FindsAfter image left after
        → IsUntouched left → y.output ≡ x.output → status ≢ 0 → (IsTaken words → status ≢ 2)
        → IsRunOf image bytes seen ended after words }
{
    a_task_on_a_file_loses_nothing::<S, D, R, W, F>();
    a_run_without_a_task_loses_nothing::<S, D>();
}
