//! What a task does to the archive that was taken up it does to the archive that the file held.
//!
//! What holds of an archive in a file over all runs of the program, and all stops.
//!
//! What is found of the archive in a file after a run: of a task on it, or of none.

ghost use Rattle.std.specs.Prelude.{◌≡◌, ℕ, Bool, List, Option, Some};
ghost use Rattle.sqlite.specs.Files.{file_state, over_files};
ghost use Rattle.sqlite_store.specs.declared.store.FileStore.{FileStore};
ghost use Rattle.sqlite_wal.specs.Recovery.{Image};
ghost use Rattle.archive_core.specs.Machine.{Done, Runs};
ghost use Rattle.archive_output.specs.Exporting.{export_text};
ghost use Rattle.archive_output.specs.Reading.{OnOpen};
ghost use Rattle.gedcom_export.specs.Ends.{IsWhole};
ghost use Rattle.store.specs.declared.archive.Archive.{Archive};
ghost use Rattle.archive_input.specs.Applying.{PerformsAll};
ghost use Rattle.archive_files.specs.Opening.{IsTakenUp, OnHeld};
ghost use Rattle.archive_runs.specs.Tasks.{PerformsOn, EndsOnFile};
ghost use Rattle.archive_state.specs.Content.{Content, nothing};
ghost use Rattle.archive_state.specs.Sound.{IsSound};
ghost use Rattle.archive_runs.specs.Runs.{Follow, KeepAll, Run, Stands, Carries};
ghost use Rattle.sqlite.specs.Held.{Held, state};
ghost use Rattle.archive_files.specs.Made.{IsMadeIn};
ghost use Rattle.archive_files.specs.DatabaseOpening.{IsUntouched};
ghost use Rattle.archive_files.specs.declared.left.Left.{Left};
ghost use Rattle.archive_runs.specs.Beginning.{HasNoTask, idle};
ghost use Rattle.archive_runs.specs.Leaving.{FindsAfter};
ghost use Rattle.archive_runs.specs.Reporting.{EndsBeside};
ghost use Rattle.archive_runs.specs.Seeing.{IsSeen, IsSeenAs};
ghost use Rattle.store.specs.Archives.{HasArchive, LeavesArchive};
ghost use Rattle.store.specs.Earlier.{HadArchive, LeavesHeld};
ghost use Rattle.tasks.specs.Moments.{Streams};
ghost use Rattle.tasks.specs.declared.task.Task.{Task};
ghost use Rattle.tasks.specs.declared.task.Task.TheVariants as task;

use devices::Device;
use older_archives::laws::what_was_sound_is_sound_anew;
use round_trip::laws::an_exported_file_gives_the_same_records;
use sqlite::{Alter, FileStore};
use sqlite_disk::Disk;
use std::io::{Read, Write};

/// Requests that were performed on the archive that was taken up were performed on the archive that the file held, in
/// tables of either version: where none is in doubt it holds what they make of it, and in any case a stop leaves what
/// their history allows.
pub fn requests_are_performed_on_the_archive_of_the_file<D: Disk>()
    ensures { (image : Image) (taken new : Archive (FileStore D D.Disk) over_files) (calls : List Done)
        → IsTakenUp image taken → PerformsAll over_files taken calls new
        → PerformsOn image calls (file_state new.conn) }
{}

/// What was exported of the archive that was taken up is the archive that the file held, which a stop leaves.
pub fn an_export_is_of_the_archive_of_the_file<D: Disk>()
    ensures { (image : Image) (taken new : Archive (FileStore D D.Disk) over_files) (before after : Option (List ℕ))
        → IsTakenUp image taken → OnOpen (file_state taken.conn) (file_state new.conn)
        (λ society c. IsWhole before after (export_text society c))
        → OnHeld image (λ society c. IsWhole before after (export_text society c)) (file_state new.conn) }
{}

/// However often the program is run on a file, and stopped: the archive that the file held first is found in it at the
/// end, as the requests made it that were kept of each run, in their order, and each link names a record.
pub fn runs_of_the_program_lose_nothing()
    ensures { (first last : Image) (runs : List Run) (society : List ℕ) (c : Content) → Follow first runs last
        → Stands society c first → ∥ ((kept : List Done) × (found : Content) × KeepAll c runs kept found
        × Runs c kept found × IsSound found × ∥ Stands society found last ∥₁) ∥₁ }
{
    what_was_sound_is_sound_anew();
}

/// A task that ended on the archive in a file, whatever was seen of it: it keeps what it says, and the file holds that
/// where it holds what a crash may leave of the connection. So does one that was refused before the file was opened,
/// and an import with a report.
pub fn a_task_on_a_file_loses_nothing<
    S,
    D: Disk,
    R: Read + Device,
    W: Write + Device,
    F: Write + Device,
>()
    ensures performed { (image after : Image) (task : Task) (x y : Streams R W F) (status : ℕ) (shown : Option Content)
        (left : Left S D D.Disk) (input seen unseen : List ℕ) (ended : Option ℕ)
        → EndsOnFile R.Read R.Device W.Write W.Device F.Write F.Device image task x y status shown left
        → IsSeen R.Read W.Write x y input seen unseen → IsSeenAs status unseen ended → FindsAfter image left after
        → Carries image (record { task = Some task; input = input; written = seen; status = ended }) after }
    ensures refused { (image after : Image) (task : Task) (x y : Streams R W F) (status : ℕ) (left : Left S D D.Disk)
        (input seen unseen : List ℕ) (ended : Option ℕ) → IsUntouched left → y.output ≡ x.output → status ≡ 1
        → IsSeen R.Read W.Write x y input seen unseen → IsSeenAs status unseen ended → FindsAfter image left after
        → Carries image (record { task = Some task; input = input; written = seen; status = ended }) after }
    ensures beside { (image after : Image) (token : List ℕ) (progress : Bool) (x y : Streams R W F) (status : ℕ)
        (left : Left S D D.Disk) (input seen unseen : List ℕ) (ended : Option ℕ)
        → EndsBeside R.Read R.Device W.Write W.Device F.Write F.Device image token progress x y status left
        → IsSeen R.Read W.Write x y input seen unseen → IsSeenAs status unseen ended → FindsAfter image left after
        → Carries image (record {
          task = Some (task.Import token progress);
          input = input;
          written = seen;
          status = ended;
        }) after }
{
    requests_are_performed_on_the_archive_of_the_file::<D>();
    an_exported_file_gives_the_same_records();
}

/// A run without a task on an archive leaves each that the file held; and one that makes an archive leaves that.
pub fn a_run_without_a_task_loses_nothing<S, D: Disk>()
    ensures kept { (image after : Image) (society : List ℕ) (left : Left S D D.Disk) (input written : List ℕ)
        (ended : Option ℕ) → HasNoTask image society left → FindsAfter image left after
        → Carries image (idle input written ended) after }
    ensures begun { (image after : Image) (society : List ℕ) (left : Left S D D.Disk) → IsMadeIn image society left
        → FindsAfter image left after → ∥ Stands society nothing after ∥₁ }
{
    a_stop_leaves_what_is_settled::<FileStore<D>>();
}

/// A stop leaves the archive that a connection has, of either version.
fn a_stop_leaves_what_is_settled<S: Alter>()
    ensures second { (conn : Held S) (society : List ℕ) (c : Content) → HasArchive society c (state S.Store conn)
        → LeavesArchive (state S.Store conn) society (λ found. found ≡ c) }
    ensures first { (conn : Held S) (society : List ℕ) (c : Content) → HadArchive society c (state S.Store conn)
        → LeavesHeld (state S.Store conn) society c }
{}
