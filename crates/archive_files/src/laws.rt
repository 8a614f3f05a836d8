//! What is found of a database after its files were left.

ghost use Rattle.sqlite.specs.Files.{HoldsDatabase};
ghost use Rattle.sqlite.specs.Tree.{Trees};
ghost use Rattle.sqlite.specs.declared.file.Leftover.{Leftover};
ghost use Rattle.sqlite_wal.specs.Recovery.{Image};
ghost use Rattle.archive_files.specs.Closing.{IsClosing, IsStopping};
ghost use Rattle.archive_files.specs.Leaving.{IsFoundOf, IsNumbered, IsTold, IsToldOf, MayBeLeft, MayBeOf};
ghost use Rattle.archive_files.specs.DatabaseOpening.{IsLeftOver, IsUnopenedOver};
ghost use Rattle.archive_files.specs.declared.left.Closed.{Closed};
ghost use Rattle.archive_files.specs.declared.left.Left.{Left};

use sqlite_disk::Disk;

/// Whatever a crash leaves of two files that could not be opened is the database that they held. What the kit does not
/// say of such an opening is a premise, `IsTold`.
pub fn a_failed_opening_loses_no_database<D: Disk>()
    ensures { (image after : Image) (left : Leftover D D.Disk) (t : Trees) → IsUnopenedOver image left
        → IsTold image left → HoldsDatabase image t → MayBeOf left after → ∥ HoldsDatabase after t ∥₁ }
{}

/// Whatever a crash leaves of two files after a close is the database that they held, where they were not open, and
/// else one that it might have left of the connection. What the kit does not say is a premise: `IsToldOf` of the
/// opening, `IsNumbered` of the close.
pub fn a_close_loses_no_database<S, D: Disk>()
    ensures { (image after : Image) (left : Left S D D.Disk) (closed : Closed S D D.Disk) (t : Trees)
        → IsLeftOver image left → IsToldOf image left → IsClosing left closed → IsNumbered closed
        → HoldsDatabase image t → MayBeLeft image closed after → IsFoundOf t left after }
{}

/// The same after a stop, by which a connection is given up as it stands, and which needs no premise of its own.
pub fn a_stop_loses_no_database<S, D: Disk>()
    ensures { (image after : Image) (left : Left S D D.Disk) (closed : Closed S D D.Disk) (t : Trees)
        → IsLeftOver image left → IsToldOf image left → IsStopping left closed → HoldsDatabase image t
        → MayBeLeft image closed after → IsFoundOf t left after }
{}
