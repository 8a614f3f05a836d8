//! The changes of a request, written in one commit.

ghost use Rattle.std.specs.Prelude.{◌≡◌, ◌⊎◌, true, false, IfOk, IfErr, OnOk, OnErr};
ghost use Rattle.sqlite.specs.State.{HasCleanDisk};
ghost use Rattle.sqlite.specs.Held.{state};
ghost use Rattle.record_text.specs.declared.refusal.RefusalKind.TheVariants.{OutOfMemory, Storage};
ghost use Rattle.archive_state.specs.Applied.{applied};
ghost use Rattle.archive_state.specs.Content.{Content};
ghost use Rattle.store_tables.specs.Calls.{Settled, LeavesOnly};
ghost use Rattle.store_tables.specs.Rows.{Rows};
ghost use Rattle.store_rows.specs.Meaning.{AllShallow};
ghost use Rattle.import_commits.specs.Commits.{LeavesEither as LeavesOneOf};
ghost use Rattle.store.specs.Calls.{LeavesEither, WritesChanges};
ghost use Rattle.store.specs.Histories.{is_storage};

use archive_state::{Changes, Numbered};
use record_text::RefusalKind;
use sqlite::{Alter, Connection, Error};
use std::alloc::Global;
use store_rows::write_changes;

/// Writes changes, and values of before, in one transaction, and commits it. 1: memory was refused, and nothing is
/// committed. 80: the database failed, and all of them are committed or none.
pub(crate) fn commit_changes<S: Alter>(
    alloc: Global,
    conn: &mut Connection<S>,
    changes: &Changes,
    pasts: &[Numbered],
) -> Result<(), RefusalKind>
    requires autocommit { conn.old.in_transaction ≡ false }
    ensures done { HasCleanDisk (state S.Store conn.new)
        → OnOk result (WritesChanges (state S.Store conn.old) changes.now pasts.now
        (state S.Store conn.new)) }
    ensures shallow { OnOk result ((c : Content) → AllShallow c → AllShallow (applied c changes.now)) }
    ensures crash { HasCleanDisk (state S.Store conn.new)
        → (rows : Rows) → rows.has_spans ≡ true → Settled (state S.Store conn.old) rows
        → LeavesEither (state S.Store conn.new) rows changes.now pasts.now }
    ensures undone { HasCleanDisk (state S.Store conn.new)
        → IfErr result (λ kind. is_storage kind ≡ false → (rows : Rows) → Settled (state S.Store conn.old) rows
        → LeavesOnly (state S.Store conn.new) rows) }
    ensures refused { IfErr result (λ kind. (kind ≡ OutOfMemory) ⊎ (kind ≡ Storage)) }
    ensures clean { HasCleanDisk (state S.Store conn.new) → HasCleanDisk (state S.Store conn.old) }
    ensures ended { conn.new.in_transaction ≡ false }
{
    match try_commit(alloc, conn, changes, pasts) {
        Ok(Ok(())) => Ok(()),
        Ok(Err(_)) => Err(RefusalKind::Storage),
        Err(kind) => Err(kind),
    }
}

/// The same, with what the commit answered.
#[tactic(auto, using(crate::proofs::Committed::settles))]
fn try_commit<S: Alter>(
    alloc: Global,
    conn: &mut Connection<S>,
    changes: &Changes,
    pasts: &[Numbered],
) -> Result<Result<(), Error>, RefusalKind>
    requires autocommit { conn.old.in_transaction ≡ false }
    ensures done { HasCleanDisk (state S.Store conn.new) → IfOk result (λ committed. OnOk committed
        (WritesChanges (state S.Store conn.old) changes.now pasts.now
        (state S.Store conn.new))) }
    ensures shallow { OnOk result ((c : Content) → AllShallow c → AllShallow (applied c changes.now)) }
    ensures crash { HasCleanDisk (state S.Store conn.new)
        → (rows : Rows) → rows.has_spans ≡ true → Settled (state S.Store conn.old) rows
        → LeavesEither (state S.Store conn.new) rows changes.now pasts.now }
    ensures undone { HasCleanDisk (state S.Store conn.new)
        → OnErr result ((rows : Rows) → Settled (state S.Store conn.old) rows
        → LeavesOneOf (state S.Store conn.new) rows rows) }
    ensures refused { IfErr result (λ kind. (kind ≡ OutOfMemory) ⊎ (kind ≡ Storage)) }
    ensures clean { HasCleanDisk (state S.Store conn.new) → HasCleanDisk (state S.Store conn.old) }
    ensures ended { conn.new.in_transaction ≡ false }
{
    let mut tx = conn.transaction();
    match write_changes(alloc, &mut tx, changes, pasts) {
        Ok(()) => Ok(tx.commit()),
        Err(kind) => {
            tx.rollback();
            Err(kind)
        }
    }
}
