//! The next rows of an import are written.

ghost use Rattle.std.specs.Prelude.{◌≡◌, ◌⊎◌, ◌↔◌, [], true, false, take, drop, Ok, IfOk, IfErr, OnOk, OnErr};
ghost use Rattle.sqlite.specs.State.{HasCleanDisk};
ghost use Rattle.sqlite.specs.Held.{state};
ghost use Rattle.record_text.specs.declared.refusal.RefusalKind.TheVariants.{OutOfMemory, Storage};
ghost use Rattle.store_tables.specs.Calls.{LeavesOnly, Settled};
ghost use Rattle.store_tables.specs.Rows.{Rows};
ghost use Rattle.staged_rows.specs.Staging.{AreNew, with_staged};
ghost use Rattle.import_commits.specs.Commits.{LeavesEither};

use record_text::RefusalKind;
use sqlite::{Alter, Connection, Error};
use staging::{OpenImport, stage_rows};
use std::alloc::Global;

/// Writes the next 256 rows of an import, or all that are left, in one commit, and answers whether more is left. Where
/// nothing is left nothing is committed.
///
/// 80: the database failed, and the rows are committed or not. 1: memory was refused, nothing is committed, and the
/// import is as it was.
pub fn stage<S: Alter>(
    alloc: Global,
    conn: &mut Connection<S>,
    import: &mut OpenImport,
) -> Result<bool, RefusalKind>
    requires autocommit { conn.old.in_transaction ≡ false }
    ensures staged { HasCleanDisk (state S.Store conn.new)
        → OnOk result ((rows : Rows) → rows.has_spans ≡ true → Settled (state S.Store conn.old) rows
        → Settled (state S.Store conn.new) (with_staged (take 256 import.old.left) rows)
        × AreNew (take 256 import.old.left) rows) }
    ensures left { OnOk result (import.new ≡ record import.old { left = drop 256 import.old.left }) }
    ensures none { import.old.left ≡ [] → (result ≡ Ok false) × (conn.new ≡ conn.old) }
    ensures more { IfOk result (λ more. (more ≡ false) ↔ (import.new.left ≡ [])) }
    ensures crash { HasCleanDisk (state S.Store conn.new)
        → (rows : Rows) → rows.has_spans ≡ true → Settled (state S.Store conn.old) rows
        → LeavesEither (state S.Store conn.new) rows (with_staged (take 256 import.old.left) rows) }
    ensures undone { HasCleanDisk (state S.Store conn.new)
        → IfErr result (λ kind. kind ≡ OutOfMemory → (import.new ≡ import.old) × ((rows : Rows)
        → Settled (state S.Store conn.old) rows → LeavesOnly (state S.Store conn.new) rows)) }
    ensures refused { IfErr result (λ kind. (kind ≡ OutOfMemory) ⊎ (kind ≡ Storage)) }
    ensures clean { HasCleanDisk (state S.Store conn.new) → HasCleanDisk (state S.Store conn.old) }
    ensures ended { conn.new.in_transaction ≡ false }
{
    if !import.has_more() {
        return Ok(false);
    }
    match try_stage(alloc, conn, import) {
        Ok(Ok(())) => Ok(import.has_more()),
        Ok(Err(_)) => Err(RefusalKind::Storage),
        Err(kind) => Err(kind),
    }
}

/// The same, with what the commit answered.
#[tactic(auto, using(crate::proofs::Settling::stage_settles))]
fn try_stage<S: Alter>(
    alloc: Global,
    conn: &mut Connection<S>,
    import: &mut OpenImport,
) -> Result<Result<(), Error>, RefusalKind>
    requires autocommit { conn.old.in_transaction ≡ false }
    ensures staged { HasCleanDisk (state S.Store conn.new) → IfOk result (λ committed. OnOk committed
        ((rows : Rows) → rows.has_spans ≡ true → Settled (state S.Store conn.old) rows
        → Settled (state S.Store conn.new) (with_staged (take 256 import.old.left) rows)
        × AreNew (take 256 import.old.left) rows)) }
    ensures left { OnOk result (import.new ≡ record import.old { left = drop 256 import.old.left }) }
    ensures crash { HasCleanDisk (state S.Store conn.new)
        → (rows : Rows) → rows.has_spans ≡ true → Settled (state S.Store conn.old) rows
        → LeavesEither (state S.Store conn.new) rows (with_staged (take 256 import.old.left) rows) }
    ensures kept { OnErr result (import.new ≡ import.old) }
    ensures undone { HasCleanDisk (state S.Store conn.new)
        → OnErr result ((rows : Rows) → Settled (state S.Store conn.old) rows
        → LeavesEither (state S.Store conn.new) rows rows) }
    ensures refused { IfErr result (λ kind. (kind ≡ OutOfMemory) ⊎ (kind ≡ Storage)) }
    ensures clean { HasCleanDisk (state S.Store conn.new) → HasCleanDisk (state S.Store conn.old) }
    ensures ended { conn.new.in_transaction ≡ false }
{
    let mut tx = conn.transaction();
    match stage_rows(alloc, &mut tx, import) {
        Ok(()) => Ok(tx.commit()),
        Err(kind) => {
            tx.rollback();
            Err(kind)
        }
    }
}
