//! An archive of the first version becomes one of the second.

ghost use Rattle.std.specs.Prelude.{◌≡◌, ◌≢◌, false, IfErr, OnOk};
ghost use Rattle.sqlite.specs.State.{HasCleanDisk};
ghost use Rattle.sqlite.specs.Held.{state};
ghost use Rattle.record_text.specs.declared.refusal.RefusalKind.TheVariants.{Storage};
ghost use Rattle.archive_state.specs.Content.{Content};
ghost use Rattle.store_tables.specs.Calls.{LeavesOnly, Settled};
ghost use Rattle.store_tables.specs.Looking.{IsFailure};
ghost use Rattle.store_tables.specs.Rows.{Rows};
ghost use Rattle.older_archives.specs.Meaning.{MeansAnew};
ghost use Rattle.older_archives.specs.Renewing.{IsRenewed, LeavesEither, LeavesRenewed, with_renewal};

use crate::anew::Renewal;
use crate::renewal::renewal_of;
use crate::writing::write_renewal;
use record_text::RefusalKind;
use sqlite::{Alter, Connection, Error};
use std::alloc::Global;
use store_tables::read_rows;

/// Makes an archive of the second version of one of the first, in one commit: each date is read by the grammar of that
/// time and written in the spelling of today, and the spans of all records are written. No transaction may be open.
///
/// 1: memory was refused, and nothing is committed. 40: the rows were no archive of that time, and nothing is
/// committed. 80: the database failed, and it is committed or not.
pub fn renew<S: Alter>(alloc: Global, conn: &mut Connection<S>) -> Result<(), RefusalKind>
    requires autocommit { conn.old.in_transaction ≡ false }
    ensures done { HasCleanDisk (state S.Store conn.new) → OnOk result ((rows : Rows) (c : Content)
        → Settled (state S.Store conn.old) rows → MeansAnew rows c
        → (after : Rows) × IsRenewed rows c after × Settled (state S.Store conn.new) after) }
    ensures crash { HasCleanDisk (state S.Store conn.new) → (rows : Rows) (c : Content)
        → Settled (state S.Store conn.old) rows → MeansAnew rows c → LeavesRenewed (state S.Store conn.new) rows c }
    ensures refused { HasCleanDisk (state S.Store conn.new) → IfErr result (λ kind. (rows : Rows) (c : Content)
        → Settled (state S.Store conn.old) rows → MeansAnew rows c → IsFailure kind) }
    ensures undone { HasCleanDisk (state S.Store conn.new) → IfErr result (λ kind. kind ≢ Storage
        → (rows : Rows) → Settled (state S.Store conn.old) rows → LeavesOnly (state S.Store conn.new) rows) }
    ensures clean { HasCleanDisk (state S.Store conn.new) → HasCleanDisk (state S.Store conn.old) }
    ensures ended { conn.new.in_transaction ≡ false }
{
    let read = read_rows(alloc, conn)?;
    let renewal = renewal_of(alloc, read)?;
    match commit_renewal(alloc, conn, &renewal) {
        Ok(()) => Ok(()),
        Err(_) => Err(RefusalKind::Storage),
    }
}

/// Writes what is read anew in one commit.
#[tactic(auto, using(crate::proofs::Settling::settles))]
fn commit_renewal<S: Alter>(
    alloc: Global,
    conn: &mut Connection<S>,
    renewal: &Renewal,
) -> Result<(), Error>
    requires autocommit { conn.old.in_transaction ≡ false }
    ensures done { HasCleanDisk (state S.Store conn.new) → OnOk result ((rows : Rows) → rows.has_spans ≡ false
        → Settled (state S.Store conn.old) rows
        → Settled (state S.Store conn.new) (with_renewal renewal.now rows)) }
    ensures crash { HasCleanDisk (state S.Store conn.new) → (rows : Rows) → rows.has_spans ≡ false
        → Settled (state S.Store conn.old) rows
        → LeavesEither (state S.Store conn.new) rows (with_renewal renewal.now rows) }
    ensures clean { HasCleanDisk (state S.Store conn.new) → HasCleanDisk (state S.Store conn.old) }
    ensures ended { conn.new.in_transaction ≡ false }
{
    let mut tx = conn.transaction();
    write_renewal(alloc, &mut tx, renewal)?;
    tx.commit()
}
