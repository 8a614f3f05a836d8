//! An import is published.

ghost use Rattle.std.specs.Prelude.{◌≡◌, [], false, IfErr, OnOk};
ghost use Rattle.sqlite.specs.State.{HasCleanDisk};
ghost use Rattle.sqlite.specs.Held.{state};
ghost use Rattle.record_text.specs.declared.refusal.RefusalKind.TheVariants.{Storage};
ghost use Rattle.record_shapes.specs.Lists.{EachOf};
ghost use Rattle.store_tables.specs.Calls.{Settled};
ghost use Rattle.store_tables.specs.Rows.{Rows};
ghost use Rattle.store_rows.specs.Shallow.{IsShallowPut};
ghost use Rattle.staged_rows.specs.Staging.{with_published};
ghost use Rattle.import_commits.specs.Commits.{LeavesPublished};

use record_text::RefusalKind;
use sqlite::{Alter, Connection, Error};
use staging::{OpenImport, publish_rows};

/// Publishes an import, in one commit: its batch is closed, the next number is moved, and its answer is kept.
///
/// 80: the database failed, and it is published or not. Takes no memory outside of the database.
pub fn publish<S: Alter>(conn: &mut Connection<S>, import: &OpenImport) -> Result<(), RefusalKind>
    requires autocommit { conn.old.in_transaction ≡ false }
    ensures published { HasCleanDisk (state S.Store conn.new)
        → OnOk result ((rows : Rows) → Settled (state S.Store conn.old) rows → Settled (state S.Store conn.new)
        (with_published import.now.batch import.now.changes rows)) }
    ensures crash { HasCleanDisk (state S.Store conn.new)
        → (rows : Rows) → Settled (state S.Store conn.old) rows
        → LeavesPublished (state S.Store conn.new) rows import.now }
    ensures shallow { OnOk result (import.now.left ≡ [] → EachOf IsShallowPut import.now.changes.puts) }
    ensures refused { IfErr result (λ kind. kind ≡ Storage) }
    ensures clean { HasCleanDisk (state S.Store conn.new) → HasCleanDisk (state S.Store conn.old) }
    ensures ended { conn.new.in_transaction ≡ false }
{
    match try_publish(conn, import) {
        Ok(()) => Ok(()),
        Err(_) => Err(RefusalKind::Storage),
    }
}

/// The same, with the error of the database.
#[tactic(auto, using(staging::proofs::Commits::settles))]
fn try_publish<S: Alter>(conn: &mut Connection<S>, import: &OpenImport) -> Result<(), Error>
    requires autocommit { conn.old.in_transaction ≡ false }
    ensures published { HasCleanDisk (state S.Store conn.new)
        → OnOk result ((rows : Rows) → Settled (state S.Store conn.old) rows → Settled (state S.Store conn.new)
        (with_published import.now.batch import.now.changes rows)) }
    ensures crash { HasCleanDisk (state S.Store conn.new)
        → (rows : Rows) → Settled (state S.Store conn.old) rows
        → LeavesPublished (state S.Store conn.new) rows import.now }
    ensures shallow { OnOk result (import.now.left ≡ [] → EachOf IsShallowPut import.now.changes.puts) }
    ensures clean { HasCleanDisk (state S.Store conn.new) → HasCleanDisk (state S.Store conn.old) }
    ensures ended { conn.new.in_transaction ≡ false }
{
    let mut tx = conn.transaction();
    publish_rows(&mut tx, import)?;
    tx.commit()
}
