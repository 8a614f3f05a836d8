//! What a connection shows before an archive is made in it, and after a call on it was refused.

ghost use Rattle.std.specs.Prelude.{◌≡◌, ◌↔◌, false, IsTrue};
ghost use Rattle.sqlite.specs.Held.{state};
ghost use Rattle.sqlite.specs.State.{HasCleanDisk, IsLive, IsRolledBack, IsUnchanged};
ghost use Rattle.store_tables.specs.Calls.{IsAsItWas, IsNoOther, LeavesAsBefore, LeavesOnly, Settled};
ghost use Rattle.store_tables.specs.Rows.{Rows};
ghost use Rattle.store_tables.specs.Schema.{no_schema};

use sqlite::{Alter, Connection};

/// Whether nothing was made in the store yet: it has no table, index or view.
pub fn is_blank<S: Alter>(conn: &Connection<S>) -> bool
    ensures { IsTrue result ↔ ((state S.Store conn.now).now.schema ≡ no_schema) }
{
    let schema = conn.schema();
    schema.tables.is_empty() && schema.indexes.is_empty() && schema.views.is_empty()
}

/// Whether the tables are those of the second schema, where they are those of an archive.
pub(crate) fn is_second<S: Alter>(conn: &Connection<S>) -> bool
    ensures { IsNoOther result (state S.Store conn.now) }
{
    conn.schema().tables.len() == 11
}

/// Whether the connection still answers after a call on it was refused. What was begun and not committed is taken back.
pub fn still_answers<S: Alter>(conn: &mut Connection<S>) -> bool
    requires autocommit { conn.old.in_transaction ≡ false }
    ensures settled { HasCleanDisk (state S.Store conn.new) → IsTrue result → (rows : Rows)
        → LeavesOnly (state S.Store conn.old) rows → Settled (state S.Store conn.new) rows }
    ensures kept { HasCleanDisk (state S.Store conn.new) → IsTrue result → IsTrue (state S.Store conn.old).is_open
        → IsAsItWas (state S.Store conn.old) (state S.Store conn.new) }
    ensures survives { LeavesAsBefore (state S.Store conn.old) (state S.Store conn.new) }
    ensures ended { conn.new.in_transaction ≡ false }
{
    take_back(conn);
    is_open(conn)
}

/// Takes back what was begun and not committed.
fn take_back<S: Alter>(conn: &mut Connection<S>)
    requires autocommit { conn.old.in_transaction ≡ false }
    ensures undone { HasCleanDisk (state S.Store conn.new) → IsRolledBack (state S.Store conn.old)
        (state S.Store conn.new) }
    ensures committed { IsTrue (state S.Store conn.old).is_open
        → (state S.Store conn.old).now ≡ (state S.Store conn.old).committed }
    ensures survives { LeavesAsBefore (state S.Store conn.old) (state S.Store conn.new) }
    ensures ended { conn.new.in_transaction ≡ false }
{
    // For what it ensures: with no transaction the connection shows what was committed.
    conn.is_autocommit();
    conn.transaction().rollback();
}

/// Whether a query can be prepared, which changes nothing. It names no table, since the store may have none of ours.
fn is_open<S: Alter>(conn: &mut Connection<S>) -> bool
    requires autocommit { conn.old.in_transaction ≡ false }
    ensures same { HasCleanDisk (state S.Store conn.new) → IsTrue result → IsUnchanged (state S.Store conn.old)
        (state S.Store conn.new) }
    ensures live { IsLive (state S.Store conn.new) }
    ensures survives { LeavesAsBefore (state S.Store conn.old) (state S.Store conn.new) }
    ensures ended { conn.new.in_transaction ≡ false }
{
    let is_prepared = conn.prepare("SELECT 1").is_ok();
    // For what it ensures: the trees obey the schema.
    conn.schema();
    is_prepared
}
