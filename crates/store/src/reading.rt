//! What an archive holds, read of its tables.

ghost use Rattle.std.specs.Prelude.{◌≡◌, true, false, IfErr, IfOk, IsTrue};
ghost use Rattle.sqlite.specs.State.{HasCleanDisk, IsUnchanged};
ghost use Rattle.sqlite.specs.Held.{state};
ghost use Rattle.store_tables.specs.Calls.{IsAsItWas, LeavesAsBefore, LeavesOnly, Settled};
ghost use Rattle.store_tables.specs.Looking.{IsFailure, Looks, version_number};
ghost use Rattle.store_tables.specs.Rows.{Rows};
ghost use Rattle.store.specs.Adopting.{IsOfVersion, LeavesStore, RefusesToAdopt, is_foreign};
ghost use Rattle.store.specs.Calls.{Reads, Stays};
ghost use Rattle.store.specs.Histories.{has_broken, is_storage};
ghost use Rattle.store.specs.Looking.{IsRead, IsUnread};

use crate::failing::is_storage;
use archive_state::State;
use record_text::{RefusalKind, Text};
use sqlite::{Alter, Connection};
use std::alloc::Global;
use store_rows::read_state;
use store_tables::connection::still_answers;
use store_tables::{Version, check_tables, check_version};

/// All that the archive holds. After any refusal but 80 the connection still answers.
pub(crate) fn state_on<S: Alter>(
    alloc: Global,
    conn: &mut Connection<S>,
) -> Result<State, RefusalKind>
    requires autocommit { conn.old.in_transaction ≡ false }
    ensures reads { HasCleanDisk (state S.Store conn.new) → Reads (λ _ c held. held ≡ c) (state S.Store conn.old) result
        (state S.Store conn.new) }
    ensures read { HasCleanDisk (state S.Store conn.new) → IfOk result (IsRead (state S.Store conn.old)) }
    ensures unread { HasCleanDisk (state S.Store conn.new) → IfErr result (IsUnread (state S.Store conn.old)) }
    ensures ended { conn.new.in_transaction ≡ false }
{
    match read_state(alloc, conn) {
        Err(kind) => Err(refusal_after(conn, kind)),
        Ok(held) => Ok(held),
    }
}

/// The society of the archive. After any refusal but 80 the connection still answers.
pub(crate) fn society_on<S: Alter>(
    alloc: Global,
    conn: &mut Connection<S>,
) -> Result<Text, RefusalKind>
    requires autocommit { conn.old.in_transaction ≡ false }
    ensures reads { HasCleanDisk (state S.Store conn.new) → Reads (λ society _ text. text ≡ society)
        (state S.Store conn.old) result (state S.Store conn.new) }
    ensures unread { HasCleanDisk (state S.Store conn.new) → IfErr result (λ kind. (rows : Rows)
        → Settled (state S.Store conn.old) rows → IsFailure kind) }
    ensures ended { conn.new.in_transaction ≡ false }
{
    match store_tables::society(alloc, conn) {
        Err(kind) => Err(refusal_after(conn, kind)),
        Ok(text) => Ok(text),
    }
}

/// The version of the archive that the store has, of the two that are known. After any refusal but 80 the connection
/// still answers.
pub(crate) fn recognise<S: Alter>(conn: &mut Connection<S>) -> Result<Version, RefusalKind>
    requires autocommit { conn.old.in_transaction ≡ false }
    ensures stays { HasCleanDisk (state S.Store conn.new)
        → Stays (state S.Store conn.old) (has_broken result) (state S.Store conn.new) }
    ensures version { HasCleanDisk (state S.Store conn.new) → IfOk result (λ version. (rows : Rows)
        → Settled (state S.Store conn.old) rows → rows.version ≡ version_number version) }
    ensures refused { HasCleanDisk (state S.Store conn.new) → IfErr result (λ kind. (rows : Rows)
        → Settled (state S.Store conn.old) rows → IsFailure kind) }
    ensures told { HasCleanDisk (state S.Store conn.new)
        → IfErr result (RefusesToAdopt S.Store (state S.Store conn.old)) }
    ensures recognised { HasCleanDisk (state S.Store conn.new)
        → IfOk result (IsOfVersion S.Store (state S.Store conn.old)) }
    ensures left { LeavesStore (state S.Store conn.old) (state S.Store conn.new) }
    ensures unchanged { HasCleanDisk (state S.Store conn.new) → IfErr result (λ kind. is_foreign kind ≡ true
        → IsAsItWas (state S.Store conn.old) (state S.Store conn.new)) }
    ensures ended { conn.new.in_transaction ≡ false }
{
    match look_at_tables(conn) {
        Err(kind) => Err(refusal_after(conn, kind)),
        Ok(version) => Ok(version),
    }
}

/// The same, before it is known whether the connection still answers.
fn look_at_tables<S: Alter>(conn: &mut Connection<S>) -> Result<Version, RefusalKind>
    requires autocommit { conn.old.in_transaction ≡ false }
    ensures looks { Looks (λ rows version. rows.version ≡ version_number version) (state S.Store conn.old)
        (state S.Store conn.new) result }
    ensures told { HasCleanDisk (state S.Store conn.new)
        → IfErr result (RefusesToAdopt S.Store (state S.Store conn.old)) }
    ensures recognised { HasCleanDisk (state S.Store conn.new)
        → IfOk result (IsOfVersion S.Store (state S.Store conn.old)) }
    ensures survives { LeavesAsBefore (state S.Store conn.old) (state S.Store conn.new) }
    ensures unchanged { HasCleanDisk (state S.Store conn.new) → IfErr result (λ kind. is_foreign kind ≡ true
        → IsUnchanged (state S.Store conn.old) (state S.Store conn.new)) }
    ensures ended { conn.new.in_transaction ≡ false }
{
    match check_version(conn) {
        Ok(version) => match check_tables(conn, version) {
            Ok(()) => Ok(version),
            Err(kind) => Err(kind),
        },
        Err(kind) => Err(kind),
    }
}

/// The refusal of a call: 80 where the connection answers no more.
pub(crate) fn refusal_after<S: Alter>(conn: &mut Connection<S>, kind: RefusalKind) -> RefusalKind
    requires autocommit { conn.old.in_transaction ≡ false }
    ensures settled { HasCleanDisk (state S.Store conn.new) → is_storage result ≡ false → (rows : Rows)
        → LeavesOnly (state S.Store conn.old) rows → Settled (state S.Store conn.new) rows }
    ensures same { is_storage result ≡ false → result ≡ kind }
    ensures kept { HasCleanDisk (state S.Store conn.new) → is_storage result ≡ false
        → IsTrue (state S.Store conn.old).is_open → IsAsItWas (state S.Store conn.old) (state S.Store conn.new) }
    ensures survives { LeavesAsBefore (state S.Store conn.old) (state S.Store conn.new) }
    ensures ended { conn.new.in_transaction ≡ false }
{
    if !is_storage(kind) && still_answers(conn) {
        kind
    } else {
        RefusalKind::Storage
    }
}
