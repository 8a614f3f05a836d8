//! An archive that is taken up: imports that were left open are removed from it, and one of the first version is made
//! anew.

ghost use Rattle.std.specs.Prelude.{◌≡◌, true, false, IfErr, IsTrue, OnErr, OnOk};
ghost use Rattle.std.specs.List.{list_any};
ghost use Rattle.sqlite.specs.State.{HasCleanDisk};
ghost use Rattle.sqlite.specs.Held.{state};
ghost use Rattle.archive_state.specs.Looks.{is_stop};
ghost use Rattle.record_text.specs.declared.refusal.RefusalKind.TheVariants.{BadStored};
ghost use Rattle.store_rows.specs.Meaning.{is_closed};
ghost use Rattle.store_tables.specs.Calls.{IsAsItWas, LeavesAsBefore, LeavesOnly, Settled};
ghost use Rattle.store_tables.specs.Looking.{IsFailure, Looks};
ghost use Rattle.store_tables.specs.Rows as rows;
ghost use Rattle.store_tables.specs.Rows.{Rows};
ghost use Rattle.staging.specs.Clearing.{IsCleared, LeavesSeen};
ghost use Rattle.store.specs.Adopting.{
  ClearsImports,
  IsRecognised,
  IsToClear,
  IsUnreadable,
  LeavesRefused,
  LeavesStore,
  RefusesToAdopt,
  RenewsRows,
  ShowsSeen,
  StaysSettled,
  TakesUp,
  TakesUpAnew,
  has_import,
  is_foreign,
};
ghost use Rattle.store.specs.Histories.{has_broken, is_storage};

use crate::failing::is_stop;
use crate::reading::recognise;
use older_archives::laws::{what_is_seen_alike_means_the_same, what_was_sound_is_sound_anew};
use older_archives::renew;
use record_text::RefusalKind;
use sqlite::{Alter, Connection};
use staged_rows::laws::what_is_seen_means_the_same;
use staging::remove_open;
use std::alloc::Global;
use store_tables::{BatchRow, Version, check_version, read_batches};

/// Takes up the archive of a store. After any refusal but 80 the connection still answers.
pub(crate) fn take_up<S: Alter>(alloc: Global, conn: &mut Connection<S>) -> Result<(), RefusalKind>
    requires autocommit { conn.old.in_transaction ≡ false }
    ensures takes { HasCleanDisk (state S.Store conn.new)
        → TakesUp (state S.Store conn.old) result (state S.Store conn.new) }
    ensures told { HasCleanDisk (state S.Store conn.new)
        → IfErr result (RefusesToAdopt S.Store (state S.Store conn.old)) }
    ensures recognised { HasCleanDisk (state S.Store conn.new)
        → OnOk result (IsRecognised S.Store (state S.Store conn.old)) }
    ensures left { IfErr result (λ kind. LeavesRefused S.Store (state S.Store conn.old) kind
        (state S.Store conn.new)) }
    ensures foreign { IfErr result (λ kind. is_foreign kind ≡ true → LeavesStore (state S.Store conn.old)
        (state S.Store conn.new)) }
    ensures unchanged { HasCleanDisk (state S.Store conn.new) → IfErr result (λ kind. is_foreign kind ≡ true
        → IsAsItWas (state S.Store conn.old) (state S.Store conn.new)) }
    ensures stays { HasCleanDisk (state S.Store conn.new) → has_broken result ≡ false
        → OnErr result (StaysSettled (state S.Store conn.old) (state S.Store conn.new)) }
    ensures ended { conn.new.in_transaction ≡ false }
{
    what_is_seen_means_the_same();
    match recognise(conn) {
        Ok(Version::Second) => remove_imports(alloc, conn, true),
        Ok(Version::First) => make_anew(alloc, conn),
        Err(kind) => Err(kind),
    }
}

/// Takes up an archive of the first version: imports that were left open are removed from it, and then it is made one
/// of the second version. Refusals as of `remove_imports` and `renew_rows`.
fn make_anew<S: Alter>(alloc: Global, conn: &mut Connection<S>) -> Result<(), RefusalKind>
    requires autocommit { conn.old.in_transaction ≡ false }
    ensures takes { HasCleanDisk (state S.Store conn.new)
        → TakesUpAnew (state S.Store conn.old) result (state S.Store conn.new) }
    ensures stop { IfErr result (λ kind. is_stop kind ≡ true) }
    ensures unreadable { HasCleanDisk (state S.Store conn.new)
        → IfErr result (λ kind. kind ≡ BadStored → IsUnreadable (state S.Store conn.old)) }
    ensures stays { HasCleanDisk (state S.Store conn.new) → has_broken result ≡ false
        → OnErr result (StaysSettled (state S.Store conn.old) (state S.Store conn.new)) }
    ensures clean { HasCleanDisk (state S.Store conn.new) → HasCleanDisk (state S.Store conn.old) }
    ensures ended { conn.new.in_transaction ≡ false }
{
    what_is_seen_alike_means_the_same();
    what_was_sound_is_sound_anew();
    match remove_imports(alloc, conn, false) {
        Ok(()) => renew_rows(alloc, conn),
        Err(kind) => Err(kind),
    }
}

/// Makes one of the second version of an archive of the first version, in one commit.
///
/// 80: the database failed, and that is done or not. 1: memory was refused. 40: its rows are no archive of that
/// version. After 1 and 40 the connection still answers, and nothing is written.
fn renew_rows<S: Alter>(alloc: Global, conn: &mut Connection<S>) -> Result<(), RefusalKind>
    requires autocommit { conn.old.in_transaction ≡ false }
    ensures renews { HasCleanDisk (state S.Store conn.new)
        → RenewsRows (state S.Store conn.old) result (state S.Store conn.new) }
    ensures stop { IfErr result (λ kind. is_stop kind ≡ true) }
    ensures clean { HasCleanDisk (state S.Store conn.new) → HasCleanDisk (state S.Store conn.old) }
    ensures ended { conn.new.in_transaction ≡ false }
{
    match renew(alloc, conn) {
        Ok(()) => Ok(()),
        Err(kind) => Err(failure_after(conn, kind)),
    }
}

/// Takes out imports that were left open, of tables that have spans or have none. Where none was, nothing is written.
///
/// 80: the database failed. 1: memory was refused, and the connection still answers. After either some rows of these
/// imports may be left. 40: a row of `batch` is none, and the connection still answers.
fn remove_imports<S: Alter>(
    alloc: Global,
    conn: &mut Connection<S>,
    has_spans: bool,
) -> Result<(), RefusalKind>
    requires autocommit { conn.old.in_transaction ≡ false }
    ensures clears { HasCleanDisk (state S.Store conn.new)
        → ClearsImports has_spans (state S.Store conn.old) result (state S.Store conn.new) }
    ensures stop { IfErr result (λ kind. is_stop kind ≡ true) }
    ensures clean { HasCleanDisk (state S.Store conn.new) → HasCleanDisk (state S.Store conn.old) }
    ensures ended { conn.new.in_transaction ≡ false }
{
    match has_open(alloc, conn) {
        Ok(true) => remove_them(alloc, conn, has_spans),
        Ok(false) => Ok(()),
        Err(kind) => Err(failure_after(conn, kind)),
    }
}

/// Whether an import was left open. Where the batch of commands is not closed, somebody else has spoilt the tables, and
/// nothing is to be removed from them.
fn has_open<S: Alter>(alloc: Global, conn: &mut Connection<S>) -> Result<bool, RefusalKind>
    requires autocommit { conn.old.in_transaction ≡ false }
    ensures looks { Looks (λ held some. some ≡ has_import held.batches)
        (state S.Store conn.old) (state S.Store conn.new) result }
    ensures ended { conn.new.in_transaction ≡ false }
{
    match read_batches(alloc, conn) {
        Ok(batches) => Ok(leaves_import(&batches)),
        Err(kind) => Err(kind),
    }
}

fn leaves_import(batches: &[BatchRow]) -> bool
    ensures { result ≡ has_import batches.now }
{
    is_spared(batches) && is_any_open(batches)
}

/// Whether the batch of commands is there and closed.
fn is_spared(batches: &[BatchRow]) -> bool
    ensures { result ≡ is_closed 0 batches.now }
{
    batches
        .iter()
        .any(|batch| batch.number == 0 && !batch.is_open)
}

fn is_any_open(batches: &[BatchRow]) -> bool
    ensures { result ≡ list_any (λ (b : rows.BatchRow). b.is_open) batches.now }
{
    batches.iter().any(|batch| batch.is_open)
}

/// Takes out imports of which one is open, at least. Refusals as of `remove_imports`.
fn remove_them<S: Alter>(
    alloc: Global,
    conn: &mut Connection<S>,
    has_spans: bool,
) -> Result<(), RefusalKind>
    requires autocommit { conn.old.in_transaction ≡ false }
    ensures cleared { HasCleanDisk (state S.Store conn.new) → OnOk result ((rows : Rows)
        → IsToClear has_spans (state S.Store conn.old) rows → IsCleared (state S.Store conn.new) rows) }
    ensures stays { HasCleanDisk (state S.Store conn.new) → has_broken result ≡ false → (rows : Rows)
        → IsToClear has_spans (state S.Store conn.old) rows → ShowsSeen (state S.Store conn.new) rows }
    ensures crash { HasCleanDisk (state S.Store conn.new) → (rows : Rows)
        → IsToClear has_spans (state S.Store conn.old) rows → LeavesSeen (state S.Store conn.new) rows }
    ensures refused { HasCleanDisk (state S.Store conn.new) → IfErr result (λ kind. (rows : Rows)
        → Settled (state S.Store conn.old) rows → IsFailure kind) }
    ensures stop { IfErr result (λ kind. is_stop kind ≡ true) }
    ensures clean { HasCleanDisk (state S.Store conn.new) → HasCleanDisk (state S.Store conn.old) }
    ensures ended { conn.new.in_transaction ≡ false }
{
    match remove_open(alloc, conn, has_spans) {
        Ok(()) => Ok(()),
        Err(kind) => Err(failure_after(conn, kind)),
    }
}

/// What a step of this is refused with: 1 where memory was refused, and 40 where a row is none of an archive, if the
/// connection still answers; else 80.
fn failure_after<S: Alter>(conn: &mut Connection<S>, kind: RefusalKind) -> RefusalKind
    requires autocommit { conn.old.in_transaction ≡ false }
    ensures settled { HasCleanDisk (state S.Store conn.new) → is_storage result ≡ false → (rows : Rows)
        → LeavesOnly (state S.Store conn.old) rows → Settled (state S.Store conn.new) rows }
    ensures same { is_storage result ≡ false → result ≡ kind }
    ensures stop { is_stop result ≡ true }
    ensures survives { LeavesAsBefore (state S.Store conn.old) (state S.Store conn.new) }
    ensures ended { conn.new.in_transaction ≡ false }
{
    if is_stop(kind) && shows_version(conn) {
        kind
    } else {
        RefusalKind::Storage
    }
}

/// Whether the connection still shows the version of an archive. Then it has what was committed last.
fn shows_version<S: Alter>(conn: &mut Connection<S>) -> bool
    requires autocommit { conn.old.in_transaction ≡ false }
    ensures settled { HasCleanDisk (state S.Store conn.new) → IsTrue result → (rows : Rows)
        → LeavesOnly (state S.Store conn.old) rows → Settled (state S.Store conn.new) rows }
    ensures survives { LeavesAsBefore (state S.Store conn.old) (state S.Store conn.new) }
    ensures ended { conn.new.in_transaction ≡ false }
{
    match check_version(conn) {
        Ok(_) => {
            // For what they ensure: with no transaction the connection shows what was committed, and the trees obey
            // the schema.
            conn.is_autocommit();
            conn.schema();
            true
        }
        Err(_) => false,
    }
}
