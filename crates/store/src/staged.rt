//! A request to import: the steps of a staged import, one after the other.

ghost use Rattle.std.specs.Prelude.{
  ◌≡◌,
  ◌≢◌,
  ℕ,
  List,
  [],
  ◌∷◌,
  false,
  length,
  true,
  None,
  IfOk,
  IfErr,
  IfSome,
  OnOk,
  OnErr,
};
ghost use Rattle.std.specs.FinMap.{get};
ghost use Rattle.sqlite.specs.State.{HasCleanDisk};
ghost use Rattle.sqlite.specs.Held.{state};
ghost use Rattle.record_text.specs.declared.refusal.RefusalKind.TheVariants.{OutOfMemory};
ghost use Rattle.archive_state.specs.Content.{Content};
ghost use Rattle.archive_core.specs.Machine.{import_of};
ghost use Rattle.archive_core.specs.declared.request.Request.{Request};
ghost use Rattle.archive_state.specs.Looks.{is_stop};
ghost use Rattle.store_tables.specs.Calls.{LeavesOnly, Settled};
ghost use Rattle.staging.specs.Counts.{TellsAll, TellsSome};
ghost use Rattle.import_commits.specs.Commits.{IsWhole};
ghost use Rattle.store.specs.Archives.{LeavesArchive};
ghost use Rattle.store.specs.Calls.{AcknowledgedBy, Acknowledges, LeavesDoneOrNot, OnArchive, Performs};
ghost use Rattle.store.specs.Histories.{is_storage};
ghost use Rattle.store.specs.Importing.{HasImport, StaysOn};

use crate::archive::Archive;
use crate::beginning::begin_on;
use crate::failing::is_storage;
use crate::importing::{abandon_on, publish_on, stage_on};
use gedcom_tree::Forest;
use receipts::{Answer, Token};
use record_text::{Refusal, RefusalKind};
use sqlite::{Alter, Connection};
use staging::{OpenImport, Progress, RowCount};
use std::alloc::Global;

/// Imports a forest into an archive, in commits of at most 256 rows; the last of them publishes all. After any refusal
/// but 80 the archive is as it was. How far it is is reported to `progress`.
pub(crate) fn import_on<S: Alter, P: Progress>(
    alloc: Global,
    archive: &mut Archive<S>,
    token: &Token,
    forest: &Forest,
    progress: &mut P,
) -> Result<Answer, Refusal>
    requires kept { archive.old.is_lost ≡ false }
    ensures performs { HasCleanDisk (state S.Store archive.new.conn) → Performs (state S.Store archive.old.conn)
        ((import_of token.now forest.now, result) ∷ []) (state S.Store archive.new.conn) }
    ensures acknowledged { HasCleanDisk (state S.Store archive.new.conn)
        → IfOk result (λ answer. Acknowledges (state S.Store archive.old.conn) (import_of token.now forest.now) answer
        (state S.Store archive.new.conn)) }
    ensures repeated { HasCleanDisk (state S.Store archive.new.conn) → OnArchive (state S.Store archive.old.conn)
        (λ society c rows. get c.receipts token.now ≢ None → LeavesOnly (state S.Store archive.new.conn) rows) }
    ensures refused { HasCleanDisk (state S.Store archive.new.conn) → IfErr result (λ e. is_storage e.kind ≡ false
        → OnArchive (state S.Store archive.old.conn)
        (λ society c rows. Settled (state S.Store archive.new.conn) rows)) }
    ensures placed { IfErr result (λ e. is_stop e.kind ≡ true → e.at ≡ None) }
    ensures quiet { HasCleanDisk (state S.Store archive.new.conn) → OnArchive (state S.Store archive.old.conn)
        (λ society c rows. OnOk result (archive.new.failures ≡ 0)) }
{
    match begin_on(alloc, archive, token, forest) {
        Ok((answer, begun)) => match finish_begun(alloc, &mut archive.conn, begun, progress) {
            Ok(()) => Ok(answer),
            Err(kind) => Err(Refusal { kind, at: None }),
        },
        Err(refusal) => Err(refusal),
    }
}

/// Finishes an import that was begun. Where there is none nothing is done.
pub(crate) fn finish_begun<S: Alter, P: Progress>(
    alloc: Global,
    conn: &mut Connection<S>,
    begun: Option<OpenImport>,
    progress: &mut P,
) -> Result<(), RefusalKind>
    requires autocommit { conn.old.in_transaction ≡ false }
    ensures none { begun ≡ None → conn.new ≡ conn.old }
    ensures some { IfErr result (λ _. begun ≢ None) }
    ensures done { HasCleanDisk (state S.Store conn.new) → OnOk result (IfSome begun (λ i. (society : List ℕ)
        (c : Content) (r : Request) → (has : HasImport society c r i (state S.Store conn.old))
        → AcknowledgedBy society c has.2.before r i.changes.answer (state S.Store conn.new))) }
    ensures undone { HasCleanDisk (state S.Store conn.new) → IfErr result (λ kind. is_storage kind ≡ false
        → IfSome begun (λ i. (kind ≡ OutOfMemory) × ((society : List ℕ) (c : Content) (r : Request)
        → (has : HasImport society c r i (state S.Store conn.old))
        → Settled (state S.Store conn.new) has.2.before))) }
    ensures crash { HasCleanDisk (state S.Store conn.new) → IfSome begun (λ i. (society : List ℕ) (c : Content)
        (r : Request) → HasImport society c r i (state S.Store conn.old)
        → LeavesDoneOrNot (state S.Store conn.new) society c r) }
    ensures clean { HasCleanDisk (state S.Store conn.new) → HasCleanDisk (state S.Store conn.old) }
    ensures ended { conn.new.in_transaction ≡ false }
    ensures silent { begun ≡ None → progress.new ≡ progress.old }
    ensures told { IfSome begun (λ i. IsWhole i.batch i.changes i
        → TellsSome P.Tells (length i.left) progress.old progress.new) }
    ensures told_all { OnOk result (IfSome begun (λ i. IsWhole i.batch i.changes i
        → TellsAll P.Tells (length i.left) progress.old progress.new)) }
{
    match begun {
        None => Ok(()),
        Some(import) => {
            let mut import = import;
            finish_on(alloc, conn, &mut import, progress)
        }
    }
}

/// Writes the rows of an import that are left, and publishes it. Where memory was refused it is removed again.
///
/// 1: memory was refused, and the rows are those of before. 80: the database failed, and the import is done or not.
fn finish_on<S: Alter, P: Progress>(
    alloc: Global,
    conn: &mut Connection<S>,
    import: &mut OpenImport,
    progress: &mut P,
) -> Result<(), RefusalKind>
    requires autocommit { conn.old.in_transaction ≡ false }
    ensures done { HasCleanDisk (state S.Store conn.new) → OnOk result ((society : List ℕ) (c : Content) (r : Request)
        → (has : HasImport society c r import.old (state S.Store conn.old))
        → AcknowledgedBy society c has.2.before r import.old.changes.answer (state S.Store conn.new)) }
    ensures undone { HasCleanDisk (state S.Store conn.new) → IfErr result (λ kind. is_storage kind ≡ false
        → (kind ≡ OutOfMemory) × ((society : List ℕ) (c : Content) (r : Request)
        → (has : HasImport society c r import.old (state S.Store conn.old))
        → Settled (state S.Store conn.new) has.2.before)) }
    ensures crash { HasCleanDisk (state S.Store conn.new) → (society : List ℕ) (c : Content) (r : Request)
        → HasImport society c r import.old (state S.Store conn.old)
        → LeavesDoneOrNot (state S.Store conn.new) society c r }
    ensures clean { HasCleanDisk (state S.Store conn.new) → HasCleanDisk (state S.Store conn.old) }
    ensures ended { conn.new.in_transaction ≡ false }
    ensures told { IsWhole import.old.batch import.old.changes import.old
        → TellsSome P.Tells (length import.old.left) progress.old progress.new }
    ensures told_all { OnOk result (IsWhole import.old.batch import.old.changes import.old
        → TellsAll P.Tells (length import.old.left) progress.old progress.new) }
{
    match stage_all(alloc, conn, import, progress) {
        Ok(()) => publish_on(conn, import),
        Err(kind) => Err(give_up(conn, import, kind)),
    }
}

/// Writes all rows of an import that are left, 256 in each commit, and tells how far it is.
///
/// 80: the database failed, and further rows are written or not. 1: memory was refused, and the import is still on.
fn stage_all<S: Alter, P: Progress>(
    alloc: Global,
    conn: &mut Connection<S>,
    import: &mut OpenImport,
    progress: &mut P,
) -> Result<(), RefusalKind>
    requires autocommit { conn.old.in_transaction ≡ false }
    ensures left { OnOk result (import.new ≡ record import.old { left = [] }) }
    ensures staged { HasCleanDisk (state S.Store conn.new)
        → OnOk result (StaysOn import.old (state S.Store conn.old) import.new (state S.Store conn.new)) }
    ensures stays { HasCleanDisk (state S.Store conn.new) → IfErr result (λ kind. is_storage kind ≡ false
        → (kind ≡ OutOfMemory)
        × StaysOn import.old (state S.Store conn.old) import.new (state S.Store conn.new)) }
    ensures crash { HasCleanDisk (state S.Store conn.new) → OnErr result ((society : List ℕ) (c : Content) (r : Request)
        → HasImport society c r import.old (state S.Store conn.old)
        → LeavesArchive (state S.Store conn.new) society (λ found. found ≡ c)) }
    ensures clean { HasCleanDisk (state S.Store conn.new) → HasCleanDisk (state S.Store conn.old) }
    ensures ended { conn.new.in_transaction ≡ false }
    ensures told { IsWhole import.old.batch import.old.changes import.old
        → TellsSome P.Tells (length import.old.left) progress.old progress.new }
    ensures told_all { OnOk result (IsWhole import.old.batch import.old.changes import.old
        → TellsAll P.Tells (length import.old.left) progress.old progress.new) }
{
    let mut rows = RowCount::new(import);
    progress.begun(rows);
    'stages: while import.has_more() {
        match stage_on(alloc, conn, import) {
            Ok(_) => {
                rows.go_on();
                progress.staged(rows);
            }
            Err(kind) => return Err(kind),
        }
    }
    Ok(())
}

/// What an import is refused with that goes no further: it is removed again where memory was refused.
fn give_up<S: Alter>(
    conn: &mut Connection<S>,
    import: &OpenImport,
    kind: RefusalKind,
) -> RefusalKind
    requires autocommit { conn.old.in_transaction ≡ false }
    ensures same { is_storage result ≡ false → result ≡ kind }
    ensures gone { HasCleanDisk (state S.Store conn.new) → is_storage result ≡ false
        → (society : List ℕ) (c : Content) (r : Request)
        → (has : HasImport society c r import.now (state S.Store conn.old))
        → Settled (state S.Store conn.new) has.2.before }
    ensures crash { HasCleanDisk (state S.Store conn.new) → (society : List ℕ) (c : Content) (r : Request)
        → (is_storage kind ≡ false → HasImport society c r import.now (state S.Store conn.old))
        → LeavesArchive (state S.Store conn.old) society (λ found. found ≡ c)
        → LeavesArchive (state S.Store conn.new) society (λ found. found ≡ c) }
    ensures clean { HasCleanDisk (state S.Store conn.new) → HasCleanDisk (state S.Store conn.old) }
    ensures ended { conn.new.in_transaction ≡ false }
{
    if is_storage(kind) {
        return kind;
    }
    match abandon_on(conn, import) {
        Ok(()) => kind,
        Err(lost) => lost,
    }
}
