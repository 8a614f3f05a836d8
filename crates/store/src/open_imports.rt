//! The import that is open on an archive: it goes on, is published, or is given up.

ghost use Rattle.std.specs.Prelude.{
  ◌≡◌,
  ◌≢◌,
  ◌↔◌,
  ◌⊎◌,
  ℕ,
  List,
  [],
  None,
  Some,
  Err,
  false,
  drop,
  IfOk,
  IfErr,
  IfSome,
  IsSome,
  OnOk,
  OnErr,
};
ghost use Rattle.sqlite.specs.State.{HasCleanDisk};
ghost use Rattle.sqlite.specs.Held.{state};
ghost use Rattle.record_text.specs.declared.refusal.RefusalKind.TheVariants.{
  NoImport,
  NotAllStaged,
  OutOfMemory,
  Storage,
};
ghost use Rattle.archive_state.specs.Content.{Content};
ghost use Rattle.archive_core.specs.declared.request.Request.{Request};
ghost use Rattle.store_tables.specs.Calls.{Settled};
ghost use Rattle.store.specs.Archives.{Keeps, LeavesArchive};
ghost use Rattle.store.specs.Calls.{LeavesDoneOrNot};
ghost use Rattle.store.specs.Histories.{is_storage};
ghost use Rattle.store.specs.Importing.{HasImport, HasPublished, StaysOn};
ghost use Rattle.store.specs.Standing.{begun_told};

use crate::importing::{abandon_on, publish_on, stage_on};
use receipts::Answer;
use record_text::{Refusal, RefusalKind};
use sqlite::{Alter, Connection};
use staging::OpenImport;
use std::alloc::Global;

/// What the beginning of an import answers, and the import that is open then.
pub(crate) fn told(
    begun: Result<(Answer, Option<OpenImport>), Refusal>,
) -> (Result<Option<Answer>, Refusal>, Option<OpenImport>)
    ensures { result ≡ begun_told begun }
{
    match begun {
        Ok((_, Some(import))) => (Ok(None), Some(import)),
        Ok((answer, None)) => (Ok(Some(answer)), None),
        Err(refusal) => (Err(refusal), None),
    }
}

/// Writes the next rows of the import that is open. 85: none is.
pub(crate) fn stage_open<S: Alter>(
    alloc: Global,
    conn: &mut Connection<S>,
    import: &mut Option<OpenImport>,
) -> Result<bool, RefusalKind>
    requires autocommit { conn.old.in_transaction ≡ false }
    ensures left { IfOk result (λ more. IfSome import.old (λ i.
        (import.new ≡ Some (record i { left = drop 256 i.left })) × ((more ≡ false) ↔ (drop 256 i.left ≡ [])))) }
    ensures idle { IfSome import.old (λ i. i.left ≡ [] → (result ≡ Ok false) × (conn.new ≡ conn.old)) }
    ensures refused { IsSome import.old → IfErr result (λ kind. (kind ≡ OutOfMemory) ⊎ (kind ≡ Storage)) }
    ensures staged { HasCleanDisk (state S.Store conn.new) → OnOk result (IfSome import.old (λ i.
        StaysOn i (state S.Store conn.old) (record i { left = drop 256 i.left }) (state S.Store conn.new))) }
    ensures stays { HasCleanDisk (state S.Store conn.new) → IfErr result (λ kind. is_storage kind ≡ false
        → IfSome import.old (λ i. (kind ≡ OutOfMemory) × (import.new ≡ import.old)
        × StaysOn i (state S.Store conn.old) i (state S.Store conn.new))) }
    ensures crash { HasCleanDisk (state S.Store conn.new) → IfSome import.old (λ i. (society : List ℕ) (c : Content)
        (r : Request) → HasImport society c r i (state S.Store conn.old)
        → LeavesArchive (state S.Store conn.new) society (λ found. found ≡ c)) }
    ensures none { import.old ≡ None → (result ≡ Err NoImport) × (conn.new ≡ conn.old) × (import.new ≡ None) }
    ensures clean { HasCleanDisk (state S.Store conn.new) → HasCleanDisk (state S.Store conn.old) }
    ensures ended { conn.new.in_transaction ≡ false }
{
    match import {
        Some(open) => stage_on(alloc, conn, open),
        None => Err(RefusalKind::NoImport),
    }
}

/// Publishes the import that is open. 85: none is. 86: rows of it are left to be written.
pub(crate) fn publish_open<S: Alter>(
    conn: &mut Connection<S>,
    import: &mut Option<OpenImport>,
) -> Result<Answer, RefusalKind>
    requires autocommit { conn.old.in_transaction ≡ false }
    ensures done { HasCleanDisk (state S.Store conn.new) → IfOk result (λ answer. IfSome import.old (λ i.
        (answer ≡ i.changes.answer) × ((society : List ℕ) (c : Content) (r : Request)
        → (has : HasImport society c r i (state S.Store conn.old))
        → HasPublished society c has.2.before r i (state S.Store conn.new)))) }
    ensures crash { HasCleanDisk (state S.Store conn.new) → IfSome import.old (λ i. i.left ≡ []
        → (society : List ℕ) (c : Content) (r : Request) → HasImport society c r i (state S.Store conn.old)
        → LeavesDoneOrNot (state S.Store conn.new) society c r) }
    ensures closed { OnOk result (import.new ≡ None) }
    ensures kept { OnErr result (import.new ≡ import.old) }
    ensures unfinished { IfSome import.old (λ i. i.left ≢ [] → (result ≡ Err NotAllStaged) × (conn.new ≡ conn.old)) }
    ensures told { IfSome import.old (λ i. i.left ≡ [] → IfErr result (λ kind. kind ≡ Storage)) }
    ensures none { import.old ≡ None → (result ≡ Err NoImport) × (conn.new ≡ conn.old) × (import.new ≡ None) }
    ensures clean { HasCleanDisk (state S.Store conn.new) → HasCleanDisk (state S.Store conn.old) }
    ensures ended { conn.new.in_transaction ≡ false }
{
    let published = match import {
        Some(open) => publish_all(conn, open),
        None => return Err(RefusalKind::NoImport),
    };
    match published {
        Ok(answer) => {
            *import = None;
            Ok(answer)
        }
        Err(kind) => Err(kind),
    }
}

/// Publishes an import. 86: rows of it are left to be written.
fn publish_all<S: Alter>(
    conn: &mut Connection<S>,
    import: &OpenImport,
) -> Result<Answer, RefusalKind>
    requires autocommit { conn.old.in_transaction ≡ false }
    ensures done { HasCleanDisk (state S.Store conn.new) → IfOk result (λ answer.
        (answer ≡ import.now.changes.answer) × ((society : List ℕ) (c : Content) (r : Request)
        → (has : HasImport society c r import.now (state S.Store conn.old))
        → HasPublished society c has.2.before r import.now (state S.Store conn.new))) }
    ensures crash { HasCleanDisk (state S.Store conn.new) → import.now.left ≡ []
        → (society : List ℕ) (c : Content) (r : Request) → HasImport society c r import.now (state S.Store conn.old)
        → LeavesDoneOrNot (state S.Store conn.new) society c r }
    ensures unfinished { import.now.left ≢ [] → (result ≡ Err NotAllStaged) × (conn.new ≡ conn.old) }
    ensures told { import.now.left ≡ [] → IfErr result (λ kind. kind ≡ Storage) }
    ensures clean { HasCleanDisk (state S.Store conn.new) → HasCleanDisk (state S.Store conn.old) }
    ensures ended { conn.new.in_transaction ≡ false }
{
    if import.has_more() {
        return Err(RefusalKind::NotAllStaged);
    }
    match publish_on(conn, import) {
        Ok(()) => Ok(answer_of(import)),
        Err(kind) => Err(kind),
    }
}

/// What an import is to be answered.
fn answer_of(import: &OpenImport) -> Answer
    ensures { result ≡ import.now.changes.answer }
{
    import.changes().answer
}

/// Gives the import up that is open: its rows are removed. 85: none is.
pub(crate) fn abandon_open<S: Alter>(
    conn: &mut Connection<S>,
    import: &mut Option<OpenImport>,
) -> Result<(), RefusalKind>
    requires autocommit { conn.old.in_transaction ≡ false }
    ensures gone { HasCleanDisk (state S.Store conn.new) → OnOk result (IfSome import.old (λ i. (society : List ℕ)
        (c : Content) (r : Request) → (has : HasImport society c r i (state S.Store conn.old))
        → Settled (state S.Store conn.new) has.2.before × Keeps society c has.2.before)) }
    ensures crash { HasCleanDisk (state S.Store conn.new) → IfSome import.old (λ i. (society : List ℕ) (c : Content)
        (r : Request) → HasImport society c r i (state S.Store conn.old)
        → LeavesArchive (state S.Store conn.new) society (λ found. found ≡ c)) }
    ensures closed { OnOk result (import.new ≡ None) }
    ensures told { IsSome import.old → IfErr result (λ kind. kind ≡ Storage) }
    ensures none { import.old ≡ None → (result ≡ Err NoImport) × (conn.new ≡ conn.old) × (import.new ≡ None) }
    ensures clean { HasCleanDisk (state S.Store conn.new) → HasCleanDisk (state S.Store conn.old) }
    ensures ended { conn.new.in_transaction ≡ false }
{
    let given_up = match import {
        Some(open) => abandon_on(conn, open),
        None => return Err(RefusalKind::NoImport),
    };
    match given_up {
        Ok(()) => {
            *import = None;
            Ok(())
        }
        Err(kind) => Err(kind),
    }
}
