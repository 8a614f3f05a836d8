//! One request, done before it is answered: an import in steps, and any other in one commit.

ghost use Rattle.std.specs.Prelude.{◌≡◌, ◌≢◌, ◌⊎◌, [], ◌∷◌, false, true, None, Err, IfOk, IfErr, IfSome, OnOk};
ghost use Rattle.std.specs.FinMap.{get};
ghost use Rattle.sqlite.specs.State.{HasCleanDisk};
ghost use Rattle.sqlite.specs.Held.{state};
ghost use Rattle.record_text.specs.declared.refusal.RefusalKind.TheVariants.{OutOfMemory, Storage};
ghost use Rattle.archive_state.specs.Applied.{applied};
ghost use Rattle.archive_state.specs.Content.{Content};
ghost use Rattle.archive_core.specs.Machine.{Does, import_of};
ghost use Rattle.archive_state.specs.Looks.{is_stop};
ghost use Rattle.store_tables.specs.Calls.{LeavesAsBefore, LeavesOnly, Settled};
ghost use Rattle.store_tables.specs.Rows.{Rows};
ghost use Rattle.store_rows.specs.Meaning.{AllShallow};
ghost use Rattle.store.specs.Histories.{is_storage};
ghost use Rattle.store.specs.Calls.{
  Acknowledges,
  LeavesEither,
  LeavesTogether,
  OnArchive,
  Performs,
  WritesChanges,
};
ghost use Rattle.store.specs.Overwritten.{keeps_past};

use crate::archive::Archive;
use crate::committing::commit_changes;
use crate::deciding::{Plan, decide_on};
use crate::failing::is_storage;
use crate::staged::import_on;
use archive_core::Request;
use commands::Command;
use gedcom_tree::Forest;
use receipts::Answer;
use record_text::{Refusal, RefusalKind};
use sqlite::{Alter, Connection};
use staging::Silent;
use std::alloc::Global;
use store_tables::connection::still_answers;

/// Does a request on an archive. After any refusal but 80 the archive is as it was.
pub(crate) fn perform_on<S: Alter>(
    alloc: Global,
    archive: &mut Archive<S>,
    request: &Request,
) -> Result<Answer, Refusal>
    requires kept { archive.old.is_lost ≡ false }
    ensures performs { HasCleanDisk (state S.Store archive.new.conn)
        → Performs (state S.Store archive.old.conn) ((«request».now, result) ∷ []) (state S.Store archive.new.conn) }
    ensures acknowledged { HasCleanDisk (state S.Store archive.new.conn)
        → IfOk result (λ answer. Acknowledges (state S.Store archive.old.conn) «request».now answer
        (state S.Store archive.new.conn)) }
    ensures repeated { HasCleanDisk (state S.Store archive.new.conn) → OnArchive (state S.Store archive.old.conn)
        (λ society c rows.
        get c.receipts «request».now.token ≢ None → LeavesOnly (state S.Store archive.new.conn) rows) }
    ensures refused { HasCleanDisk (state S.Store archive.new.conn) → IfErr result (λ e. is_storage e.kind ≡ false
        → OnArchive (state S.Store archive.old.conn)
        (λ society c rows. Settled (state S.Store archive.new.conn) rows)) }
    ensures together { HasCleanDisk (state S.Store archive.new.conn) → keeps_past «request».now.command ≡ true
        → IfErr result (λ e. OnArchive (state S.Store archive.old.conn) (λ society c rows.
        LeavesTogether (state S.Store archive.new.conn) society c rows «request».now)) }
    ensures placed { IfErr result (λ e. is_stop e.kind ≡ true → e.at ≡ None) }
    ensures quiet { HasCleanDisk (state S.Store archive.new.conn) → OnArchive (state S.Store archive.old.conn)
        (λ society c rows. OnOk result (archive.new.failures ≡ 0)) }
{
    match forest_of(request) {
        Some(forest) => import_on(alloc, archive, &request.token, forest, &mut Silent),
        None => perform_at_once(alloc, archive, request),
    }
}

/// The forest of a request that is an import, and has no digest of its own.
#[tactic(auto, using(crate::proofs::Steps::request_is))]
fn forest_of(request: &Request) -> Option<&Forest>
    ensures { IfSome result (λ forest. import_of «request».now.token forest.now ≡ «request».now) }
{
    match &request.digest {
        Some(_) => None,
        None => match &request.command {
            Command::Import(forest) => Some(forest),
            _ => None,
        },
    }
}

/// Does a request on an archive in one commit. After any refusal but 80 the archive is as it was.
fn perform_at_once<S: Alter>(
    alloc: Global,
    archive: &mut Archive<S>,
    request: &Request,
) -> Result<Answer, Refusal>
    requires kept { archive.old.is_lost ≡ false }
    ensures performs { HasCleanDisk (state S.Store archive.new.conn)
        → Performs (state S.Store archive.old.conn) ((«request».now, result) ∷ []) (state S.Store archive.new.conn) }
    ensures acknowledged { HasCleanDisk (state S.Store archive.new.conn)
        → IfOk result (λ answer. Acknowledges (state S.Store archive.old.conn) «request».now answer
        (state S.Store archive.new.conn)) }
    ensures repeated { HasCleanDisk (state S.Store archive.new.conn) → OnArchive (state S.Store archive.old.conn)
        (λ society c rows.
        get c.receipts «request».now.token ≢ None → LeavesOnly (state S.Store archive.new.conn) rows) }
    ensures refused { HasCleanDisk (state S.Store archive.new.conn) → IfErr result (λ e. is_storage e.kind ≡ false
        → OnArchive (state S.Store archive.old.conn)
        (λ society c rows. Settled (state S.Store archive.new.conn) rows)) }
    ensures together { HasCleanDisk (state S.Store archive.new.conn)
        → IfErr result (λ e. OnArchive (state S.Store archive.old.conn) (λ society c rows.
        LeavesTogether (state S.Store archive.new.conn) society c rows «request».now)) }
    ensures placed { IfErr result (λ e. is_stop e.kind ≡ true → e.at ≡ None) }
    ensures quiet { HasCleanDisk (state S.Store archive.new.conn) → OnArchive (state S.Store archive.old.conn)
        (λ society c rows. OnOk result (archive.new.failures ≡ 0)) }
{
    match try_request(alloc, archive, request) {
        Ok(answer) => Ok(answer),
        Err(refusal) => Err(refusal_after(&mut archive.conn, refusal)),
    }
}

/// The refusal of a request: 80 where the connection answers no more.
pub(crate) fn refusal_after<S: Alter>(conn: &mut Connection<S>, refusal: Refusal) -> Refusal
    requires autocommit { conn.old.in_transaction ≡ false }
    ensures settled { HasCleanDisk (state S.Store conn.new) → is_storage result.kind ≡ false → (rows : Rows)
        → LeavesOnly (state S.Store conn.old) rows → Settled (state S.Store conn.new) rows }
    ensures same { is_storage result.kind ≡ false → result ≡ refusal }
    ensures placed { (is_stop refusal.kind ≡ true → refusal.at ≡ None) → is_stop result.kind ≡ true
        → result.at ≡ None }
    ensures survives { LeavesAsBefore (state S.Store conn.old) (state S.Store conn.new) }
    ensures ended { conn.new.in_transaction ≡ false }
{
    if !is_storage(refusal.kind) && still_answers(conn) {
        refusal
    } else {
        RefusalKind::Storage.into()
    }
}

/// The same, before it is known whether the connection still answers.
fn try_request<S: Alter>(
    alloc: Global,
    archive: &mut Archive<S>,
    request: &Request,
) -> Result<Answer, Refusal>
    requires kept { archive.old.is_lost ≡ false }
    ensures acknowledged { HasCleanDisk (state S.Store archive.new.conn)
        → IfOk result (λ answer. Acknowledges (state S.Store archive.old.conn) «request».now answer
        (state S.Store archive.new.conn)) }
    ensures refused { HasCleanDisk (state S.Store archive.new.conn)
        → IfErr result (λ e. is_storage e.kind ≡ false → OnArchive (state S.Store archive.old.conn) (λ society c rows.
        Does c «request».now (Err e) c × LeavesOnly (state S.Store archive.new.conn) rows)) }
    ensures together { HasCleanDisk (state S.Store archive.new.conn)
        → IfErr result (λ e. OnArchive (state S.Store archive.old.conn) (λ society c rows.
        LeavesTogether (state S.Store archive.new.conn) society c rows «request».now)) }
    ensures repeated { HasCleanDisk (state S.Store archive.new.conn) → OnArchive (state S.Store archive.old.conn)
        (λ society c rows.
        get c.receipts «request».now.token ≢ None → LeavesOnly (state S.Store archive.new.conn) rows) }
    ensures clean { HasCleanDisk (state S.Store archive.new.conn) → HasCleanDisk (state S.Store archive.old.conn) }
    ensures placed { IfErr result (λ e. is_stop e.kind ≡ true → e.at ≡ None) }
    ensures quiet { HasCleanDisk (state S.Store archive.new.conn) → OnArchive (state S.Store archive.old.conn)
        (λ society c rows. OnOk result (archive.new.failures ≡ 0)) }
{
    match decide_on(alloc, archive, request) {
        Ok(plan) => {
            let answer = plan.changes.answer;
            match make_changes(alloc, &mut archive.conn, plan) {
                Ok(()) => Ok(answer),
                Err(kind) => Err(Refusal { kind, at: None }),
            }
        }
        Err(refusal) => Err(refusal),
    }
}

/// Makes the changes that were decided, and keeps the values of before. Where the answer was kept before there are
/// none, and nothing is written.
fn make_changes<S: Alter>(
    alloc: Global,
    conn: &mut Connection<S>,
    plan: Plan,
) -> Result<(), RefusalKind>
    requires autocommit { conn.old.in_transaction ≡ false }
    ensures again { plan.changes.kept ≡ None → conn.new ≡ conn.old }
    ensures kept { IfErr result (λ _. plan.changes.kept ≢ None) }
    ensures made { plan.changes.kept ≢ None → HasCleanDisk (state S.Store conn.new)
        → OnOk result (WritesChanges (state S.Store conn.old) plan.changes plan.values.items
        (state S.Store conn.new)) }
    ensures shallow { plan.changes.kept ≢ None
        → OnOk result ((c : Content) → AllShallow c → AllShallow (applied c plan.changes)) }
    ensures crash { plan.changes.kept ≢ None → HasCleanDisk (state S.Store conn.new)
        → (rows : Rows) → rows.has_spans ≡ true → Settled (state S.Store conn.old) rows
        → LeavesEither (state S.Store conn.new) rows plan.changes plan.values.items }
    ensures undone { HasCleanDisk (state S.Store conn.new)
        → IfErr result (λ kind. is_storage kind ≡ false → (rows : Rows) → Settled (state S.Store conn.old) rows
        → LeavesOnly (state S.Store conn.new) rows) }
    ensures refused { IfErr result (λ kind. (kind ≡ OutOfMemory) ⊎ (kind ≡ Storage)) }
    ensures clean { HasCleanDisk (state S.Store conn.new) → HasCleanDisk (state S.Store conn.old) }
    ensures ended { conn.new.in_transaction ≡ false }
{
    match &plan.changes.kept {
        None => Ok(()),
        Some(_) => commit_changes(alloc, conn, &plan.changes, &plan.values),
    }
}
