//! An import is decided, and begun on the connection of an archive.

ghost use Rattle.std.specs.Prelude.{◌≡◌, ◌≢◌, true, false, None, Ok, Err, IfOk, IfErr, IfSome, MatchOption, OnOk};
ghost use Rattle.std.specs.FinMap.{get};
ghost use Rattle.sqlite.specs.State.{HasCleanDisk};
ghost use Rattle.sqlite.specs.Held.{state};
ghost use Rattle.record_text.specs.declared.refusal.RefusalKind.TheVariants.{BadStored, OutOfMemory};
ghost use Rattle.gedcom_tree.specs.Text.{IsForest};
ghost use Rattle.archive_core.specs.Applied.{Decides};
ghost use Rattle.archive_core.specs.Exact.{IsExactFor};
ghost use Rattle.archive_core.specs.Machine.{Does, import_of, outcome};
ghost use Rattle.archive_state.specs.Looks.{is_stop};
ghost use Rattle.imports.specs.Imports.{OnlyAdds};
ghost use Rattle.store_tables.specs.Calls.{Settled, LeavesOnly};
ghost use Rattle.store_tables.specs.Rows.{Rows, with_batch};
ghost use Rattle.import_commits.specs.Commits.{IsWhole, IsNextBatch, LeavesBegun};
ghost use Rattle.store.specs.Archives.{LeavesArchive};
ghost use Rattle.store.specs.Calls.{OnArchive};
ghost use Rattle.store.specs.Histories.{is_storage};
ghost use Rattle.store.specs.Importing.{HasAnswered, HasBegun};
ghost use Rattle.store.specs.Viewing.{OnReadable};

use crate::archive::Archive;
use crate::given::Given;
use crate::performing::refusal_after;
use archive_core::decide_import;
use archive_state::Changes;
use gedcom_tree::Forest;
use import_commits::begin;
use import_commits::laws::{
    an_import_that_is_begun_is_in_no_view, nothing_is_there_of_the_next_batch,
};
use receipts::{Answer, Token};
use record_text::{Refusal, RefusalKind};
use sqlite::{Alter, Connection};
use staging::OpenImport;
use std::alloc::Global;

/// Decides the import of a forest, gives the forest up, and where the import is accepted anew begins it: its batch is
/// opened, in one commit. Answers what the import is to be answered, and the import; none where the answer was kept
/// before, and nothing is written.
///
/// Any refusal but 80 leaves the archive as it was. 80: the database failed, and the batch is opened or not.
pub(crate) fn begin_on<S: Alter, F: Given>(
    alloc: Global,
    archive: &mut Archive<S>,
    token: &Token,
    given: F,
) -> Result<(Answer, Option<OpenImport>), Refusal>
    requires kept { archive.old.is_lost ≡ false }
    ensures begun { HasCleanDisk (state S.Store archive.new.conn) → IfOk result (λ begun. IfSome begun.1 (λ i.
        OnArchive (state S.Store archive.old.conn) (λ society c rows. HasBegun society c rows
        (import_of token.now (F.forest_of given)) begun.0 i (state S.Store archive.new.conn)))) }
    ensures answered { HasCleanDisk (state S.Store archive.new.conn) → IfOk result (λ begun. begun.1 ≡ None
        → OnArchive (state S.Store archive.old.conn) (λ society c rows. HasAnswered c rows
        (import_of token.now (F.forest_of given)) begun.0 (state S.Store archive.new.conn))) }
    ensures refused { HasCleanDisk (state S.Store archive.new.conn) → IfErr result (λ e. is_storage e.kind ≡ false
        → OnArchive (state S.Store archive.old.conn) (λ society c rows.
        Does c (import_of token.now (F.forest_of given)) (Err e) c × Settled (state S.Store archive.new.conn) rows)) }
    ensures crash { HasCleanDisk (state S.Store archive.new.conn) → OnArchive (state S.Store archive.old.conn)
        (λ society c rows. LeavesArchive (state S.Store archive.new.conn) society (λ found. found ≡ c)) }
    ensures repeated { HasCleanDisk (state S.Store archive.new.conn) → OnArchive (state S.Store archive.old.conn)
        (λ society c rows.
        get c.receipts token.now ≢ None → LeavesOnly (state S.Store archive.new.conn) rows) }
    ensures placed { IfErr result (λ e. is_stop e.kind ≡ true → e.at ≡ None) }
    ensures quiet { HasCleanDisk (state S.Store archive.new.conn) → OnArchive (state S.Store archive.old.conn)
        (λ society c rows. OnOk result (archive.new.failures ≡ 0)) }
    ensures clean { HasCleanDisk (state S.Store archive.new.conn) → HasCleanDisk (state S.Store archive.old.conn) }
    ensures whole { IfOk result (λ begun. IfSome begun.1 (λ i. IsWhole i.batch i.changes i)) }
    ensures ended { archive.new.conn.in_transaction ≡ false }
{
    match try_begin(alloc, archive, token, given) {
        Ok(begun) => Ok(begun),
        Err(refusal) => Err(refusal_after(&mut archive.conn, refusal)),
    }
}

/// The same, before it is known whether the connection still answers.
fn try_begin<S: Alter, F: Given>(
    alloc: Global,
    archive: &mut Archive<S>,
    token: &Token,
    given: F,
) -> Result<(Answer, Option<OpenImport>), Refusal>
    requires kept { archive.old.is_lost ≡ false }
    ensures begun { HasCleanDisk (state S.Store archive.new.conn) → IfOk result (λ begun. IfSome begun.1 (λ i.
        OnArchive (state S.Store archive.old.conn) (λ society c rows. HasBegun society c rows
        (import_of token.now (F.forest_of given)) begun.0 i (state S.Store archive.new.conn)))) }
    ensures answered { HasCleanDisk (state S.Store archive.new.conn) → IfOk result (λ begun. begun.1 ≡ None
        → OnArchive (state S.Store archive.old.conn) (λ society c rows. HasAnswered c rows
        (import_of token.now (F.forest_of given)) begun.0 (state S.Store archive.new.conn))) }
    ensures refused { HasCleanDisk (state S.Store archive.new.conn)
        → IfErr result (λ e. is_storage e.kind ≡ false → OnArchive (state S.Store archive.old.conn) (λ society c rows.
        Does c (import_of token.now (F.forest_of given)) (Err e) c
        × LeavesOnly (state S.Store archive.new.conn) rows)) }
    ensures crash { HasCleanDisk (state S.Store archive.new.conn) → OnArchive (state S.Store archive.old.conn)
        (λ society c rows. LeavesArchive (state S.Store archive.new.conn) society (λ found. found ≡ c)) }
    ensures repeated { HasCleanDisk (state S.Store archive.new.conn) → OnArchive (state S.Store archive.old.conn)
        (λ society c rows.
        get c.receipts token.now ≢ None → LeavesOnly (state S.Store archive.new.conn) rows) }
    ensures placed { IfErr result (λ e. is_stop e.kind ≡ true → e.at ≡ None) }
    ensures quiet { HasCleanDisk (state S.Store archive.new.conn) → OnArchive (state S.Store archive.old.conn)
        (λ society c rows. OnOk result (archive.new.failures ≡ 0)) }
    ensures clean { HasCleanDisk (state S.Store archive.new.conn) → HasCleanDisk (state S.Store archive.old.conn) }
    ensures whole { IfOk result (λ begun. IfSome begun.1 (λ i. IsWhole i.batch i.changes i)) }
{
    nothing_is_there_of_the_next_batch();
    an_import_that_is_begun_is_in_no_view();
    match decide_given(alloc, archive, token, given) {
        Ok(changes) => {
            let answer = changes.answer;
            match open_import(alloc, &mut archive.conn, changes) {
                Ok(import) => Ok((answer, import)),
                Err(kind) => Err(Refusal { kind, at: None }),
            }
        }
        Err(refusal) => Err(refusal),
    }
}

/// Begins the import that was decided. Where the answer was kept before there is none, and nothing is written.
fn open_import<S: Alter>(
    alloc: Global,
    conn: &mut Connection<S>,
    changes: Changes,
) -> Result<Option<OpenImport>, RefusalKind>
    requires autocommit { conn.old.in_transaction ≡ false }
    ensures again { changes.kept ≡ None → conn.new ≡ conn.old }
    ensures whole { IfOk result (λ import. MatchOption import (changes.kept ≡ None) (λ i. (changes.kept ≢ None)
        × IsWhole i.batch changes i)) }
    ensures begun { HasCleanDisk (state S.Store conn.new) → IfOk result (λ import. IfSome import (λ i.
        (rows : Rows) → Settled (state S.Store conn.old) rows → IsNextBatch i.batch rows
        × Settled (state S.Store conn.new) (with_batch i.batch true rows))) }
    ensures kept { IfErr result (λ _. changes.kept ≢ None) }
    ensures crash { changes.kept ≢ None → HasCleanDisk (state S.Store conn.new)
        → (rows : Rows) → Settled (state S.Store conn.old) rows → LeavesBegun (state S.Store conn.new) rows }
    ensures refused { HasCleanDisk (state S.Store conn.new) → IfErr result (λ kind. is_storage kind ≡ false
        → (rows : Rows) → Settled (state S.Store conn.old) rows
        → (kind ≡ OutOfMemory) × LeavesOnly (state S.Store conn.new) rows) }
    ensures clean { HasCleanDisk (state S.Store conn.new) → HasCleanDisk (state S.Store conn.old) }
    ensures ended { conn.new.in_transaction ≡ false }
{
    if changes.kept.is_none() {
        return Ok(None);
    }
    match begin(alloc, conn, changes) {
        Ok(import) => Ok(Some(import)),
        Err(kind) => Err(kind),
    }
}

/// What the import of a forest changes in an archive, as `decide_import_on` says. The forest is given up then.
fn decide_given<S: Alter, F: Given>(
    alloc: Global,
    archive: &mut Archive<S>,
    token: &Token,
    given: F,
) -> Result<Changes, Refusal>
    requires kept { archive.old.is_lost ≡ false }
    ensures decides { HasCleanDisk (state S.Store archive.new.conn)
        → OnReadable (state S.Store archive.old.conn)
        (λ _ c. Decides c result (outcome c (import_of token.now (F.forest_of given)))) }
    ensures exact { HasCleanDisk (state S.Store archive.new.conn)
        → OnReadable (state S.Store archive.old.conn)
        (λ _ c. IfOk result (IsExactFor c (import_of token.now (F.forest_of given)))) }
    ensures adds { HasCleanDisk (state S.Store archive.new.conn)
        → OnReadable (state S.Store archive.old.conn) (λ _ c. IfOk result (OnlyAdds c)) }
    ensures readable { HasCleanDisk (state S.Store archive.new.conn)
        → OnReadable (state S.Store archive.old.conn) (λ _ _. IfErr result (λ e. e.kind ≢ BadStored)) }
    ensures same { HasCleanDisk (state S.Store archive.new.conn)
        → OnReadable (state S.Store archive.old.conn)
        (λ rows _. OnOk result (Settled (state S.Store archive.new.conn) rows × (archive.new.failures ≡ 0))) }
    ensures placed { IfErr result (λ e. is_stop e.kind ≡ true → e.at ≡ None) }
    ensures crash { HasCleanDisk (state S.Store archive.new.conn)
        → OnReadable (state S.Store archive.old.conn) (λ rows _. LeavesOnly (state S.Store archive.new.conn) rows) }
    ensures clean { HasCleanDisk (state S.Store archive.new.conn) → HasCleanDisk (state S.Store archive.old.conn) }
    ensures words { IsForest (F.forest_of given) }
{
    let decided = decide_import_on(alloc, archive, token, given.forest());
    drop(given);
    decided
}

/// What the import of a forest changes in an archive. It is refused as by `decide_import`, and with 80 where a look
/// lost the archive; nothing is written.
pub(crate) fn decide_import_on<S: Alter>(
    alloc: Global,
    archive: &mut Archive<S>,
    token: &Token,
    forest: &Forest,
) -> Result<Changes, Refusal>
    requires kept { archive.old.is_lost ≡ false }
    ensures decides { HasCleanDisk (state S.Store archive.new.conn)
        → OnReadable (state S.Store archive.old.conn)
        (λ _ c. Decides c result (outcome c (import_of token.now forest.now))) }
    ensures exact { HasCleanDisk (state S.Store archive.new.conn)
        → OnReadable (state S.Store archive.old.conn)
        (λ _ c. IfOk result (IsExactFor c (import_of token.now forest.now))) }
    ensures adds { HasCleanDisk (state S.Store archive.new.conn)
        → OnReadable (state S.Store archive.old.conn) (λ _ c. IfOk result (OnlyAdds c)) }
    ensures readable { HasCleanDisk (state S.Store archive.new.conn)
        → OnReadable (state S.Store archive.old.conn) (λ _ _. IfErr result (λ e. e.kind ≢ BadStored)) }
    ensures same { HasCleanDisk (state S.Store archive.new.conn)
        → OnReadable (state S.Store archive.old.conn)
        (λ rows _. OnOk result (Settled (state S.Store archive.new.conn) rows × (archive.new.failures ≡ 0))) }
    ensures placed { IfErr result (λ e. is_stop e.kind ≡ true → e.at ≡ None) }
    ensures crash { HasCleanDisk (state S.Store archive.new.conn)
        → OnReadable (state S.Store archive.old.conn) (λ rows _. LeavesOnly (state S.Store archive.new.conn) rows) }
    ensures clean { HasCleanDisk (state S.Store archive.new.conn) → HasCleanDisk (state S.Store archive.old.conn) }
    ensures words { IsForest forest.now }
{
    archive.failures = 0;
    let decided = decide_import(alloc, archive, token, forest);
    if archive.is_lost {
        drop(decided);
        return Err(RefusalKind::Storage.into());
    }
    decided
}
