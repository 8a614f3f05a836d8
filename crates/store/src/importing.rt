//! An import that is staged on the connection of an archive: it goes on, and is published.

ghost use Rattle.std.specs.Prelude.{◌≡◌, ◌⊎◌, ◌↔◌, ℕ, List, [], false, drop, IfOk, IfErr, OnOk};
ghost use Rattle.sqlite.specs.State.{HasCleanDisk};
ghost use Rattle.sqlite.specs.Held.{state};
ghost use Rattle.record_text.specs.declared.refusal.RefusalKind.TheVariants.{OutOfMemory, Storage};
ghost use Rattle.archive_state.specs.Applied.{applied};
ghost use Rattle.archive_state.specs.Content.{Content};
ghost use Rattle.archive_core.specs.declared.request.Request.{Request};
ghost use Rattle.store_tables.specs.Calls.{Settled};
ghost use Rattle.store.specs.Archives.{Keeps, LeavesArchive};
ghost use Rattle.store.specs.Histories.{is_storage};
ghost use Rattle.store.specs.Importing.{HasImport, HasPublished, StaysOn};

use crate::reading::refusal_after;
use import_commits::laws::{
    a_published_import_is_whole, a_published_import_leaves_the_rows_of_other_numbers,
    a_stage_goes_on, an_import_that_is_begun_can_be_taken_out,
    an_import_that_is_begun_is_in_no_view, an_import_that_is_taken_out_leaves_what_was,
    what_an_import_adds_can_be_read,
};
use import_commits::{publish, stage};
use record_text::RefusalKind;
use sqlite::{Alter, Connection};
use staging::{OpenImport, remove_batch};
use std::alloc::Global;

/// Writes the next 256 rows of an import, or all that are left, in one commit, and answers whether more is left.
///
/// 80: the database failed, and the rows are written or not. 1: memory was refused, and the import is as it was.
pub(crate) fn stage_on<S: Alter>(
    alloc: Global,
    conn: &mut Connection<S>,
    import: &mut OpenImport,
) -> Result<bool, RefusalKind>
    requires autocommit { conn.old.in_transaction ≡ false }
    ensures left { OnOk result (import.new ≡ record import.old { left = drop 256 import.old.left }) }
    ensures more { IfOk result (λ more. (more ≡ false) ↔ (import.new.left ≡ [])) }
    ensures none { import.old.left ≡ [] → (result ≡ Ok false) × (conn.new ≡ conn.old) }
    ensures refused { IfErr result (λ kind. (kind ≡ OutOfMemory) ⊎ (kind ≡ Storage)) }
    ensures staged { HasCleanDisk (state S.Store conn.new)
        → OnOk result (StaysOn import.old (state S.Store conn.old) import.new (state S.Store conn.new)) }
    ensures crash { HasCleanDisk (state S.Store conn.new) → (society : List ℕ) (c : Content) (r : Request)
        → HasImport society c r import.old (state S.Store conn.old)
        → LeavesArchive (state S.Store conn.new) society (λ found. found ≡ c) }
    ensures stays { HasCleanDisk (state S.Store conn.new) → IfErr result (λ kind. is_storage kind ≡ false
        → (kind ≡ OutOfMemory) × (import.new ≡ import.old)
        × StaysOn import.old (state S.Store conn.old) import.new (state S.Store conn.new)) }
    ensures clean { HasCleanDisk (state S.Store conn.new) → HasCleanDisk (state S.Store conn.old) }
    ensures ended { conn.new.in_transaction ≡ false }
{
    a_stage_goes_on();
    an_import_that_is_begun_is_in_no_view();
    match stage(alloc, conn, import) {
        Ok(more) => Ok(more),
        Err(kind) => Err(refusal_after(conn, kind)),
    }
}

/// Publishes an import of which no row is left to be written, in one commit.
///
/// 80: the database failed, and the import is done or not.
pub(crate) fn publish_on<S: Alter>(
    conn: &mut Connection<S>,
    import: &OpenImport,
) -> Result<(), RefusalKind>
    requires autocommit { conn.old.in_transaction ≡ false }
    ensures published { HasCleanDisk (state S.Store conn.new) → OnOk result ((society : List ℕ) (c : Content)
        (r : Request) → (has : HasImport society c r import.now (state S.Store conn.old)) → import.now.left ≡ []
        → HasPublished society c has.2.before r import.now (state S.Store conn.new)) }
    ensures crash { HasCleanDisk (state S.Store conn.new) → (society : List ℕ) (c : Content) (r : Request)
        → HasImport society c r import.now (state S.Store conn.old) → import.now.left ≡ []
        → LeavesArchive (state S.Store conn.new) society
        (λ found. (found ≡ c) ⊎ (found ≡ applied c import.now.changes)) }
    ensures refused { IfErr result (λ kind. kind ≡ Storage) }
    ensures clean { HasCleanDisk (state S.Store conn.new) → HasCleanDisk (state S.Store conn.old) }
    ensures ended { conn.new.in_transaction ≡ false }
{
    a_published_import_is_whole();
    a_published_import_leaves_the_rows_of_other_numbers();
    an_import_that_is_begun_is_in_no_view();
    what_an_import_adds_can_be_read();
    publish(conn, import)
}

/// Takes an import out again, in commits of at most 256 rows. The rows are then those of before.
///
/// 80: the database failed, and some of the import's rows may be left. Takes no memory outside of the database.
pub(crate) fn abandon_on<S: Alter>(
    conn: &mut Connection<S>,
    import: &OpenImport,
) -> Result<(), RefusalKind>
    requires autocommit { conn.old.in_transaction ≡ false }
    ensures gone { HasCleanDisk (state S.Store conn.new) → OnOk result ((society : List ℕ) (c : Content) (r : Request)
        → (has : HasImport society c r import.now (state S.Store conn.old))
        → Settled (state S.Store conn.new) has.2.before × Keeps society c has.2.before) }
    ensures crash { HasCleanDisk (state S.Store conn.new) → (society : List ℕ) (c : Content) (r : Request)
        → HasImport society c r import.now (state S.Store conn.old)
        → LeavesArchive (state S.Store conn.new) society (λ found. found ≡ c) }
    ensures refused { IfErr result (λ kind. kind ≡ Storage) }
    ensures clean { HasCleanDisk (state S.Store conn.new) → HasCleanDisk (state S.Store conn.old) }
    ensures ended { conn.new.in_transaction ≡ false }
{
    an_import_that_is_begun_can_be_taken_out();
    an_import_that_is_begun_is_in_no_view();
    an_import_that_is_taken_out_leaves_what_was();
    remove_batch(conn, true, import.batch(), import.numbers(), import.links())
}
