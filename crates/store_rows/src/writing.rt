//! The changes of a request, written as rows inside a transaction.

mod link_rows;
mod past_rows;
mod record_rows;
mod slip_rows;
mod sought_rows;
mod span_rows;

ghost use Rattle.std.specs.Prelude.{◌≡◌, ◌⊎◌, OnOk, IfErr};
ghost use Rattle.sqlite.specs.State.{HasCleanDisk};
ghost use Rattle.sqlite.specs.Held.{state};
ghost use Rattle.store_tables.specs.Calls.{FollowsDated, LeavesAsBefore, Writes, WritesDated};
ghost use Rattle.record_text.specs.declared.refusal.RefusalKind.TheVariants.{OutOfMemory, Storage};
ghost use Rattle.archive_state.specs.Applied.{applied};
ghost use Rattle.archive_state.specs.Content.{Content};
ghost use Rattle.store_rows.specs.Meaning.{AllShallow};
ghost use Rattle.store_rows.specs.Pasts.{FollowsAll};
ghost use Rattle.store_rows.specs.Shallow.{AreShallowChanges};
ghost use Rattle.store_rows.specs.Spans.{AreDrawn, Drawn, FollowsDrawn, with_all_of, without_all_of};
ghost use Rattle.store_rows.specs.Writing.{with_changes, with_kept_written};
ghost use Rattle.store_rows.specs.declared.writing.Unwritten.TheVariants as unwritten;

use archive_state::{Changes, Kept, Numbered};
pub use link_rows::{link_lines, remove_links};
pub use record_rows::{kind_word, remove_lines, remove_rows};
use record_text::RefusalKind;
use sqlite::{Alter, Error, Transaction};
use std::alloc::{AllocError, Global};
use store_tables::rows;

/// Writes the changes of a request, and the spans of the records that it puts, in tables that have spans. What the rows
/// meant, they then mean with the changes made; where each record had its span, each has it afterwards; and where all
/// records could be read, all can be read. `pasts` are the records of before whose values are kept under the token of
/// the request, in this order: of most requests none.
///
/// 80: the database answered an error. 1: memory for the lines of a record was refused. After either the transaction is
/// to be given up, since a part may be written.
pub fn write_changes<S: Alter>(
    alloc: Global,
    tx: &mut Transaction<'_, S>,
    changes: &Changes,
    pasts: &[Numbered],
) -> Result<(), RefusalKind>
    ensures same_reference { tx.new.conn.ghost_name ≡ tx.old.conn.ghost_name }
    ensures ok { HasCleanDisk (state S.Store tx.new.conn.now)
        → OnOk result (FollowsAll (state S.Store tx.old.conn.now) (state S.Store tx.new.conn.now)
        changes.now pasts.now) }
    ensures survives { LeavesAsBefore (state S.Store tx.old.conn.now) (state S.Store tx.new.conn.now) }
    ensures shallow { OnOk result ((c : Content) → AllShallow c → AllShallow (applied c changes.now)) }
    ensures refused { IfErr result (λ kind. (kind ≡ OutOfMemory) ⊎ (kind ≡ Storage)) }
{
    match write_wholly(alloc, tx, changes, pasts) {
        Ok(()) => Ok(()),
        Err(why) => Err(kind_of(why)),
    }
}

/// Why rows were not written.
#[derive(Drop)]
pub enum Unwritten {
    /// Memory for the lines of a record was refused.
    Memory,
    /// The database answered an error.
    Database,
}

impl From<AllocError> for Unwritten {
    ghost use Rattle.std.specs.Prelude.{◌≡◌};
    ghost use Rattle.store_rows.specs.declared.writing.Unwritten.TheVariants.{Memory};

    ghost from_gives = { λ _ e. e ≡ Memory };

    fn from(_error: AllocError) -> Unwritten {
        Unwritten::Memory
    }
}

impl From<Error> for Unwritten {
    ghost use Rattle.std.specs.Prelude.{◌≡◌};
    ghost use Rattle.store_rows.specs.declared.writing.Unwritten.TheVariants.{Database};

    ghost from_gives = { λ _ e. e ≡ Database };

    fn from(_error: Error) -> Unwritten {
        Unwritten::Database
    }
}

/// The refusal for it: 1 for memory, 80 for the database.
pub fn kind_of(why: Unwritten) -> RefusalKind
    ensures either { (result ≡ OutOfMemory) ⊎ (result ≡ Storage) }
    ensures memory { why ≡ unwritten.Memory → result ≡ OutOfMemory }
    ensures database { why ≡ unwritten.Database → result ≡ Storage }
{
    match why {
        Unwritten::Memory => RefusalKind::OutOfMemory,
        Unwritten::Database => RefusalKind::Storage,
    }
}

/// The same, but for the refusals.
fn write_wholly<S: Alter>(
    alloc: Global,
    tx: &mut Transaction<'_, S>,
    changes: &Changes,
    pasts: &[Numbered],
) -> Result<(), Unwritten>
    ensures same_reference { tx.new.conn.ghost_name ≡ tx.old.conn.ghost_name }
    ensures ok { HasCleanDisk (state S.Store tx.new.conn.now)
        → OnOk result (FollowsAll (state S.Store tx.old.conn.now) (state S.Store tx.new.conn.now)
        changes.now pasts.now) }
    ensures survives { LeavesAsBefore (state S.Store tx.old.conn.now) (state S.Store tx.new.conn.now) }
    ensures shallow { OnOk result (AreShallowChanges changes.now) }
{
    write_dated(alloc, tx, changes)?;
    past_rows::write_pasts(alloc, tx, &changes.kept, pasts)
}

/// The changes and what goes with them, without values of before.
fn write_dated<S: Alter>(
    alloc: Global,
    tx: &mut Transaction<'_, S>,
    changes: &Changes,
) -> Result<(), Unwritten>
    ensures same_reference { tx.new.conn.ghost_name ≡ tx.old.conn.ghost_name }
    ensures ok { HasCleanDisk (state S.Store tx.new.conn.now)
        → OnOk result (FollowsDrawn (state S.Store tx.old.conn.now) (state S.Store tx.new.conn.now) changes.now) }
    ensures survives { LeavesAsBefore (state S.Store tx.old.conn.now) (state S.Store tx.new.conn.now) }
    ensures shallow { OnOk result (AreShallowChanges changes.now) }
{
    remove_all_of(tx, &changes.removals)?;
    write_all(alloc, tx, changes)?;
    put_all_of(alloc, tx, &changes.puts)
}

/// Takes out the spans of these numbers, and what they are looked for by. Both go before the rows in `record`.
pub fn remove_all_of<S: Alter>(tx: &mut Transaction<'_, S>, numbers: &[u32]) -> Result<(), Error>
    ensures same_reference { tx.new.conn.ghost_name ≡ tx.old.conn.ghost_name }
    ensures ok { WritesDated (state S.Store tx.old.conn.now) (state S.Store tx.new.conn.now)
        result (without_all_of numbers.now) }
    ensures survives { LeavesAsBefore (state S.Store tx.old.conn.now) (state S.Store tx.new.conn.now) }
{
    span_rows::remove_spans(tx, numbers)?;
    sought_rows::remove_sought(tx, numbers)
}

/// The spans of the records that are put, what they are looked for by, and their links.
fn put_all_of<S: Alter>(
    alloc: Global,
    tx: &mut Transaction<'_, S>,
    puts: &[Numbered],
) -> Result<(), Unwritten>
    ensures same_reference { tx.new.conn.ghost_name ≡ tx.old.conn.ghost_name }
    ensures ok { HasCleanDisk (state S.Store tx.new.conn.now)
        → OnOk result ((drawn : Drawn) × AreDrawn puts.now drawn
        × FollowsDated (state S.Store tx.old.conn.now) (state S.Store tx.new.conn.now) (with_all_of puts.now drawn)) }
    ensures survives { LeavesAsBefore (state S.Store tx.old.conn.now) (state S.Store tx.new.conn.now) }
{
    span_rows::put_spans(alloc, tx, puts)?;
    sought_rows::put_sought(alloc, tx, puts)?;
    link_rows::put_links(alloc, tx, puts)
}

/// The changes without the spans.
fn write_all<S: Alter>(
    alloc: Global,
    tx: &mut Transaction<'_, S>,
    changes: &Changes,
) -> Result<(), Unwritten>
    ensures same_reference { tx.new.conn.ghost_name ≡ tx.old.conn.ghost_name }
    ensures ok { WritesDated (state S.Store tx.old.conn.now) (state S.Store tx.new.conn.now)
        result (with_changes changes.now) }
    ensures survives { LeavesAsBefore (state S.Store tx.old.conn.now) (state S.Store tx.new.conn.now) }
    ensures shallow { OnOk result (AreShallowChanges changes.now) }
{
    record_rows::write_records(alloc, tx, &changes.puts, &changes.removals)?;
    rows::set_next(tx, changes.next)?;
    write_kept(tx, &changes.kept)?;
    slip_rows::write_slip(alloc, tx, &changes.slip)
}

/// What is kept of the request under its token, where something is.
pub fn write_kept<S: Alter>(tx: &mut Transaction<'_, S>, kept: &Option<Kept>) -> Result<(), Error>
    ensures same_reference { tx.new.conn.ghost_name ≡ tx.old.conn.ghost_name }
    ensures ok { Writes (state S.Store tx.old.conn.now) (state S.Store tx.new.conn.now)
        result (with_kept_written kept.now) }
    ensures survives { LeavesAsBefore (state S.Store tx.old.conn.now) (state S.Store tx.new.conn.now) }
{
    match kept {
        Some(kept) => rows::insert_receipt(tx, &kept.token, &kept.receipt),
        None => Ok(()),
    }
}
