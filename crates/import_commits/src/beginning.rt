//! The batch of an import is opened.

ghost use Rattle.std.specs.Prelude.{◌≡◌, ◌==◌, ◌⊎◌, true, false, not, IfOk, IfErr, OnOk};
ghost use Rattle.std.specs.List.{AllByRecursion, list_any};
ghost use Rattle.sqlite.specs.State.{HasCleanDisk};
ghost use Rattle.sqlite.specs.Held.{state};
ghost use Rattle.record_text.specs.declared.refusal.RefusalKind.TheVariants.{OutOfMemory, Storage};
ghost use Rattle.store_tables.specs.Calls.{LeavesOnly, Settled};
ghost use Rattle.store_tables.specs.Looking.{IsFailure, Looks};
ghost use Rattle.store_tables.specs.Rows.{BatchRow, Rows, with_batch};
ghost use Rattle.import_commits.specs.Commits.{IsNextBatch, IsWhole, LeavesBegun, LeavesEither};

use archive_state::Changes;
use record_text::RefusalKind;
use sqlite::{Alter, Connection, Error};
use staging::OpenImport;
use std::alloc::Global;
use store_tables::{BatchRow, read_batches, rows};

/// Opens a batch for an import, in one commit. All other batches are to be closed.
///
/// 80: the database failed, or a batch is open already. 1: memory was refused, and nothing is committed.
pub fn begin<S: Alter>(
    alloc: Global,
    conn: &mut Connection<S>,
    changes: Changes,
) -> Result<OpenImport, RefusalKind>
    requires autocommit { conn.old.in_transaction ≡ false }
    ensures whole { IfOk result (λ i. IsWhole i.batch changes i) }
    ensures begun { HasCleanDisk (state S.Store conn.new)
        → IfOk result (λ i. (rows : Rows) → Settled (state S.Store conn.old) rows → IsNextBatch i.batch rows
        × Settled (state S.Store conn.new) (with_batch i.batch true rows)) }
    ensures crash { HasCleanDisk (state S.Store conn.new)
        → (rows : Rows) → Settled (state S.Store conn.old) rows → LeavesBegun (state S.Store conn.new) rows }
    ensures undone { HasCleanDisk (state S.Store conn.new)
        → IfErr result (λ kind. kind ≡ OutOfMemory → (rows : Rows) → Settled (state S.Store conn.old) rows
        → LeavesOnly (state S.Store conn.new) rows) }
    ensures refused { HasCleanDisk (state S.Store conn.new)
        → IfErr result (λ kind. (rows : Rows) → Settled (state S.Store conn.old) rows → IsFailure kind) }
    ensures clean { HasCleanDisk (state S.Store conn.new) → HasCleanDisk (state S.Store conn.old) }
    ensures ended { conn.new.in_transaction ≡ false }
{
    let batch = next_batch(alloc, conn)?;
    let import = OpenImport::new(alloc, batch, changes)?;
    match open_batch(conn, batch) {
        Ok(()) => Ok(import),
        Err(_) => {
            drop(import);
            Err(RefusalKind::Storage)
        }
    }
}

/// The number of the next batch. Storage: a batch is open, or there is no further number.
fn next_batch<S: Alter>(alloc: Global, conn: &mut Connection<S>) -> Result<u32, RefusalKind>
    requires autocommit { conn.old.in_transaction ≡ false }
    ensures looks { Looks (λ rows batch. IsNextBatch batch rows) (state S.Store conn.old) (state S.Store conn.new)
        result }
    ensures ended { conn.new.in_transaction ≡ false }
{
    let batches = read_batches(alloc, conn)?;
    let next = batch_behind(&batches)?;
    Ok(next)
}

/// The number after these batches. Storage: one is open, or there is no further number.
fn batch_behind(batches: &[BatchRow]) -> Result<u32, RefusalKind>
    ensures unused { IfOk result (λ next. list_any (λ (b : BatchRow). b.no == next) batches.now ≡ false) }
    ensures closed { OnOk result (list_any (λ (b : BatchRow). b.is_open) batches.now ≡ false) }
    ensures refused { IfErr result (λ kind. kind ≡ Storage) }
{
    let next = one_behind(batches)?;
    if is_any_open(batches) || is_there(batches, next) {
        return Err(RefusalKind::Storage);
    }
    Ok(next)
}

/// The number after the last of these batches, which are in order.
fn one_behind(batches: &[BatchRow]) -> Result<u32, RefusalKind>
    ensures refused { IfErr result (λ kind. kind ≡ Storage) }
{
    let last = match batches.last() {
        Some(batch) => batch.number,
        None => 0,
    };
    match last.checked_add(1) {
        Some(next) => Ok(next),
        None => Err(RefusalKind::Storage),
    }
}

/// Whether one of these batches is open.
fn is_any_open(batches: &[BatchRow]) -> bool
    ensures { result ≡ list_any (λ (b : BatchRow). b.is_open) batches.now }
{
    batches.iter().any(|batch| batch.is_open)
}

/// Whether one of these batches has the number.
fn is_there(batches: &[BatchRow], number: u32) -> bool
    ensures { result ≡ list_any (λ (b : BatchRow). b.no == number) batches.now }
{
    batches.iter().any(|batch| batch.number == number)
}

/// A batch that is open, in one commit.
#[tactic(auto, using(staging::proofs::Commits::settles))]
fn open_batch<S: Alter>(conn: &mut Connection<S>, batch: u32) -> Result<(), Error>
    requires autocommit { conn.old.in_transaction ≡ false }
    ensures done { HasCleanDisk (state S.Store conn.new) → OnOk result ((rows : Rows)
        → Settled (state S.Store conn.old) rows
        → Settled (state S.Store conn.new) (with_batch batch true rows)) }
    ensures crash { HasCleanDisk (state S.Store conn.new) → (rows : Rows) → Settled (state S.Store conn.old) rows
        → LeavesEither (state S.Store conn.new) rows (with_batch batch true rows) }
    ensures clean { HasCleanDisk (state S.Store conn.new) → HasCleanDisk (state S.Store conn.old) }
    ensures ended { conn.new.in_transaction ≡ false }
{
    let mut tx = conn.transaction();
    rows::insert_batch(&mut tx, batch, true)?;
    tx.commit()
}
