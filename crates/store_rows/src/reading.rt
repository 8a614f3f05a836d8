//! The state of an archive, read of its tables.

ghost use Rattle.std.specs.Prelude.{◌≡◌, ◌⊎◌, Bool, false, IfOk, IfErr};
ghost use Rattle.sqlite.specs.State.{HasCleanDisk};
ghost use Rattle.sqlite.specs.Held.{state};
ghost use Rattle.record_text.specs.declared.refusal.RefusalKind.TheVariants.{BadStored};
ghost use Rattle.store_tables.specs.Calls.{Settled, LeavesOnly};
ghost use Rattle.store_tables.specs.Looking.{IsFailure};
ghost use Rattle.store_tables.specs.Rows.{Rows};
ghost use Rattle.store_tables.specs.Schema.{archive_schema};
ghost use Rattle.store_tables.specs.Showing.{ShowsRows};
ghost use Rattle.store_rows.specs.Meaning.{Means, AreReadable};

use crate::state::state_of;
use archive_state::State;
use record_text::RefusalKind;
use sqlite::{Alter, Connection};
use std::alloc::Global;
use store_tables::read_rows;

/// The state that the tables of an archive mean, in one pass over each table. No transaction may be open.
///
/// 40: the rows cannot be read, as where somebody else wrote them. 80: the database failed. 1: memory was refused.
pub fn read_state<S: Alter>(alloc: Global, conn: &mut Connection<S>) -> Result<State, RefusalKind>
    requires autocommit { conn.old.in_transaction ≡ false }
    ensures read { HasCleanDisk (state S.Store conn.new)
        → IfOk result (λ s. (rows : Rows) → Settled (state S.Store conn.old) rows → Means rows s) }
    ensures shown { HasCleanDisk (state S.Store conn.new) → (has_spans : Bool)
        → (state S.Store conn.old).now.schema ≡ archive_schema has_spans
        → IfOk result (λ s. (rows : Rows) × ShowsRows rows (state S.Store conn.old) × Means rows s) }
    ensures same { HasCleanDisk (state S.Store conn.new)
        → IfOk result (λ _. (rows : Rows) → Settled (state S.Store conn.old) rows
        → Settled (state S.Store conn.new) rows) }
    ensures refused { HasCleanDisk (state S.Store conn.new)
        → IfErr result (λ kind. (rows : Rows) → Settled (state S.Store conn.old) rows
        → IsFailure kind ⊎ ((kind ≡ BadStored) × ¬ (AreReadable rows))) }
    ensures crash { HasCleanDisk (state S.Store conn.new)
        → (rows : Rows) → Settled (state S.Store conn.old) rows → LeavesOnly (state S.Store conn.new) rows }
    ensures clean { HasCleanDisk (state S.Store conn.new) → HasCleanDisk (state S.Store conn.old) }
    ensures ended { conn.new.in_transaction ≡ false }
{
    let read = read_rows(alloc, conn)?;
    state_of(alloc, read)
}
