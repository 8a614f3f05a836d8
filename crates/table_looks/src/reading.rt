//! The tables of an archive, read whole and judged.

ghost use Rattle.std.specs.Prelude.{◌≡◌, ◌⊎◌, false, true, IfErr, IfOk, OnOk};
ghost use Rattle.sqlite.specs.State.{HasCleanDisk};
ghost use Rattle.sqlite.specs.Held.{state};
ghost use Rattle.record_text.specs.declared.refusal.RefusalKind.TheVariants.{BadStored};
ghost use Rattle.store_tables.specs.Calls.{Settled};
ghost use Rattle.store_tables.specs.Looking.{IsFailure, Looks};
ghost use Rattle.store_tables.specs.Rows.{Rows};
ghost use Rattle.store_tables.specs.Schema.{archive_schema};
ghost use Rattle.store_tables.specs.Showing.{ShowsRows};
ghost use Rattle.store_rows.specs.Meaning.{AreReadable, Means};
ghost use Rattle.table_looks.specs.Judging.{
  Judges,
  KeepsTables,
  ShowsBehind,
  ShowsBeside,
  Tells,
  beside_in,
  without_fault,
};

use crate::beside::Beside;
use crate::flaw::Flaw;
use crate::judging::judge;
use archive_state::State;
use record_text::RefusalKind;
use sqlite::{Alter, Connection};
use std::alloc::Global;
use store_rows::read_state;
use store_tables::links::read_links;
use store_tables::soughts::read_soughts;
use store_tables::spans::read_spans;

/// How many records the tables of an archive have, where they are good. Nothing is written.
///
/// 40: the tables are not good: they cannot be read, as where somebody else wrote them, or what they mean is not sound,
/// or a record does not have the span of its date, its links, or what it is looked for by, and then what is wrong is
/// reported. 80: the database failed. 1: memory was refused.
pub fn judge_tables<S: Alter>(
    alloc: Global,
    conn: &mut Connection<S>,
) -> Result<u32, (RefusalKind, Option<Flaw>)>
    requires autocommit { conn.old.in_transaction ≡ false }
    ensures judged { HasCleanDisk (state S.Store conn.new)
        → Judges (state S.Store conn.old) (without_fault result) }
    ensures told { HasCleanDisk (state S.Store conn.new) → Tells (state S.Store conn.old) result }
    ensures same { HasCleanDisk (state S.Store conn.new) → OnOk result ((rows : Rows)
        → Settled (state S.Store conn.old) rows → Settled (state S.Store conn.new) rows) }
    ensures kept { HasCleanDisk (state S.Store conn.new)
        → KeepsTables (state S.Store conn.old) (state S.Store conn.new) }
    ensures ended { conn.new.in_transaction ≡ false }
{
    match read_tables(alloc, conn) {
        Ok((beside, held)) => judge(alloc, &held, beside),
        Err(kind) => Err((kind, None)),
    }
}

/// What the tables have beside records, and the state that they mean.
fn read_tables<S: Alter>(
    alloc: Global,
    conn: &mut Connection<S>,
) -> Result<(Beside, State), RefusalKind>
    requires autocommit { conn.old.in_transaction ≡ false }
    ensures read { HasCleanDisk (state S.Store conn.new) → IfOk result (λ it. (rows : Rows)
        → Settled (state S.Store conn.old) rows
        → (rows.has_spans ≡ true → it.0 ≡ beside_in rows) × Means rows it.1) }
    ensures shown { HasCleanDisk (state S.Store conn.new)
        → (state S.Store conn.old).now.schema ≡ archive_schema true
        → IfOk result (λ it. ShowsBeside it.0 (state S.Store conn.old)
        × (rows : Rows) × ShowsRows rows (state S.Store conn.old) × Means rows it.1) }
    ensures same { HasCleanDisk (state S.Store conn.new) → IfOk result (λ _. (rows : Rows)
        → Settled (state S.Store conn.old) rows → Settled (state S.Store conn.new) rows) }
    ensures refused { HasCleanDisk (state S.Store conn.new) → IfErr result (λ kind. (rows : Rows)
        → Settled (state S.Store conn.old) rows
        → IsFailure kind ⊎ ((kind ≡ BadStored) × ¬ (AreReadable rows))) }
    ensures kept { HasCleanDisk (state S.Store conn.new)
        → KeepsTables (state S.Store conn.old) (state S.Store conn.new) }
    ensures ended { conn.new.in_transaction ≡ false }
{
    let beside = read_beside(alloc, conn)?;
    let held = read_state(alloc, conn)?;
    Ok((beside, held))
}

/// What the tables have beside records.
fn read_beside<S: Alter>(alloc: Global, conn: &mut Connection<S>) -> Result<Beside, RefusalKind>
    requires autocommit { conn.old.in_transaction ≡ false }
    ensures looks { Looks (λ rows b. rows.has_spans ≡ true → b ≡ beside_in rows) (state S.Store conn.old)
        (state S.Store conn.new) result }
    ensures shown { HasCleanDisk (state S.Store conn.new)
        → (state S.Store conn.old).now.schema ≡ archive_schema true
        → IfOk result (λ b. ShowsBehind b (state S.Store conn.old) (state S.Store conn.new)) }
    ensures ended { conn.new.in_transaction ≡ false }
{
    let spans = read_spans(alloc, conn)?;
    let links = read_links(alloc, conn)?;
    let soughts = read_soughts(alloc, conn)?;
    Ok(Beside {
        spans,
        links,
        soughts,
    })
}
