//! The values that a number had before.

ghost use Rattle.std.specs.Prelude.{◌≡◌, ◌⊎◌, ◌++◌, ◌∷◌, [], false, length, IfErr, IfOk, OnOk};
ghost use Rattle.std.specs.List.{AllByRecursion};
ghost use Rattle.sqlite.specs.Held.{state};
ghost use Rattle.record_text.specs.declared.refusal.RefusalKind.TheVariants.{BadStored, OutOfMemory};
ghost use Rattle.store_tables.specs.Conversion.{EachWith};
ghost use Rattle.store_tables.specs.Looking.{Looks, LooksUnless};
ghost use Rattle.past_values.specs.Recalling.{AreValuesAt, CanBeRecalled, HasRecord, IsRecalled, IsValueOf};

use earlier_values::record_of_past;
use receipts::Token;
use record_kinds::Record;
use record_text::RefusalKind;
use sqlite::{Alter, Connection};
use std::alloc::{AllocError, Global};
use store_tables::pasts::pasts_at;
use store_tables::{PastRow, count_receipts};

/// What a number was before a request: the key of the row that has it, the token of the request, and the record.
#[derive(Drop)]
pub struct PastValue {
    pub id: i64,
    pub token: Token,
    pub record: Record,
}

/// What an archive knows of what a number was before: the values, by the keys of their rows, and how many answers it
/// has kept.
#[derive(Drop)]
pub struct Recalled {
    pub values: Vec<PastValue>,
    pub answers: usize,
}

/// What an archive knows of what a number was before. No transaction may be open. Refusals as of `past_values`.
pub fn recall<S: Alter>(
    alloc: Global,
    conn: &mut Connection<S>,
    number: u32,
) -> Result<Recalled, RefusalKind>
    requires autocommit { conn.old.in_transaction ≡ false }
    ensures looks { LooksUnless (λ rows found. IsRecalled number rows found.answers found.values.items)
        (CanBeRecalled number) (state S.Store conn.old) (state S.Store conn.new) result }
    ensures ended { conn.new.in_transaction ≡ false }
{
    match past_values(alloc, conn, number) {
        Ok(values) => with_answers(conn, values),
        Err(kind) => Err(kind),
    }
}

/// The values, with how many answers the archive has kept.
fn with_answers<S: Alter>(
    conn: &mut Connection<S>,
    values: Vec<PastValue>,
) -> Result<Recalled, RefusalKind>
    requires autocommit { conn.old.in_transaction ≡ false }
    ensures looks { Looks (λ rows found. (found.values ≡ values) × (found.answers ≡ length rows.receipts))
        (state S.Store conn.old) (state S.Store conn.new) result }
    ensures ended { conn.new.in_transaction ≡ false }
{
    match count_receipts(conn) {
        Ok(answers) => Ok(Recalled { values, answers }),
        Err(kind) => Err(kind),
    }
}

/// The values of before of a number, by the keys of their rows. No transaction may be open. 40: such a row cannot be
/// read. 80: the database failed. 1: memory was refused.
pub fn past_values<S: Alter>(
    alloc: Global,
    conn: &mut Connection<S>,
    number: u32,
) -> Result<Vec<PastValue>, RefusalKind>
    requires autocommit { conn.old.in_transaction ≡ false }
    ensures looks { LooksUnless (λ rows values. AreValuesAt number rows values.items) (CanBeRecalled number)
        (state S.Store conn.old) (state S.Store conn.new) result }
    ensures ended { conn.new.in_transaction ≡ false }
{
    match pasts_at(alloc, conn, number) {
        Ok(rows) => values_of(alloc, &rows),
        Err(kind) => Err(kind),
    }
}

/// The value of each row. 40: the text of one is that of no record.
fn values_of(alloc: Global, rows: &[PastRow]) -> Result<Vec<PastValue>, RefusalKind>
    ensures read { IfOk result (λ values. EachWith IsValueOf rows.now values.items) }
    ensures refused { IfErr result (λ kind. (kind ≡ OutOfMemory)
        ⊎ ((kind ≡ BadStored) × ¬ (AllByRecursion HasRecord rows.now))) }
{
    let mut values = Vec::new(alloc);
    'rows: for row in rows {
        let value = value_of(alloc, row)?;
        push_value(&mut values, value)?;
    }
    Ok(values)
}

/// One value more.
fn push_value(values: &mut Vec<PastValue>, value: PastValue) -> Result<(), AllocError>
    ensures { OnOk result (values.new.items ≡ values.old.items ++ value ∷ []) }
{
    values.push(value)?;
    Ok(())
}

/// The value of a row. 40: its text is that of no record.
fn value_of(alloc: Global, row: &PastRow) -> Result<PastValue, RefusalKind>
    ensures read { IfOk result (IsValueOf row.now) }
    ensures refused { IfErr result (λ kind. (kind ≡ OutOfMemory) ⊎ ((kind ≡ BadStored) × ¬ (HasRecord row.now))) }
{
    let record = record_of_past(alloc, &row.text)?;
    let token = row.token.copy(alloc)?;
    Ok(PastValue {
        id: row.id,
        token,
        record,
    })
}
