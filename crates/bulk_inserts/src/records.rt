//! Rows of `record`, inserted four at a time.

ghost use Rattle.std.specs.Prelude.{◌≡◌, [], ◌∷◌};
ghost use Rattle.sqlite.specs.Held.{state};
ghost use Rattle.store_tables.specs.Calls.{LeavesAsBefore, Writes};
ghost use Rattle.bulk_inserts.specs.Records.{with_records};

use sqlite::{Alter, Error, Transaction, params};
use std::marker::Model;
use store_tables::rows::insert_record;

/// A row of `record`, without its batch.
#[derive(Drop)]
pub struct NewRecord {
    pub number: u32,
    /// The word of the record's kind.
    pub kind: &'static str,
}

impl Model for NewRecord {
    ghost use Rattle.std.specs.Prelude.{ℕ, List};

    ghost Value = { ℕ × List ℕ };

    ghost view = { λ a. (a.number, a.kind.now) };
}

const FOUR_RECORDS: &str =
    "INSERT INTO record (no, kind, batch) VALUES (?1, ?2, ?9), (?3, ?4, ?9), (?5, ?6, ?9), (?7, ?8, ?9)";

/// Inserts rows of `record`, of one batch, in their order. `Err`: one of them is there already, or a statement failed.
pub fn insert_records<S: Alter>(
    tx: &mut Transaction<'_, S>,
    records: &[NewRecord],
    batch: u32,
) -> Result<(), Error>
    ensures same_reference { tx.new.conn.ghost_name ≡ tx.old.conn.ghost_name }
    ensures ok { Writes (state S.Store tx.old.conn.now) (state S.Store tx.new.conn.now)
        result (with_records batch records.now) }
    ensures survives { LeavesAsBefore (state S.Store tx.old.conn.now) (state S.Store tx.new.conn.now) }
{
    let mut rest = records;
    'fours: while let [a, b, c, d, more @ ..] = rest {
        insert_four(tx, batch, a, b, c, d)?;
        rest = more;
    }
    'singles: while let [record, more @ ..] = rest {
        insert_record(tx, record.number, record.kind, batch)?;
        rest = more;
    }
    Ok(())
}

/// Inserts four of them, by one statement.
fn insert_four<S: Alter>(
    tx: &mut Transaction<'_, S>,
    batch: u32,
    a: &NewRecord,
    b: &NewRecord,
    c: &NewRecord,
    d: &NewRecord,
) -> Result<(), Error>
    ensures same_reference { tx.new.conn.ghost_name ≡ tx.old.conn.ghost_name }
    ensures ok { Writes (state S.Store tx.old.conn.now) (state S.Store tx.new.conn.now)
        result (with_records batch (a.now ∷ b.now ∷ c.now ∷ d.now ∷ [])) }
    ensures survives { LeavesAsBefore (state S.Store tx.old.conn.now) (state S.Store tx.new.conn.now) }
{
    tx.execute(
        FOUR_RECORDS,
        params![
            a.number, a.kind, b.number, b.kind, c.number, c.kind, d.number, d.kind, batch
        ],
    )?;
    Ok(())
}
