//! Values of before: a record as it was before a request, in a row of its own, which no call changes or removes.

ghost use Rattle.std.specs.Prelude.{◌≡◌, false, map};
ghost use Rattle.std.specs.List.{AllByRecursion};
ghost use Rattle.sqlite.specs.Held.{state};
ghost use Rattle.store_tables.specs.Calls.{LeavesAsBefore, WritesDated};
ghost use Rattle.store_tables.specs.Keyed.{pasts_at};
ghost use Rattle.store_tables.specs.Looking.{LooksUnless};
ghost use Rattle.store_tables.specs.Reading.{IsTypedPast, read_past};
ghost use Rattle.store_tables.specs.Rows.{with_past};

use crate::reading::read_later;
use crate::stored::PastRow;
use receipts::Token;
use record_text::RefusalKind;
use sqlite::{Alter, Connection, Error, Transaction, params};
use std::alloc::Global;

const PASTS_AT: &str = "SELECT id, token, text FROM past WHERE no = ?1 ORDER BY id";

/// What a number was before the request of a token: the text of all its stored lines, under a key that is one above
/// the last. `Err`: a statement failed, or there is no such key.
pub fn insert_past<S: Alter>(
    tx: &mut Transaction<'_, S>,
    number: u32,
    token: &Token,
    text: &str,
) -> Result<(), Error>
    ensures same_reference { tx.new.conn.ghost_name ≡ tx.old.conn.ghost_name }
    ensures ok { WritesDated (state S.Store tx.old.conn.now) (state S.Store tx.new.conn.now)
        result (with_past number token.now text.now) }
    ensures survives { LeavesAsBefore (state S.Store tx.old.conn.now) (state S.Store tx.new.conn.now) }
{
    tx.execute(
        "INSERT INTO past (no, token, text) VALUES (?1, ?2, ?3)",
        params![number, token.as_str(), text],
    )?;
    Ok(())
}

/// The values of before of a number, by their keys. Errors as of `read_rows`, but 40 where one cannot be read: its
/// token is none, or its text is not UTF-8.
pub fn pasts_at<S: Alter>(
    alloc: Global,
    conn: &mut Connection<S>,
    number: u32,
) -> Result<Vec<PastRow>, RefusalKind>
    requires autocommit { conn.old.in_transaction ≡ false }
    ensures looks { LooksUnless (λ rows items. items.items ≡ map read_past (pasts_at number rows))
        (λ rows. AllByRecursion IsTypedPast (pasts_at number rows)) (state S.Store conn.old)
        (state S.Store conn.new) result }
    ensures ended { conn.new.in_transaction ≡ false }
{
    read_later(alloc, conn, PASTS_AT, params![number])
}
