//! The tables: what is written to them, and what they show.

use archive_state::Changes;
use record_text::RefusalKind;
use row_words::{Answer, text};
use sqlite::{Alter, Connection, Error, Row};
use sqlite_value::value::ValueRef;
use std::alloc::Global;
use store_rows::write_changes;
use store_tables::create;

/// Makes the tables of a new archive of a society. 58: the name is no text. 80: the database failed, or a row `sql` has
/// begun a transaction.
pub(crate) fn make<S: Alter>(
    alloc: Global,
    conn: &mut Connection<S>,
    name: &str,
) -> Result<(), RefusalKind> {
    if !conn.is_autocommit() {
        return Err(RefusalKind::Storage);
    }
    let name = text(alloc, name)?;
    match create(conn, &name) {
        Ok(()) => Ok(()),
        Err(_) => Err(RefusalKind::Storage),
    }
}

/// Writes changes in one commit.
pub(crate) fn write<S: Alter>(
    alloc: Global,
    conn: &mut Connection<S>,
    changes: &Changes,
) -> Result<(), RefusalKind> {
    if !conn.is_autocommit() {
        return Err(RefusalKind::Storage);
    }
    let mut tx = conn.transaction();
    write_changes(alloc, &mut tx, changes, &[])?;
    match tx.commit() {
        Ok(()) => Ok(()),
        Err(_) => Err(RefusalKind::Storage),
    }
}

/// Runs statements, and says the error of one that fails.
pub(crate) fn run<S: Alter>(conn: &mut Connection<S>, sql: &str, out: &mut Answer) {
    if let Err(error) = conn.execute_batch(sql) {
        out.say_printed(&error);
        out.say("\n");
    }
}

/// Says the rows that a query shows.
pub(crate) fn show<S: Alter>(conn: &mut Connection<S>, sql: &str, out: &mut Answer) {
    match conn.query_all(sql, &[]) {
        Ok(rows) => say_rows(&rows, out),
        Err(error) => {
            out.say_printed(&error);
            out.say("\n");
        }
    }
}

/// Says rows, a line each, with a tab after each value.
fn say_rows(rows: &[Row], out: &mut Answer) {
    for row in rows {
        for at in 0..row.column_count() {
            say_value(row.get_ref(at), out);
        }
        out.say("\n");
    }
}

fn say_value(value: Result<ValueRef<'_>, Error>, out: &mut Answer) {
    match value {
        Ok(ValueRef::Null) => out.say("-"),
        Ok(ValueRef::Int(number)) => out.say_printed(&number),
        Ok(ValueRef::Text(bytes)) => match std::str::from_utf8(bytes) {
            Ok(words) => out.say_escaped(words),
            Err(_) => out.say("?"),
        },
        Ok(ValueRef::Blob(bytes)) => out.say_bytes(bytes),
        _ => out.say("?"),
    }
    out.say("\t");
}
