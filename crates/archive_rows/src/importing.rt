//! An import that is staged: opened, written, published, and removed again, each row in commits of its own.

use crate::session::Session;
use record_text::RefusalKind;
use row_answers::nothing;
use row_words::{Answer, number, word};
use sqlite::{Alter, Connection, Error};
use staging::{OpenImport, publish_rows, remove_batch, remove_open, stage_rows};
use std::alloc::Global;
use std::mem;
use store_tables::rows;

/// Answers a row on the import that is open. 80: none is, the database failed, or a row `sql` has begun a transaction.
pub(crate) fn answer_import<S: Alter + Drop>(
    alloc: Global,
    session: &mut Session<S>,
    words: &[String],
    out: &mut Answer,
) -> Result<(), RefusalKind> {
    match word(words, 0) {
        "open" => open(alloc, session, words),
        "stage" => stage_next(alloc, session, out),
        "clear" => {
            session.import = None;
            clear(alloc, &mut session.conn)
        }
        how => {
            let ended = end(session, how);
            session.import = None;
            ended
        }
    }
}

/// Makes an import of what was noted, with the next number after it, in an open batch.
fn open<S: Alter + Drop>(
    alloc: Global,
    session: &mut Session<S>,
    words: &[String],
) -> Result<(), RefusalKind> {
    let mut changes = mem::replace(&mut session.noted.planned, nothing(alloc));
    changes.next = word(words, 2).parse::<u64>().unwrap_or(0);
    let batch = number(words, 1);
    session.import = Some(OpenImport::new(alloc, batch, changes)?);
    let opened = open_batch(&mut session.conn, batch);
    if opened.is_err() {
        session.import = None;
    }
    opened
}

fn open_batch<S: Alter>(conn: &mut Connection<S>, batch: u32) -> Result<(), RefusalKind> {
    if !conn.is_autocommit() {
        return Err(RefusalKind::Storage);
    }
    let mut tx = conn.transaction();
    told(rows::insert_batch(&mut tx, batch, true))?;
    told(tx.commit())
}

/// Writes the next rows, and says whether more are left.
fn stage_next<S: Alter + Drop>(
    alloc: Global,
    session: &mut Session<S>,
    out: &mut Answer,
) -> Result<(), RefusalKind> {
    let Some(import) = &mut session.import else {
        return Err(RefusalKind::Storage);
    };
    stage(alloc, &mut session.conn, import)?;
    out.say_line(if import.has_more() { "more" } else { "all" });
    Ok(())
}

fn stage<S: Alter>(
    alloc: Global,
    conn: &mut Connection<S>,
    import: &mut OpenImport,
) -> Result<(), RefusalKind> {
    if !conn.is_autocommit() {
        return Err(RefusalKind::Storage);
    }
    let mut tx = conn.transaction();
    stage_rows(alloc, &mut tx, import)?;
    told(tx.commit())
}

/// Publishes the import, or takes it out.
fn end<S: Alter + Drop>(session: &mut Session<S>, how: &str) -> Result<(), RefusalKind> {
    let Some(import) = &session.import else {
        return Err(RefusalKind::Storage);
    };
    if how == "publish" {
        publish(&mut session.conn, import)
    } else {
        take_out(&mut session.conn, import)
    }
}

fn publish<S: Alter>(conn: &mut Connection<S>, import: &OpenImport) -> Result<(), RefusalKind> {
    if !conn.is_autocommit() {
        return Err(RefusalKind::Storage);
    }
    let mut tx = conn.transaction();
    told(publish_rows(&mut tx, import))?;
    told(tx.commit())
}

fn take_out<S: Alter>(conn: &mut Connection<S>, import: &OpenImport) -> Result<(), RefusalKind> {
    if !conn.is_autocommit() {
        return Err(RefusalKind::Storage);
    }
    remove_batch(conn, true, import.batch(), import.numbers(), import.links())
}

/// Takes every open batch out.
fn clear<S: Alter>(alloc: Global, conn: &mut Connection<S>) -> Result<(), RefusalKind> {
    if !conn.is_autocommit() {
        return Err(RefusalKind::Storage);
    }
    remove_open(alloc, conn, true)
}

/// 80 for an error of the database.
fn told(done: Result<(), Error>) -> Result<(), RefusalKind> {
    match done {
        Ok(()) => Ok(()),
        Err(_) => Err(RefusalKind::Storage),
    }
}
