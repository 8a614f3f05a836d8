//! The answer to a row: lines, and one with a full stop.

use crate::asking::ask_tables;
use crate::importing::answer_import;
use crate::session::Session;
use crate::tables::{make, run, show, write};
use record_text::{RefusalKind, Text};
use row_answers::{Noted, answer_noted, nothing, question_of};
use row_words::{Answer, word, words_of};
use sqlite::{Alter, Connection};
use std::alloc::Global;
use std::mem;
use store_rows::read_state;
use store_tables::{check_version, society};

/// The answer to a row. A row that is refused is answered only with its refusal.
pub(crate) fn answer_to<S: Alter + Drop>(
    alloc: Global,
    session: &mut Session<S>,
    row: &str,
) -> Answer {
    let mut out = Answer::new(alloc);
    if let Err(kind) = answer_row(alloc, session, row, &mut out) {
        out.refuse(kind);
    }
    out.say_line(".");
    out
}

fn answer_row<S: Alter + Drop>(
    alloc: Global,
    session: &mut Session<S>,
    row: &str,
    out: &mut Answer,
) -> Result<(), RefusalKind> {
    let words = words_of(alloc, row)?;
    answer(alloc, session, &words, out)
}

/// Answers the words of a row. A row that is no line is the end of the lines before it.
fn answer<S: Alter + Drop>(
    alloc: Global,
    session: &mut Session<S>,
    words: &[String],
    out: &mut Answer,
) -> Result<(), RefusalKind> {
    if word(words, 0) == "line" {
        return session.noted.add_line(alloc, words);
    }
    let answered = answer_asked(alloc, session, words, out);
    session.noted.lines.clear();
    answered
}

fn answer_asked<S: Alter + Drop>(
    alloc: Global,
    session: &mut Session<S>,
    words: &[String],
    out: &mut Answer,
) -> Result<(), RefusalKind> {
    match word(words, 0) {
        "open" | "stage" | "publish" | "remove" | "clear" => {
            answer_import(alloc, session, words, out)
        }
        _ => answer_over(alloc, &mut session.conn, &mut session.noted, words, out),
    }
}

/// Answers a row that is not on an import.
fn answer_over<S: Alter>(
    alloc: Global,
    conn: &mut Connection<S>,
    noted: &mut Noted,
    words: &[String],
    out: &mut Answer,
) -> Result<(), RefusalKind> {
    match word(words, 0) {
        "tables" => answer_question(alloc, conn, words, out),
        "write" => write_planned(alloc, conn, noted, words),
        "create" => make(alloc, conn, word(words, 1)),
        "load" => load(alloc, conn, noted),
        "society" => say_society(alloc, conn, out),
        "version" => check(conn),
        "sql" => {
            run(conn, word(words, 1), out);
            Ok(())
        }
        "query" => {
            show(conn, word(words, 1), out);
            Ok(())
        }
        _ => answer_noted(alloc, noted, words, out),
    }
}

/// Answers a question to the tables.
fn answer_question<S: Alter>(
    alloc: Global,
    conn: &mut Connection<S>,
    words: &[String],
    out: &mut Answer,
) -> Result<(), RefusalKind> {
    let question = question_of(alloc, words)?;
    let asked = ask_tables(alloc, conn, &question, out);
    drop(question);
    asked
}

/// Writes what was noted, with the next number, in one commit. What was noted is gone then, written or not.
fn write_planned<S: Alter>(
    alloc: Global,
    conn: &mut Connection<S>,
    noted: &mut Noted,
    words: &[String],
) -> Result<(), RefusalKind> {
    let mut changes = mem::replace(&mut noted.planned, nothing(alloc));
    changes.next = word(words, 1).parse::<u64>().unwrap_or(0);
    let written = write(alloc, conn, &changes);
    drop(changes);
    written
}

/// Reads the state of the tables. 80: a row `sql` has begun a transaction.
fn load<S: Alter>(
    alloc: Global,
    conn: &mut Connection<S>,
    noted: &mut Noted,
) -> Result<(), RefusalKind> {
    if !conn.is_autocommit() {
        return Err(RefusalKind::Storage);
    }
    noted.state = read_state(alloc, conn)?;
    Ok(())
}

/// Says the society. 80: a row `sql` has begun a transaction.
fn say_society<S: Alter>(
    alloc: Global,
    conn: &mut Connection<S>,
    out: &mut Answer,
) -> Result<(), RefusalKind> {
    if !conn.is_autocommit() {
        return Err(RefusalKind::Storage);
    }
    say_name(society(alloc, conn), out)
}

fn say_name(found: Result<Text, RefusalKind>, out: &mut Answer) -> Result<(), RefusalKind> {
    out.say_words("", found?.as_str());
    Ok(())
}

/// Whether the version is known. 80: a row `sql` has begun a transaction.
fn check<S: Alter>(conn: &mut Connection<S>) -> Result<(), RefusalKind> {
    if !conn.is_autocommit() {
        return Err(RefusalKind::Storage);
    }
    check_version(conn)?;
    Ok(())
}
