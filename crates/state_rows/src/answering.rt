//! The answer to a row: lines, and one with a full stop.

use crate::files::{say_batch, say_batch_size};
use crate::html::say_html;
use crate::masked::{day, say_how_many, say_living, say_shown};
use crate::session::Session;
use crate::sheet::say_sheet;
use crate::visits::{say_html_visit, say_visit};
use archive_state::State;
use record_text::RefusalKind;
use row_words::{Answer, line_of, number, word, words_of};
use std::alloc::Global;

/// The answer to a row. A row that is refused is answered only with its refusal.
pub(crate) fn answer_to(alloc: Global, session: &mut Session, row: &str) -> Answer {
    let mut out = Answer::new(alloc);
    if let Err(kind) = answer_row(alloc, session, row, &mut out) {
        out.refuse(kind);
    }
    out.say_line(".");
    out
}

/// Answers a row. A row that is no line is the end of the lines before it.
fn answer_row(
    alloc: Global,
    session: &mut Session,
    row: &str,
    out: &mut Answer,
) -> Result<(), RefusalKind> {
    let words = words_of(alloc, row)?;
    if word(&words, 0) == "line" {
        let line = line_of(alloc, &words)?;
        return Ok(session.push(line)?);
    }
    let answered = answer(alloc, session, &words, out);
    session.lines.clear();
    answered
}

fn answer(
    alloc: Global,
    session: &mut Session,
    words: &[String],
    out: &mut Answer,
) -> Result<(), RefusalKind> {
    match word(words, 0) {
        "put" => session.put(alloc, number(words, 1)),
        "living" => say_living(alloc, &session.state, words, out),
        "shown" => say_shown(alloc, &session.state, day(words, 1), out),
        "count" => say_how_many(alloc, &session.state, day(words, 1), out),
        "sheet" => say_sheet(alloc, &session.state, words, out),
        "html" => say_html(alloc, &session.state, words, out),
        "visit" => say_visit(alloc, &session.state, words, out),
        "html-visit" => say_html_visit(alloc, &session.state, words, out),
        "batch" => Ok(say_batch(alloc, &session.state, word(words, 1), out)?),
        "size" => {
            say_batch_size(alloc, &session.state, word(words, 1), out);
            Ok(())
        }
        "new" => {
            session.state = State::new(alloc);
            Ok(())
        }
        _ => {
            session.state.set_next(u64::from(number(words, 1)));
            Ok(())
        }
    }
}
