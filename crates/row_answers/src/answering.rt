//! The answer to a row that needs no tables.

use crate::asking::{Question, ask, ask_state, question_of};
use crate::changing::change;
use crate::lines::say_of_lines;
use crate::noted::Noted;
use crate::planning::plan;
use crate::printed::{say_refusal, say_refusals, say_report};
use crate::reading::say_read;
use crate::values::{say_copied, say_value};
use record_text::RefusalKind;
use row_words::{Answer, word};
use std::alloc::Global;

/// Answers the words of a row that needs no tables. The refusals are those of what is asked: 40, 58, 90, 93 or want of
/// memory.
pub fn answer_noted(
    alloc: Global,
    noted: &mut Noted,
    words: &[String],
    out: &mut Answer,
) -> Result<(), RefusalKind> {
    match word(words, 0) {
        "state" | "view" => answer_question(alloc, noted, words, out),
        "change" => change(alloc, noted, words, out),
        "read" => say_read(alloc, &noted.lines, word(words, 1), out),
        "plan" => plan(alloc, noted, words),
        "lines" => Ok(say_of_lines(alloc, &noted.lines, words, out)?),
        _ => answer_plain(alloc, words, out),
    }
}

/// Answers a question to the state or to a view of it.
fn answer_question(
    alloc: Global,
    noted: &Noted,
    words: &[String],
    out: &mut Answer,
) -> Result<(), RefusalKind> {
    let question = question_of(alloc, words)?;
    let asked = ask_noted(alloc, noted, word(words, 0), &question, out);
    drop(question);
    asked
}

fn ask_noted(
    alloc: Global,
    noted: &Noted,
    whom: &str,
    question: &Question,
    out: &mut Answer,
) -> Result<(), RefusalKind> {
    match whom {
        "state" => ask_state(alloc, &noted.state, question, out),
        _ => ask(alloc, &mut &noted.state, question, out),
    }
}

/// Answers what is asked of no record.
fn answer_plain(alloc: Global, words: &[String], out: &mut Answer) -> Result<(), RefusalKind> {
    match word(words, 0) {
        "copied" => say_copied(alloc, word(words, 1), out),
        "refusals" => {
            say_refusals(out);
            Ok(())
        }
        "refusal" => {
            say_refusal(words, out);
            Ok(())
        }
        "report" => {
            say_report(words, out);
            Ok(())
        }
        kind => Ok(say_value(alloc, kind, word(words, 1), out)?),
    }
}
