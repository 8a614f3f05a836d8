//! What a state holds, said line by line, and slips and receipts from the words of a row.

use crate::answer::Answer;
use crate::rows::{number, word};
use archive_state::{Change, Slip, State};
use receipts::{Answer as Made, Receipt, Token};
use record_kinds::Record;
use record_text::RefusalKind;
use records::{copy_record, lines_of, record_of};
use std::alloc::{AllocError, Global};
use stored_lines::StoredLine;

/// The token that a word is. 93: it is none.
pub fn token_of(alloc: Global, word: &str) -> Result<Token, RefusalKind> {
    Token::try_new(String::from_str(alloc, word)?).ok_or(RefusalKind::BadToken)
}

/// Says the lines of a record that was found.
pub fn say_found(
    alloc: Global,
    found: Option<&Record>,
    out: &mut Answer,
) -> Result<(), AllocError> {
    match found {
        Some(record) => out.say_lines(&lines_of(alloc, record)?),
        None => out.say_line("none"),
    }
    Ok(())
}

/// Says a receipt: its digest, the first number and how many.
pub fn say_receipt(found: Option<&Receipt>, out: &mut Answer) {
    match found {
        Some(receipt) => {
            out.say_bytes(&receipt.digest);
            out.say_numbers("", &[receipt.answer.first, receipt.answer.count]);
        }
        None => out.say_line("none"),
    }
}

/// Says a slip, with the lines of each record before and after.
pub fn say_slip(alloc: Global, found: Option<&Slip>, out: &mut Answer) -> Result<(), AllocError> {
    let Some(slip) = found else {
        out.say_line("none");
        return Ok(());
    };
    out.say_number("keep ", Some(slip.keep));
    out.say_number("gone ", Some(slip.gone));
    out.say_line(if slip.is_undone { "undone" } else { "done" });
    for change in &slip.changes {
        say_change(alloc, change, out)?;
    }
    Ok(())
}

fn say_change(alloc: Global, change: &Change, out: &mut Answer) -> Result<(), AllocError> {
    out.say_number("change ", Some(change.number));
    say_found(alloc, Some(&change.old), out)?;
    out.say_line("to");
    say_found(alloc, change.new.as_ref(), out)
}

/// The slip of a merge that changed one record: from the lines to what stands at its number.
pub fn slip_of(
    alloc: Global,
    state: &State,
    lines: &[StoredLine],
    words: &[String],
) -> Result<Slip, RefusalKind> {
    let at = number(words, 5);
    let new = standing(alloc, state, at)?;
    let changes = changed(alloc, at, record_of(alloc, lines), new)?;
    Ok(Slip {
        keep: number(words, 3),
        gone: number(words, 4),
        changes,
        is_undone: word(words, 6) == "undone",
    })
}

/// The record at a number, in memory of its own.
fn standing(alloc: Global, state: &State, at: u32) -> Result<Option<Record>, AllocError> {
    match state.record(at) {
        Some(record) => Ok(Some(copy_record(alloc, record)?)),
        None => Ok(None),
    }
}

/// The one change of a number.
fn changed(
    alloc: Global,
    number: u32,
    old: Result<Record, RefusalKind>,
    new: Option<Record>,
) -> Result<Vec<Change>, RefusalKind> {
    match old {
        Ok(old) => Ok(one(alloc, Change { number, old, new })?),
        Err(kind) => {
            drop(new);
            Err(kind)
        }
    }
}

/// A list of one.
fn one<T: Drop>(alloc: Global, item: T) -> Result<Vec<T>, AllocError> {
    let mut items = Vec::new(alloc);
    items.push(item)?;
    Ok(items)
}

/// The receipt of a row: the byte that its digest consists of, and its answer.
pub fn receipt_of(words: &[String]) -> Receipt {
    Receipt {
        digest: [word(words, 3).parse::<u8>().unwrap_or(0); 32],
        answer: Made {
            first: number(words, 4),
            count: number(words, 5),
        },
    }
}
