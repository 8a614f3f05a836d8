//! Rows that change the state.

use crate::asking::say_gone_slip;
use crate::noted::Noted;
use crate::reading::say_gone;
use archive_state::State;
use record_kinds::Record;
use record_text::RefusalKind;
use records::record_of;
use row_words::{Answer, number, receipt_of, say_receipt, slip_of, token_of, word};
use std::alloc::{AllocError, Global};

/// Makes the change that the row asks for, and says what stood there before.
pub(crate) fn change(
    alloc: Global,
    noted: &mut Noted,
    words: &[String],
    out: &mut Answer,
) -> Result<(), RefusalKind> {
    let at = number(words, 2);
    match word(words, 1) {
        "put" => put(alloc, noted, at, out),
        "take" => Ok(say_gone(alloc, noted.state.remove_record(at), out)?),
        "put-slip" => put_slip(alloc, noted, words, out),
        "take-slip" => Ok(say_gone_slip(alloc, noted.state.remove_slip(at), out)?),
        "put-receipt" => put_receipt(alloc, &mut noted.state, words, out),
        "new" => {
            noted.state = State::new(alloc);
            Ok(())
        }
        _ => {
            noted.state.set_next(u64::from(at));
            Ok(())
        }
    }
}

/// Puts the record that is kept as the lines.
fn put(alloc: Global, noted: &mut Noted, at: u32, out: &mut Answer) -> Result<(), RefusalKind> {
    let record = record_of(alloc, &noted.lines)?;
    Ok(put_record(alloc, &mut noted.state, at, record, out)?)
}

fn put_record(
    alloc: Global,
    state: &mut State,
    at: u32,
    record: Record,
    out: &mut Answer,
) -> Result<(), AllocError> {
    let before = state.put_record(at, record)?;
    say_gone(alloc, before, out)
}

fn put_slip(
    alloc: Global,
    noted: &mut Noted,
    words: &[String],
    out: &mut Answer,
) -> Result<(), RefusalKind> {
    let slip = slip_of(alloc, &noted.state, &noted.lines, words)?;
    let before = noted.state.put_slip(number(words, 2), slip)?;
    Ok(say_gone_slip(alloc, before, out)?)
}

/// Keeps a receipt under a token: the byte that its digest consists of, and its answer.
fn put_receipt(
    alloc: Global,
    state: &mut State,
    words: &[String],
    out: &mut Answer,
) -> Result<(), RefusalKind> {
    let token = token_of(alloc, word(words, 2))?;
    let before = state.put_receipt(token, receipt_of(words))?;
    say_receipt(before.as_ref(), out);
    Ok(())
}
