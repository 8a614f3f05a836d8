//! What is seen of one archive.

use crate::failing::Failure;
use crate::looks::looks_row;
use crate::rows::{refused, row_of_four, said, word};
use archive_state::{Change, Slip, State};
use receipts::{Receipt, Token};
use record_kinds::Record;
use record_text::RefusalKind;
use records::lines_of;
use std::alloc::{AllocError, Global};
use stored_lines::StoredLine;

/// What a row of the tests' own asks of an archive. One that asks nothing has no good token.
pub fn see(
    alloc: Global,
    state: &State,
    asked: &str,
    fields: &[&str],
) -> Result<Vec<u8>, AllocError> {
    match asked {
        "! next" => said(alloc, "next", state.next().to_string(alloc)?.as_bytes()),
        "! show" => show(alloc, state, fields),
        "! slip" => show_slip(alloc, state, fields),
        "! kept" => show_kept(alloc, state, fields),
        "! looks 40" => looks_row(alloc, state, Failure::BadStored, fields),
        "! looks 80" => looks_row(alloc, state, Failure::Storage, fields),
        _ => refused(alloc, "", RefusalKind::BadToken),
    }
}

/// The stored lines of the record at a number, a row for each, or `none`.
fn show(alloc: Global, state: &State, fields: &[&str]) -> Result<Vec<u8>, AllocError> {
    let [number] = fields else {
        return refused(alloc, "", RefusalKind::FieldCount);
    };
    let Ok(number) = number.parse::<u32>() else {
        return refused(alloc, "", RefusalKind::BadRow);
    };
    match state.record(number) {
        Some(record) => line_rows(alloc, record),
        None => word(alloc, "none"),
    }
}

fn line_rows(alloc: Global, record: &Record) -> Result<Vec<u8>, AllocError> {
    let lines = lines_of(alloc, record)?;
    let mut rows = Vec::new(alloc);
    for line in &lines {
        push_line(alloc, &mut rows, line)?;
    }
    Ok(rows)
}

/// Adds depth, tag, text and number of a line, `-` where there is no text or no number.
fn push_line(alloc: Global, rows: &mut Vec<u8>, line: &StoredLine) -> Result<(), AllocError> {
    let depth = line.depth.to_string(alloc)?;
    let target = number_or_dash(alloc, line.target)?;
    let text = match &line.text {
        Some(text) => text.as_str(),
        None => "-",
    };
    let fields = row_of_four(
        alloc,
        depth.as_str(),
        line.tag.as_str(),
        text,
        target.as_str(),
    )?;
    rows.extend_from_slice(fields.as_slice())?;
    Ok(())
}

fn number_or_dash(alloc: Global, number: Option<u32>) -> Result<String, AllocError> {
    match number {
        Some(number) => Ok(number.to_string(alloc)?),
        None => String::from_str(alloc, "-"),
    }
}

/// What is kept of the merge at a number, or `none`: both persons and whether it was undone, and for each number that
/// it changed the lines of before and of after.
fn show_slip(alloc: Global, state: &State, fields: &[&str]) -> Result<Vec<u8>, AllocError> {
    let [number] = fields else {
        return refused(alloc, "", RefusalKind::FieldCount);
    };
    let Ok(number) = number.parse::<u32>() else {
        return refused(alloc, "", RefusalKind::BadRow);
    };
    match state.slip(number) {
        Some(slip) => slip_rows(alloc, slip),
        None => word(alloc, "none"),
    }
}

fn slip_rows(alloc: Global, slip: &Slip) -> Result<Vec<u8>, AllocError> {
    let keep = slip.keep.to_string(alloc)?;
    let gone = slip.gone.to_string(alloc)?;
    let how = if slip.is_undone { "undone" } else { "done" };
    let mut rows = row_of_four(alloc, "slip", keep.as_str(), gone.as_str(), how)?;
    for change in &slip.changes {
        push_change(alloc, &mut rows, change)?;
    }
    Ok(rows)
}

fn push_change(alloc: Global, rows: &mut Vec<u8>, change: &Change) -> Result<(), AllocError> {
    let number = change.number.to_string(alloc)?;
    rows.extend_from_slice(said(alloc, "changed", number.as_bytes())?.as_slice())?;
    rows.extend_from_slice(line_rows(alloc, &change.old)?.as_slice())?;
    let after = match &change.new {
        Some(record) => line_rows(alloc, record)?,
        None => word(alloc, "none")?,
    };
    rows.extend_from_slice(after.as_slice())?;
    Ok(())
}

/// The answer and the digest that are kept under a token, or `none`.
fn show_kept(alloc: Global, state: &State, fields: &[&str]) -> Result<Vec<u8>, AllocError> {
    let [token] = fields else {
        return refused(alloc, "", RefusalKind::FieldCount);
    };
    let Some(token) = Token::try_new(String::from_str(alloc, token)?) else {
        return refused(alloc, "", RefusalKind::BadToken);
    };
    match state.receipt(&token) {
        Some(receipt) => receipt_row(alloc, receipt),
        None => word(alloc, "none"),
    }
}

fn receipt_row(alloc: Global, receipt: &Receipt) -> Result<Vec<u8>, AllocError> {
    let first = receipt.answer.first.to_string(alloc)?;
    let count = receipt.answer.count.to_string(alloc)?;
    let digest = hex::encode(alloc, receipt.digest.as_slice())?;
    row_of_four(
        alloc,
        "kept",
        first.as_str(),
        count.as_str(),
        digest.as_str(),
    )
}
