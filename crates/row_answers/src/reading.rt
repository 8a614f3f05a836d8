//! Records read from lines.

use crate::fields::say_record;
use archive_state::is_naming;
use record_kinds::Record;
use record_text::RefusalKind;
use records::{copy_record, lines_of, record_of};
use row_words::{Answer, say_found};
use std::alloc::{AllocError, Global};
use stored_lines::StoredLine;

/// Says what is asked of the record that is kept as the lines. 40: no record is.
pub(crate) fn say_read(
    alloc: Global,
    lines: &[StoredLine],
    asked: &str,
    out: &mut Answer,
) -> Result<(), RefusalKind> {
    let record = record_of(alloc, lines)?;
    let said = say_asked(alloc, &record, asked, out);
    drop(record);
    Ok(said?)
}

fn say_asked(
    alloc: Global,
    record: &Record,
    asked: &str,
    out: &mut Answer,
) -> Result<(), AllocError> {
    match asked {
        "fields" => {
            say_record(record, out);
            Ok(())
        }
        "names" => {
            say_names(record, out);
            Ok(())
        }
        "copy" => say_gone(alloc, Some(copy_record(alloc, record)?), out),
        _ => say_kept(alloc, record, out),
    }
}

/// Says which of the numbers from 1 to 9 the record names.
fn say_names(record: &Record, out: &mut Answer) {
    out.say("names");
    for number in 1..=9u32 {
        if is_naming(record, number) {
            out.say(" ");
            out.say_printed(&number);
        }
    }
    out.say("\n");
}

/// Says the lines that a record is kept as.
fn say_kept(alloc: Global, record: &Record, out: &mut Answer) -> Result<(), AllocError> {
    out.say_lines(&lines_of(alloc, record)?);
    Ok(())
}

/// Says the lines of a record that is given away.
pub(crate) fn say_gone(
    alloc: Global,
    gone: Option<Record>,
    out: &mut Answer,
) -> Result<(), AllocError> {
    let said = say_found(alloc, gone.as_ref(), out);
    drop(gone);
    said
}
