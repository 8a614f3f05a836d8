//! What is printed of a page that cannot be read as a sheet.

ghost use Rattle.std.specs.Prelude.{◌≡◌, ◌++◌, IfOk, OnOk, string_bytes};
ghost use Rattle.page_checks.specs.Unread as unread;

use crate::lines::push_cut;
use std::alloc::{AllocError, Global};
use table_pages::{FaultKind, PageFault};

/// The line of the refusal, and one or two that begin with two spaces: what was found, and what to do.
pub fn fault_lines(alloc: Global, fault: &PageFault) -> Result<String, AllocError>
    ensures { IfOk result (λ s. string_bytes s ≡ unread.lines fault.now) }
{
    let mut out = String::new(alloc);
    push_refusal(&mut out, fault.kind, fault.row)?;
    push_hint(alloc, &mut out, fault.kind, fault.column.as_str())?;
    Ok(out)
}

pub(crate) fn push_refusal(out: &mut String, kind: FaultKind, row: usize) -> Result<(), AllocError>
    ensures { OnOk result (string_bytes out.new ≡ string_bytes out.old ++ unread.refusal_line kind row) }
{
    let number = kind.number();
    write!(out, "parish: {number} ")?;
    out.push_str(kind.name())?;
    write!(out, " at row {row}\n")
}

fn push_hint(alloc: Global, out: &mut String, kind: FaultKind, name: &str) -> Result<(), AllocError>
    ensures { OnOk result (string_bytes out.new ≡ string_bytes out.old ++ unread.hint kind name.now) }
{
    match kind {
        FaultKind::NotUtf8 => push_line(
            alloc,
            out,
            "save the sheet as \"CSV UTF-8\", or say --from 1252",
            "",
        ),
        FaultKind::OpenQuote => push_line(
            alloc,
            out,
            "a quote that begins there is not closed",
            "",
        ),
        FaultKind::UnknownColumn => {
            push_line(alloc, out, "no such column: ", name)?;
            push_line(alloc, out, COLUMNS, "")
        }
        FaultKind::RepeatedColumn => push_line(alloc, out, "the column stands twice: ", name),
        FaultKind::MissingColumn => push_line(alloc, out, "the column is missing: ", name),
        _ => Ok(()),
    }
}

fn push_line(alloc: Global, out: &mut String, words: &str, name: &str) -> Result<(), AllocError>
    ensures { OnOk result (string_bytes out.new ≡ string_bytes out.old ++ unread.hint_line words.now name.now) }
{
    out.push_str("  ")?;
    out.push_str(words)?;
    push_cut(alloc, out, name)?;
    out.push_str("\n")
}

const COLUMNS: &str = "there are kind, page, item, date, place, text and roles, like godparent 2";
