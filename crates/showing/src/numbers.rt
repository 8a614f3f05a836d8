//! Numbers, each with the line of what stands there.

ghost use Rattle.std.specs.Prelude.{◌≡◌, ◌++◌, OnOk, string_bytes};
ghost use Rattle.std.specs.List.{flat_map};
ghost use Rattle.archive_state.specs.Looks.{CountsFailures, Looked};
ghost use Rattle.archive_state.specs.Views.{On};
ghost use Rattle.showing.specs.Details as details;

use crate::slips::push_head;
use archive_state::View;
use record_kinds::Record;
use record_text::RefusalKind;
use std::alloc::{AllocError, Global};

/// A line for each of the numbers, after a word.
pub(crate) fn push_all<V: View>(
    alloc: Global,
    view: &mut V,
    out: &mut String,
    word: &str,
    numbers: &[u32],
) -> Result<(), RefusalKind>
    ensures shows { On V.View view.old view.new (λ c. Looked result (λ _. string_bytes out.new
        ≡ string_bytes out.old ++ flat_map (details.line_at word.now c.records) numbers.now)) }
    ensures counts { CountsFailures (V.failed view.old) (V.failed view.new) result }
{
    'each: for number in numbers {
        push_at(alloc, view, out, word, *number)?;
    }
    Ok(())
}

pub(crate) fn push_at<V: View>(
    alloc: Global,
    view: &mut V,
    out: &mut String,
    word: &str,
    number: u32,
) -> Result<(), RefusalKind>
    ensures shows { On V.View view.old view.new (λ c. Looked result (λ _. string_bytes out.new
        ≡ string_bytes out.old ++ details.line_at word.now c.records number)) }
    ensures counts { CountsFailures (V.failed view.old) (V.failed view.new) result }
{
    let found = view.record_at(alloc, number)?;
    match push_found(alloc, out, word, number, found) {
        Ok(()) => Ok(()),
        Err(_) => Err(RefusalKind::OutOfMemory),
    }
}

/// A number with what stands there, after a word. The record is given back here.
fn push_found(
    alloc: Global,
    out: &mut String,
    word: &str,
    number: u32,
    found: Option<Record>,
) -> Result<(), AllocError>
    ensures { OnOk result (string_bytes out.new
        ≡ string_bytes out.old ++ (word.now ++ details.at_number number found)) }
{
    push_this(alloc, out, word, number, &found)
}

/// A number with this, which stands there, after a word.
pub(crate) fn push_this(
    alloc: Global,
    out: &mut String,
    word: &str,
    number: u32,
    found: &Option<Record>,
) -> Result<(), AllocError>
    ensures { OnOk result (string_bytes out.new
        ≡ string_bytes out.old ++ (word.now ++ details.at_number number «found».now)) }
{
    out.push_str(word)?;
    match found {
        None => write!(out, "{number}\n"),
        Some(record) => push_head(alloc, out, number, record),
    }
}
