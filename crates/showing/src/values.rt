//! A value that a record has, or had before.

ghost use Rattle.std.specs.Prelude.{◌≡◌, ◌++◌, OnOk, string_bytes};
ghost use Rattle.std.specs.List.{flat_map};
ghost use Rattle.archive_state.specs.Looks.{CountsFailures, Looked};
ghost use Rattle.archive_state.specs.Views.{On};
ghost use Rattle.showing.specs.Values as values;

use crate::named::named;
use crate::showing::{own, shown_page};
use crate::slips::push_head;
use archive_state::View;
use record_kinds::Record;
use record_text::RefusalKind;
use std::alloc::{AllocError, Global};

/// A value of the record of a number: its line, its fields, and by a line each what they name, as it is now, or that it
/// is removed. Nothing is changed.
pub fn show_value<V: View>(
    alloc: Global,
    view: &mut V,
    number: u32,
    record: &Record,
) -> Result<String, RefusalKind>
    ensures shows { On V.View view.old view.new
        (λ c. Looked result (λ s. string_bytes s ≡ values.value c.records number «record».now)) }
    ensures counts { CountsFailures (V.failed view.old) (V.failed view.new) result }
{
    let text = whole_value(alloc, view, number, record)?;
    Ok(shown_page(alloc, &text)?)
}

/// The whole text, before control characters are spaces.
fn whole_value<V: View>(
    alloc: Global,
    view: &mut V,
    number: u32,
    record: &Record,
) -> Result<String, RefusalKind>
    ensures shows { On V.View view.old view.new
        (λ c. Looked result (λ s. string_bytes s ≡ values.whole_value c.records number «record».now)) }
    ensures counts { CountsFailures (V.failed view.old) (V.failed view.new) result }
{
    let mut out = own(alloc, number, record)?;
    let numbers = named(alloc, record)?;
    push_all_named(alloc, view, &mut out, &numbers)?;
    Ok(out)
}

/// A line for each of these numbers.
fn push_all_named<V: View>(
    alloc: Global,
    view: &mut V,
    out: &mut String,
    numbers: &[u32],
) -> Result<(), RefusalKind>
    ensures shows { On V.View view.old view.new (λ c. Looked result (λ _. string_bytes out.new
        ≡ string_bytes out.old ++ flat_map (values.named_line c.records) numbers.now)) }
    ensures counts { CountsFailures (V.failed view.old) (V.failed view.new) result }
{
    'each: for number in numbers {
        push_named(alloc, view, out, *number)?;
    }
    Ok(())
}

fn push_named<V: View>(
    alloc: Global,
    view: &mut V,
    out: &mut String,
    number: u32,
) -> Result<(), RefusalKind>
    ensures shows { On V.View view.old view.new (λ c. Looked result (λ _. string_bytes out.new
        ≡ string_bytes out.old ++ values.named_line c.records number)) }
    ensures counts { CountsFailures (V.failed view.old) (V.failed view.new) result }
{
    let found = view.record_at(alloc, number)?;
    Ok(push_found(alloc, out, number, found)?)
}

/// The line of what was found at a number. The record is given back here.
fn push_found(
    alloc: Global,
    out: &mut String,
    number: u32,
    found: Option<Record>,
) -> Result<(), AllocError>
    ensures { OnOk result (string_bytes out.new
        ≡ string_bytes out.old ++ (values.names_word ++ values.at_number number found)) }
{
    out.push_str("names: ")?;
    push_this(alloc, out, number, &found)
}

fn push_this(
    alloc: Global,
    out: &mut String,
    number: u32,
    found: &Option<Record>,
) -> Result<(), AllocError>
    ensures { OnOk result (string_bytes out.new ≡ string_bytes out.old ++ values.at_number number «found».now) }
{
    match found {
        None => write!(out, "{number}  removed\n"),
        Some(record) => push_head(alloc, out, number, record),
    }
}
