//! The history of a number.

ghost use Rattle.std.specs.Prelude.{◌≡◌, ◌++◌, OnOk, map, option_map, vec_items};
ghost use Rattle.std.specs.List.{flat_map};
ghost use Rattle.archive_state.specs.Looks.{CountsFailures, Looked};
ghost use Rattle.archive_state.specs.Views.{On};
ghost use Rattle.put_back.specs.Back as back;
ghost use Rattle.histories.specs.History as histories;
ghost use Rattle.histories.specs.Remarks as remarks;
ghost use Rattle.histories.specs.Rows as rows;

use crate::remarks::push_remarks;
use crate::rows::push_rows_back;
use archive_state::View;
use past_values::PastValue;
use record_kinds::Record;
use record_text::RefusalKind;
use showing::show_value;
use std::alloc::{AllocError, Global};

/// What a number was before, by these values, which are those of the table, and what it is now; then the rows that put
/// back the last value, under tokens that count the answers of the archive. `None`: there is no value, before or now.
/// Nothing is changed.
pub fn history<V: View>(
    alloc: Global,
    view: &mut V,
    answers: usize,
    number: u32,
    values: &[PastValue],
) -> Result<Option<Vec<u8>>, RefusalKind>
    ensures shows { On V.View view.old view.new (λ c. Looked result (λ found. option_map vec_items found
        ≡ histories.history answers c.records number values.now)) }
    ensures counts { CountsFailures (V.failed view.old) (V.failed view.new) result }
{
    let found = view.record_at(alloc, number)?;
    history_of(alloc, view, answers, number, values, found)
}

/// The same with what stands at the number, which is given back here.
fn history_of<V: View>(
    alloc: Global,
    view: &mut V,
    answers: usize,
    number: u32,
    values: &[PastValue],
    now: Option<Record>,
) -> Result<Option<Vec<u8>>, RefusalKind>
    ensures shows { On V.View view.old view.new (λ c. Looked result (λ found. option_map vec_items found
        ≡ histories.history_of answers c.records number values.now now)) }
    ensures counts { CountsFailures (V.failed view.old) (V.failed view.new) result }
{
    if values.is_empty() && now.is_none() {
        return Ok(None);
    }
    Ok(Some(whole(alloc, view, answers, number, values, &now)?))
}

fn whole<V: View>(
    alloc: Global,
    view: &mut V,
    answers: usize,
    number: u32,
    values: &[PastValue],
    now: &Option<Record>,
) -> Result<Vec<u8>, RefusalKind>
    ensures shows { On V.View view.old view.new (λ c. Looked result (λ found. found.items
        ≡ histories.whole answers c.records number values.now «now».now)) }
    ensures counts { CountsFailures (V.failed view.old) (V.failed view.new) result }
{
    let mut out = Vec::new(alloc);
    push_values(alloc, view, &mut out, number, values)?;
    push_now(alloc, view, &mut out, number, now)?;
    push_back(alloc, &mut out, answers, number, values, now)?;
    Ok(out)
}

fn push_values<V: View>(
    alloc: Global,
    view: &mut V,
    out: &mut Vec<u8>,
    number: u32,
    values: &[PastValue],
) -> Result<(), RefusalKind>
    ensures shows { On V.View view.old view.new (λ c. Looked result (λ _. out.new.items
        ≡ out.old.items ++ flat_map (histories.past_part c.records number) values.now)) }
    ensures counts { CountsFailures (V.failed view.old) (V.failed view.new) result }
{
    'each: for value in values {
        push_value(alloc, view, out, number, value)?;
    }
    Ok(())
}

fn push_value<V: View>(
    alloc: Global,
    view: &mut V,
    out: &mut Vec<u8>,
    number: u32,
    value: &PastValue,
) -> Result<(), RefusalKind>
    ensures shows { On V.View view.old view.new (λ c. Looked result (λ _. out.new.items
        ≡ out.old.items ++ histories.past_part c.records number value.now)) }
    ensures counts { CountsFailures (V.failed view.old) (V.failed view.new) result }
{
    push_head(alloc, out, value)?;
    let text = show_value(alloc, view, number, &value.record)?;
    Ok(push_text(out, text.as_str())?)
}

/// The key of the row, and the token of the request.
fn push_head(alloc: Global, out: &mut Vec<u8>, value: &PastValue) -> Result<(), AllocError>
    ensures { OnOk result (out.new.items ≡ out.old.items ++ histories.head value.now) }
{
    let id = value.id.unsigned_abs();
    let token = value.token.as_str();
    let line = format!(in alloc; "{id} {token}\n")?;
    push_text(out, line.as_str())
}

fn push_text(out: &mut Vec<u8>, text: &str) -> Result<(), AllocError>
    ensures { OnOk result (out.new.items ≡ out.old.items ++ text.now) }
{
    out.extend_from_slice(text.as_bytes())
}

fn push_now<V: View>(
    alloc: Global,
    view: &mut V,
    out: &mut Vec<u8>,
    number: u32,
    now: &Option<Record>,
) -> Result<(), RefusalKind>
    ensures shows { On V.View view.old view.new (λ c. Looked result (λ _. out.new.items
        ≡ out.old.items ++ histories.now_part c.records number «now».now)) }
    ensures counts { CountsFailures (V.failed view.old) (V.failed view.new) result }
{
    match now {
        None => Ok(push_text(out, "removed\n")?),
        Some(record) => push_this(alloc, view, out, number, record),
    }
}

fn push_this<V: View>(
    alloc: Global,
    view: &mut V,
    out: &mut Vec<u8>,
    number: u32,
    record: &Record,
) -> Result<(), RefusalKind>
    ensures shows { On V.View view.old view.new (λ c. Looked result (λ _. out.new.items
        ≡ out.old.items ++ histories.this_part c.records number «record».now)) }
    ensures counts { CountsFailures (V.failed view.old) (V.failed view.new) result }
{
    push_text(out, "now\n")?;
    let text = show_value(alloc, view, number, record)?;
    Ok(push_text(out, text.as_str())?)
}

/// The rows that put back the last value.
fn push_back(
    alloc: Global,
    out: &mut Vec<u8>,
    answers: usize,
    number: u32,
    values: &[PastValue],
    now: &Option<Record>,
) -> Result<(), AllocError>
    ensures { OnOk result (out.new.items
        ≡ out.old.items ++ histories.back_part answers number values.now «now».now) }
{
    match values.last() {
        None => Ok(()),
        Some(last) => push_back_to(alloc, out, answers, number, last, now),
    }
}

fn push_back_to(
    alloc: Global,
    out: &mut Vec<u8>,
    answers: usize,
    number: u32,
    last: &PastValue,
    now: &Option<Record>,
) -> Result<(), AllocError>
    ensures { OnOk result (out.new.items
        ≡ out.old.items ++ histories.back_to answers number last.now «now».now) }
{
    match now {
        None => push_text(out, "no row puts back a removed record\n"),
        Some(record) => push_changes(alloc, out, answers, number, &last.record, record),
    }
}

/// The rows, and what they do not put back.
fn push_changes(
    alloc: Global,
    out: &mut Vec<u8>,
    answers: usize,
    number: u32,
    last: &Record,
    now: &Record,
) -> Result<(), AllocError>
    ensures { OnOk result (out.new.items ≡ out.old.items
        ++ (rows.rows (rows.front answers number) 1 (back.rows_back number last.now now.now)
        ++ remarks.remarks last.now now.now)) }
{
    push_rows_back(alloc, out, answers, number, last, now)?;
    push_remarks(alloc, out, last, now)
}
