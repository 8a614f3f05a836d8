//! The sheet of a register.

ghost use Rattle.std.specs.Prelude.{◌≡◌, ◌++◌, IfErr, IfOk, Ok, OnOk, Some, string_bytes};
ghost use Rattle.std.specs.FinMap as map;
ghost use Rattle.std.specs.FinMap.{entries};
ghost use Rattle.std.specs.List.{flat_map};
ghost use Rattle.record_kinds.specs.declared.record.Record.TheVariants as kind;
ghost use Rattle.archive_state.specs.Sound.{IsSound};
ghost use Rattle.gedcom_export.specs.Index.{IsIndexOf};
ghost use Rattle.sheets.specs.Answers.{IsRefused};
ghost use Rattle.sheets.specs.Gathered.{gathered};
ghost use Rattle.sheets.specs.Indexed.{indexed};
ghost use Rattle.sheets.specs.Sheets as sheets;

use crate::gathering::index_of;
use archive_state::State;
use gedcom_export::{Index, Rank};
use masking::Shown;
use record_kinds::{Entry, Record, Source};
use record_text::RefusalKind;
use sheet_lines::{push_entry, push_register_head};
use std::alloc::{AllocError, Global};

/// The sheet of a register, which is a source: its title, and its entries by number, each with its mentions. 50: no
/// record that is shown has the number. 51: it is of another kind.
pub fn register_sheet(alloc: Global, shown: &Shown, number: u32) -> Result<String, RefusalKind>
    ensures text { IsSound shown.now
        → IfOk result (λ s. sheets.register_sheet shown.now.records number ≡ Ok (string_bytes s)) }
    ensures refused { IfErr result (λ e. IsRefused e (sheets.register_sheet shown.now.records number)) }
{
    let state = shown.as_state();
    match state.record(number) {
        None => Err(RefusalKind::NoSuch),
        Some(Record::Source(source)) => {
            let index = index_of(alloc, shown)?;
            Ok(sheet_by(alloc, shown, &index, number, source)?)
        }
        Some(_) => Err(RefusalKind::WrongKind),
    }
}

/// The sheet by the index of the masked records.
pub(crate) fn sheet_by(
    alloc: Global,
    shown: &Shown,
    index: &Index,
    number: u32,
    source: &Source,
) -> Result<String, AllocError>
    ensures { IsIndexOf (entries shown.now.records) index.now → IfOk result
        (λ s. string_bytes s ≡ sheets.register_text (gathered shown.now.records) number source.now) }
{
    let mut out = String::new(alloc);
    push_register(&mut out, shown.as_state(), index, number, source)?;
    Ok(out)
}

fn push_register(
    out: &mut String,
    state: &State,
    index: &Index,
    number: u32,
    source: &Source,
) -> Result<(), AllocError>
    ensures { OnOk result (string_bytes out.new ≡ string_bytes out.old
        ++ sheets.register_text (indexed state.now.records index.now) number source.now) }
{
    push_register_head(out, number, &source.title)?;
    push_entries(out, state, index, number)
}

/// Appends the entries of a source, by number.
fn push_entries(
    out: &mut String,
    state: &State,
    index: &Index,
    source: u32,
) -> Result<(), AllocError>
    ensures { OnOk result (string_bytes out.new ≡ string_bytes out.old
        ++ sheets.entries_text (indexed state.now.records index.now) source) }
{
    let numbers = index.numbers(Rank::Entries);
    'numbers: for number in numbers {
        push_entry_at(out, state, source, *number)?;
    }
    Ok(())
}

fn push_entry_at(
    out: &mut String,
    state: &State,
    source: u32,
    number: u32,
) -> Result<(), AllocError>
    ensures { OnOk result (string_bytes out.new ≡ string_bytes out.old
        ++ sheets.entry_in source (map.get state.now.records number)) }
{
    match state.record(number) {
        Some(Record::Entry(entry)) => push_if_of(out, source, entry),
        _ => Ok(()),
    }
}

fn push_if_of(out: &mut String, source: u32, entry: &Entry) -> Result<(), AllocError>
    ensures { OnOk result (string_bytes out.new ≡ string_bytes out.old
        ++ sheets.entry_in source (Some (kind.Entry entry.now))) }
{
    if entry.source == source {
        push_entry(out, entry)
    } else {
        Ok(())
    }
}
