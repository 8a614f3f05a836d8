//! The lines of what is found.

ghost use Rattle.std.specs.Prelude.{◌≡◌, ◌++◌, IfErr, IfOk, OnOk, Some, string_bytes};
ghost use Rattle.std.specs.FinMap as map;
ghost use Rattle.std.specs.List.{flat_map};
ghost use Rattle.record_kinds.specs.declared.record.Record.TheVariants as kind;
ghost use Rattle.record_text.specs.declared.refusal.RefusalKind.TheVariants.{OutOfMemory};
ghost use Rattle.archive_output.specs.Lines as lines;

use crate::paths::push_place;
use archive_state::State;
use record_kinds::{Entry, Event, EventPlace, Record};
use record_text::RefusalKind;
use sheet_lines::push_dated;
use std::alloc::{AllocError, Global};

/// Numbers, one a line. Refused only if out of memory.
pub(crate) fn numbers_text(alloc: Global, found: &[u32]) -> Result<String, RefusalKind>
    ensures text { IfOk result (λ s. string_bytes s ≡ flat_map lines.number_line found.now) }
    ensures refused { IfErr result (λ kind. kind ≡ OutOfMemory) }
{
    let mut out = String::new(alloc);
    push_numbers(&mut out, found)?;
    Ok(out)
}

fn push_numbers(out: &mut String, found: &[u32]) -> Result<(), AllocError>
    ensures { OnOk result (string_bytes out.new ≡ string_bytes out.old ++ flat_map lines.number_line found.now) }
{
    'numbers: for number in found {
        push_number(out, *number)?;
    }
    Ok(())
}

fn push_number(out: &mut String, number: u32) -> Result<(), AllocError>
    ensures { OnOk result (string_bytes out.new ≡ string_bytes out.old ++ lines.number_line number) }
{
    write!(out, "{number}\n")
}

/// Numbers with what is said of their records, one a line. Refused only if out of memory.
pub(crate) fn told_text(alloc: Global, state: &State, found: &[u32]) -> Result<String, RefusalKind>
    ensures refused { IfErr result (λ kind. kind ≡ OutOfMemory) }
    ensures text { IfOk result (λ s. string_bytes s ≡ flat_map (lines.told_line state.now.records) found.now) }
{
    let mut out = String::new(alloc);
    push_lines(alloc, &mut out, state, found)?;
    Ok(out)
}

fn push_lines(
    alloc: Global,
    out: &mut String,
    state: &State,
    found: &[u32],
) -> Result<(), AllocError>
    ensures { OnOk result (string_bytes out.new ≡ string_bytes out.old
        ++ flat_map (lines.told_line state.now.records) found.now) }
{
    'numbers: for number in found {
        push_line(alloc, out, state, *number)?;
    }
    Ok(())
}

fn push_line(alloc: Global, out: &mut String, state: &State, number: u32) -> Result<(), AllocError>
    ensures { OnOk result (string_bytes out.new ≡ string_bytes out.old ++ lines.told_line state.now.records number) }
{
    write!(out, "{number}")?;
    push_told(alloc, out, state, number)?;
    out.push_str("\n")
}

fn push_told(alloc: Global, out: &mut String, state: &State, number: u32) -> Result<(), AllocError>
    ensures { OnOk result (string_bytes out.new ≡ string_bytes out.old
        ++ lines.told state.now.records (map.get state.now.records number)) }
{
    match state.record(number) {
        Some(Record::Event(event)) => push_event(alloc, out, state, event),
        Some(Record::Entry(entry)) => push_entry(alloc, out, state, entry),
        _ => Ok(()),
    }
}

fn push_event(
    alloc: Global,
    out: &mut String,
    state: &State,
    event: &Event,
) -> Result<(), AllocError>
    ensures { OnOk result (string_bytes out.new ≡ string_bytes out.old
        ++ lines.told state.now.records (Some (kind.Event event.now))) }
{
    out.push_str("  ")?;
    out.push_str(event.tag.as_str())?;
    push_dated(out, "  ", event.date.as_ref())?;
    push_place(alloc, out, state, place_number(&event.place))
}

/// The number of the place of an event.
fn place_number(place: &Option<EventPlace>) -> Option<u32>
    ensures { result ≡ lines.place_number place.now }
{
    match place {
        None => None,
        Some(place) => Some(place.place),
    }
}

fn push_entry(
    alloc: Global,
    out: &mut String,
    state: &State,
    entry: &Entry,
) -> Result<(), AllocError>
    ensures { OnOk result (string_bytes out.new ≡ string_bytes out.old
        ++ lines.told state.now.records (Some (kind.Entry entry.now))) }
{
    out.push_str("  ")?;
    out.push_str(entry.kind.as_str())?;
    push_dated(out, "  ", entry.date.as_ref())?;
    push_place(alloc, out, state, entry.place)
}
