//! A record shown whole.

ghost use Rattle.std.specs.Prelude.{◌≡◌, ◌++◌, IfOk, OnOk, Some, option_map, string_bytes};
ghost use Rattle.std.specs.FinMap as map;
ghost use Rattle.std.specs.List.{flat_map};
ghost use Rattle.archive_state.specs.Referrers.{referrers};
ghost use Rattle.archive_state.specs.Looks.{CountsFailures, Looked};
ghost use Rattle.archive_state.specs.Views.{On};
ghost use Rattle.showing.specs.Details.{at_number, details};
ghost use Rattle.showing.specs.Fields as fields;
ghost use Rattle.showing.specs.Heads as heads;
ghost use Rattle.showing.specs.Named as names;
ghost use Rattle.showing.specs.Shown as shown;
ghost use Rattle.showing.specs.Slips as slips;

use crate::details::push_details;
use crate::entries::{push_entry, push_other};
use crate::events::push_event;
use crate::named::named;
use crate::numbers::{push_all, push_at, push_this};
use crate::persons::{push_family, push_person};
use crate::slips::{push_head, push_slip};
use crate::sources::{push_citation, push_place, push_repo, push_source};
use archive_state::{Slip, View};
use record_kinds::Record;
use record_text::RefusalKind;
use searching::shown_character;
use std::alloc::{AllocError, Global};

/// The record of a number, whole: its line, its fields, the records that they name, and those that name it; or the slip
/// of a number. `None`: no record has the number, and no slip. Nothing is changed.
pub fn show<V: View>(
    alloc: Global,
    view: &mut V,
    number: u32,
) -> Result<Option<String>, RefusalKind>
    ensures shows { On V.View view.old view.new
        (λ c. Looked result (λ found. option_map string_bytes found ≡ shown.shown_at c number)) }
    ensures counts { CountsFailures (V.failed view.old) (V.failed view.new) result }
{
    let found = view.record_at(alloc, number)?;
    show_found(alloc, view, number, found)
}

/// The same of the record that stands at the number, else of the slip. The record is given back here.
fn show_found<V: View>(
    alloc: Global,
    view: &mut V,
    number: u32,
    found: Option<Record>,
) -> Result<Option<String>, RefusalKind>
    ensures shows { On V.View view.old view.new (λ c. Looked result (λ text. option_map string_bytes text
        ≡ shown.shown_of c number found (map.get c.slips number))) }
    ensures counts { CountsFailures (V.failed view.old) (V.failed view.new) result }
{
    match &found {
        None => show_slip(alloc, view, number),
        Some(record) => show_record(alloc, view, number, record),
    }
}

fn show_slip<V: View>(
    alloc: Global,
    view: &mut V,
    number: u32,
) -> Result<Option<String>, RefusalKind>
    ensures shows { On V.View view.old view.new (λ c. Looked result (λ text. option_map string_bytes text
        ≡ option_map (λ s. shown.shown_page (shown.whole_slip c number s)) (map.get c.slips number))) }
    ensures counts { CountsFailures (V.failed view.old) (V.failed view.new) result }
{
    let found = view.slip(alloc, number)?;
    show_slip_found(alloc, view, number, found)
}

/// The slip is given back here.
fn show_slip_found<V: View>(
    alloc: Global,
    view: &mut V,
    number: u32,
    found: Option<Slip>,
) -> Result<Option<String>, RefusalKind>
    ensures shows { On V.View view.old view.new (λ c. Looked result (λ text. option_map string_bytes text
        ≡ option_map (λ s. shown.shown_page (shown.whole_slip c number s)) found)) }
    ensures counts { CountsFailures (V.failed view.old) (V.failed view.new) result }
{
    match &found {
        None => Ok(None),
        Some(slip) => show_this_slip(alloc, view, number, slip),
    }
}

fn show_this_slip<V: View>(
    alloc: Global,
    view: &mut V,
    number: u32,
    slip: &Slip,
) -> Result<Option<String>, RefusalKind>
    ensures shows { On V.View view.old view.new (λ c. Looked result (λ text. option_map string_bytes text
        ≡ Some (shown.shown_page (shown.whole_slip c number slip.now)))) }
    ensures counts { CountsFailures (V.failed view.old) (V.failed view.new) result }
{
    let text = whole_slip(alloc, view, number, slip)?;
    Ok(Some(shown_page(alloc, &text)?))
}

/// The whole text, before control characters are spaces.
fn whole_slip<V: View>(
    alloc: Global,
    view: &mut V,
    number: u32,
    slip: &Slip,
) -> Result<String, RefusalKind>
    ensures shows { On V.View view.old view.new
        (λ c. Looked result (λ s. string_bytes s ≡ shown.whole_slip c number slip.now)) }
    ensures counts { CountsFailures (V.failed view.old) (V.failed view.new) result }
{
    let mut out = own_slip(alloc, number, slip)?;
    push_at(alloc, view, &mut out, "names: ", slip.keep)?;
    Ok(out)
}

fn show_record<V: View>(
    alloc: Global,
    view: &mut V,
    number: u32,
    record: &Record,
) -> Result<Option<String>, RefusalKind>
    ensures shows { On V.View view.old view.new (λ c. Looked result (λ text. option_map string_bytes text
        ≡ Some (shown.shown_page (shown.whole c number «record».now)))) }
    ensures counts { CountsFailures (V.failed view.old) (V.failed view.new) result }
{
    let text = whole(alloc, view, number, record)?;
    Ok(Some(shown_page(alloc, &text)?))
}

/// The whole text, before control characters are spaces.
fn whole<V: View>(
    alloc: Global,
    view: &mut V,
    number: u32,
    record: &Record,
) -> Result<String, RefusalKind>
    ensures shows { On V.View view.old view.new
        (λ c. Looked result (λ s. string_bytes s ≡ shown.whole c number «record».now)) }
    ensures counts { CountsFailures (V.failed view.old) (V.failed view.new) result }
{
    let mut out = own(alloc, number, record)?;
    let numbers = named(alloc, record)?;
    push_all(alloc, view, &mut out, "names: ", &numbers)?;
    push_named_by(alloc, view, &mut out, number)?;
    Ok(out)
}

/// What names the record, by number.
fn push_named_by<V: View>(
    alloc: Global,
    view: &mut V,
    out: &mut String,
    number: u32,
) -> Result<(), RefusalKind>
    ensures shows { On V.View view.old view.new (λ c. Looked result (λ _. string_bytes out.new
        ≡ string_bytes out.old ++ flat_map (shown.naming c.records number) (referrers c number))) }
    ensures counts { CountsFailures (V.failed view.old) (V.failed view.new) result }
{
    let numbers = view.referrers(alloc, number)?;
    push_all_naming(alloc, view, out, number, &numbers)
}

/// The records of these numbers, which name one of that number.
fn push_all_naming<V: View>(
    alloc: Global,
    view: &mut V,
    out: &mut String,
    owner: u32,
    numbers: &[u32],
) -> Result<(), RefusalKind>
    ensures shows { On V.View view.old view.new (λ c. Looked result (λ _. string_bytes out.new
        ≡ string_bytes out.old ++ flat_map (shown.naming c.records owner) numbers.now)) }
    ensures counts { CountsFailures (V.failed view.old) (V.failed view.new) result }
{
    'each: for number in numbers {
        push_naming(alloc, view, out, owner, *number)?;
    }
    Ok(())
}

fn push_naming<V: View>(
    alloc: Global,
    view: &mut V,
    out: &mut String,
    owner: u32,
    number: u32,
) -> Result<(), RefusalKind>
    ensures shows { On V.View view.old view.new (λ c. Looked result (λ _. string_bytes out.new
        ≡ string_bytes out.old ++ shown.naming c.records owner number)) }
    ensures counts { CountsFailures (V.failed view.old) (V.failed view.new) result }
{
    let found = view.record_at(alloc, number)?;
    push_naming_found(alloc, view, out, owner, number, found)
}

/// The same of what stands at the number. The record is given back here.
fn push_naming_found<V: View>(
    alloc: Global,
    view: &mut V,
    out: &mut String,
    owner: u32,
    number: u32,
    found: Option<Record>,
) -> Result<(), RefusalKind>
    ensures shows { On V.View view.old view.new (λ c. Looked result (λ _. string_bytes out.new ≡ string_bytes out.old
        ++ (shown.named_by_word ++ (at_number number found ++ details c.records owner found)))) }
    ensures counts { CountsFailures (V.failed view.old) (V.failed view.new) result }
{
    push_this(alloc, out, "named by: ", number, &found)?;
    push_details(alloc, view, out, owner, &found)
}

/// The line of a slip, its fields and what it changed.
fn own_slip(alloc: Global, number: u32, slip: &Slip) -> Result<String, AllocError>
    ensures { IfOk result (λ s. string_bytes s ≡ slips.slip_fields number slip.now) }
{
    let mut out = String::new(alloc);
    push_slip(alloc, &mut out, number, slip)?;
    Ok(out)
}

/// The line of a record, and its fields.
pub(crate) fn own(alloc: Global, number: u32, record: &Record) -> Result<String, AllocError>
    ensures { IfOk result (λ s. string_bytes s ≡ heads.head number «record».now ++ fields.fields «record».now) }
{
    let mut out = String::new(alloc);
    push_head(alloc, &mut out, number, record)?;
    push_fields(alloc, &mut out, record)?;
    Ok(out)
}

fn push_fields(alloc: Global, out: &mut String, record: &Record) -> Result<(), AllocError>
    ensures { OnOk result (string_bytes out.new ≡ string_bytes out.old ++ fields.fields «record».now) }
{
    match record {
        Record::Person(person) => push_person(alloc, out, person),
        Record::Family(family) => push_family(alloc, out, family),
        Record::Event(event) => push_event(alloc, out, event),
        Record::Place(place) => push_place(alloc, out, place),
        Record::Repo(repo) => push_repo(alloc, out, repo),
        Record::Source(source) => push_source(alloc, out, source),
        Record::Citation(citation) => push_citation(alloc, out, citation),
        Record::Entry(entry) => push_entry(out, entry),
        Record::Other(other) => push_other(alloc, out, other),
    }
}

/// The text as it is printed: each control character but LF, and each that turns the direction, is a space.
pub(crate) fn shown_page(alloc: Global, text: &str) -> Result<String, AllocError>
    ensures { IfOk result (λ s. string_bytes s ≡ shown.shown_page text.now) }
{
    text.chars().map(|c| shown_in_page(c)).collect(alloc)
}

fn shown_in_page(c: char) -> char
    ensures { result ≡ shown.shown_in_page c }
{
    if c == '\n' { '\n' } else { shown_character(c) }
}
