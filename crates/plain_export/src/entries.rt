//! What a register entry adds: citations, or a note.

ghost use Rattle.std.specs.Prelude.{◌≡◌, ◌++◌, ◌∷◌, [], IfErr, IfOk, OnOk, map, string_bytes};
ghost use Rattle.std.specs.BTreeMap.{get_by_text};
ghost use Rattle.std.specs.List.{filter};
ghost use Rattle.gedcom_export.specs.Shown.{around_in};
ghost use Rattle.plain_export.specs.Added as adding;
ghost use Rattle.plain_export.specs.Fitting.{AddedFit, EntryFits, Fails, Fits, LinesFit};
ghost use Rattle.plain_export.specs.declared.noted.Noted as declared;

use crate::added::{Added, add};
use crate::firsts::Firsts;
use crate::lines::{line, put_line, put_text, text_line, words_line};
use crate::noted::{Noted, cited, is_of, note_line, noted_all};
use crate::pages::page_line;
use crate::words::{entry_words, page_words};
use gedcom_export::Index;
use node_writing::Named;
use record_fields::Date;
use record_kinds::Entry;
use record_text::{RefusalKind, Text};
use std::alloc::{AllocError, Global};
use stored_lines::{Carried, Value};

/// Puts the line of a date, where there is one.
fn put_date(alloc: Global, date: &Option<Date>, below: &mut Vec<Carried>) -> Result<(), AllocError>
    ensures { OnOk result (below.new.items ≡ below.old.items ++ adding.date_lines date.now) }
{
    if let Some(date) = date {
        put_line(below, text_line(alloc, "DATE", date.text(alloc)?)?)?;
    }
    Ok(())
}

/// The date and the text of an entry.
fn below_data(alloc: Global, entry: &Entry) -> Result<Vec<Carried>, AllocError>
    ensures { IfOk result (λ made. made.items ≡ adding.below_data entry.now) }
{
    let mut below = Vec::new(alloc);
    put_date(alloc, &entry.date, &mut below)?;
    put_text(alloc, "TEXT", &entry.text, &mut below)?;
    Ok(below)
}

/// Puts the data of an entry, where there are some.
fn put_data(alloc: Global, entry: &Entry, below: &mut Vec<Carried>) -> Result<(), RefusalKind>
    ensures made { OnOk result (below.new.items ≡ below.old.items ++ adding.data_lines entry.now) }
    ensures refused { IfErr result (λ e. Fails e (LinesFit (adding.data_lines entry.now))) }
{
    let data = below_data(alloc, entry)?;
    if data.is_empty() {
        return Ok(());
    }
    let none = Value::Text(Text::empty(alloc));
    put_line(below, line(alloc, "DATA", none, data)?)?;
    Ok(())
}

/// Puts the notes of a citation.
fn put_notes(
    alloc: Global,
    noted: &[Noted],
    number: u32,
    below: &mut Vec<Carried>,
) -> Result<(), AllocError>
    ensures { OnOk result (below.new.items ≡ below.old.items ++ map adding.note_line
        (filter (λ (x : declared.Noted). adding.is_of number x.at) noted.now)) }
{
    'noted: for x in noted {
        if is_of(x.at, number) {
            put_line(below, note_line(alloc, x)?)?;
        }
    }
    Ok(())
}

/// What stands below the citation of an entry by a person or an event.
fn below_citation(
    alloc: Global,
    entry: &Entry,
    noted: &[Noted],
    number: u32,
) -> Result<Vec<Carried>, RefusalKind>
    ensures made { IfOk result (λ made. made.items ≡ adding.below_citation entry.now noted.now number) }
    ensures refused { IfErr result (λ e. Fails e (LinesFit (adding.below_citation entry.now noted.now number))) }
{
    let mut below = Vec::new(alloc);
    let page = page_line(alloc, page_words(alloc, entry)?)?;
    put_line(&mut below, page)?;
    put_data(alloc, entry, &mut below)?;
    put_notes(alloc, noted, number, &mut below)?;
    Ok(below)
}

/// The citation of an entry by a person or an event.
fn citation(
    alloc: Global,
    entry: &Entry,
    noted: &[Noted],
    number: u32,
) -> Result<Carried, RefusalKind>
    ensures made { IfOk result (λ c. c ≡ adding.citation entry.now noted.now number) }
    ensures refused { IfErr result (λ e. Fails e (Fits (adding.citation entry.now noted.now number))) }
{
    let below = below_citation(alloc, entry, noted, number)?;
    line(alloc, "SOUR", Value::Ref(entry.source), below)
}

/// Adds the citations of an entry by these persons and events.
fn add_citations(
    alloc: Global,
    entry: &Entry,
    noted: &[Noted],
    numbers: &[u32],
    added: &mut Vec<Added>,
) -> Result<(), RefusalKind>
    ensures made { OnOk result (added.new.items ≡ added.old.items
        ++ adding.citations entry.now noted.now numbers.now) }
    ensures refused { IfErr result
        (λ e. Fails e (AddedFit (adding.citations entry.now noted.now numbers.now))) }
{
    'numbers: for number in numbers {
        add(added, *number, citation(alloc, entry, noted, *number)?)?;
    }
    Ok(())
}

/// The path of the place of an entry; empty without a place.
fn path_of(alloc: Global, index: &Index, place: Option<u32>) -> Result<String, AllocError>
    ensures { IfOk result (λ s. string_bytes s ≡ adding.path_of (around_in index.now) place) }
{
    match place {
        Some(place) => index.path(alloc, place),
        None => Ok(String::new(alloc)),
    }
}

/// The note of an entry without a link.
fn entry_note(alloc: Global, index: &Index, entry: &Entry) -> Result<Carried, RefusalKind>
    ensures made { IfOk result (λ c. c ≡ adding.entry_note (around_in index.now) entry.now) }
    ensures refused { IfErr result (λ e. Fails e (Fits (adding.entry_note (around_in index.now) entry.now))) }
{
    let path = path_of(alloc, index, entry.place)?;
    words_line(alloc, "NOTE", entry_words(alloc, path.as_str(), entry)?)
}

/// Adds what an entry adds: its citations, or the note of its source.
pub(crate) fn add_entry(
    alloc: Global,
    index: &Index,
    firsts: &Firsts,
    entry: &Entry,
    added: &mut Vec<Added>,
) -> Result<(), RefusalKind>
    ensures made { OnOk result (added.new.items ≡ added.old.items
        ++ adding.added_by_entry (around_in index.now) (get_by_text firsts.now.numbers) entry.now) }
    ensures refused { IfErr result
        (λ e. Fails e (EntryFits (around_in index.now) (get_by_text firsts.now.numbers) entry.now)) }
{
    let noted = noted_all(alloc, firsts, entry)?;
    let numbers = cited(alloc, &noted)?;
    add_cited(alloc, index, entry, &noted, &numbers, added)
}

fn add_cited(
    alloc: Global,
    index: &Index,
    entry: &Entry,
    noted: &[Noted],
    numbers: &[u32],
    added: &mut Vec<Added>,
) -> Result<(), RefusalKind>
    ensures made { OnOk result (added.new.items ≡ added.old.items
        ++ adding.cited_or_noted (around_in index.now) entry.now noted.now numbers.now) }
    ensures refused { IfErr result (λ e. Fails e
        (AddedFit (adding.cited_or_noted (around_in index.now) entry.now noted.now numbers.now))) }
{
    if numbers.is_empty() {
        let note = entry_note(alloc, index, entry)?;
        return Ok(add(added, entry.source, note)?);
    }
    add_citations(alloc, entry, noted, numbers, added)
}
