//! What is doubtful of a record, by itself or beside what others say.

ghost use Rattle.std.specs.Prelude.{
  ◌≡◌,
  ◌++◌,
  ◌==◌,
  ◌&&◌,
  IfOk,
  OnOk,
  length,
  string_bytes,
};
ghost use Rattle.std.specs.List.{list_any};
ghost use Rattle.gedcom_date.specs.View.{view};
ghost use Rattle.doubts.specs.Doubts as doubts;
ghost use Rattle.doubts.specs.Gathered.{seen};

use crate::compared::{push_older, push_outside};
use crate::doubt::{Doubt, Kind, push_doubt};
use crate::entries::push_entry;
use crate::known::Known;
use gedcom_date::DateValue;
use record_fields::Date;
use record_kinds::{Child, Family, Name, Partner, Person, Record};
use record_text::surname;
use sheet_lines::display_of;
use std::alloc::{AllocError, Global};

/// Adds what is doubtful of a record.
pub(crate) fn push_doubts(
    alloc: Global,
    found: &mut Vec<Doubt>,
    number: u32,
    known: &Known,
    record: &Record,
) -> Result<(), AllocError>
    ensures { OnOk result (found.new.items
        ≡ found.old.items ++ doubts.doubts_of (seen known.now) number «record».now) }
{
    match record {
        Record::Person(person) => push_person(alloc, found, number, person),
        Record::Family(family) => {
            push_family(alloc, found, number, family)?;
            push_older(alloc, found, number, known, family)
        }
        Record::Event(event) => {
            push_date(alloc, found, number, &event.date)?;
            push_outside(alloc, found, number, known, event.owner, record)
        }
        Record::Entry(entry) => push_entry(alloc, found, number, known, entry),
        _ => Ok(()),
    }
}

// ---- dates

pub(crate) fn push_date(
    alloc: Global,
    found: &mut Vec<Doubt>,
    number: u32,
    date: &Option<Date>,
) -> Result<(), AllocError>
    ensures { OnOk result (found.new.items ≡ found.old.items ++ doubts.date_doubts number date.now) }
{
    match date {
        None => Ok(()),
        Some(date) => push_this_date(alloc, found, number, date),
    }
}

fn push_this_date(
    alloc: Global,
    found: &mut Vec<Doubt>,
    number: u32,
    date: &Date,
) -> Result<(), AllocError>
    ensures { OnOk result (found.new.items ≡ found.old.items ++ doubts.text_doubts number date.now.text) }
{
    if is_of_words(alloc, date)? {
        let words = date_words(alloc, date.as_str())?;
        push_doubt(found, Kind::Words, number, words)?;
    }
    Ok(())
}

fn date_words(alloc: Global, date: &str) -> Result<String, AllocError>
    ensures { IfOk result (λ s. string_bytes s ≡ doubts.date_words date.now) }
{
    format!(in alloc; "words: {date}")
}

/// Whether a date is words only.
fn is_of_words(alloc: Global, date: &Date) -> Result<bool, AllocError>
    ensures { IfOk result (λ b. b ≡ doubts.is_words (doubts.said_by date.now.text)) }
{
    let value = date.value(alloc)?;
    Ok(is_words(&value))
}

fn is_words(value: &DateValue) -> bool
    ensures { result ≡ doubts.is_words (view value.now) }
{
    match value {
        DateValue::Phrase(_) => true,
        DateValue::Verbatim(_) => true,
        _ => false,
    }
}

// ---- persons

fn push_person(
    alloc: Global,
    found: &mut Vec<Doubt>,
    number: u32,
    person: &Person,
) -> Result<(), AllocError>
    ensures { OnOk result (found.new.items ≡ found.old.items ++ doubts.name_doubts number person.now) }
{
    if has_surname(&person.names) {
        return Ok(());
    }
    let words = name_words(alloc, person)?;
    push_doubt(found, Kind::Nameless, number, words)
}

fn has_surname(names: &[Name]) -> bool
    ensures { result ≡ list_any doubts.is_with_surname names.now }
{
    names.iter().any(|name| is_with_surname(name))
}

fn is_with_surname(name: &Name) -> bool
    ensures { result ≡ doubts.is_with_surname name.now }
{
    !surname(name.text.as_str()).is_empty()
}

fn name_words(alloc: Global, person: &Person) -> Result<String, AllocError>
    ensures { IfOk result (λ s. string_bytes s ≡ doubts.name_words person.now) }
{
    if is_unnamed(&person.names) {
        return String::from_str(alloc, "no name");
    }
    let name = display_of(alloc, person)?;
    format!(in alloc; "no surname: {name}")
}

fn is_unnamed(names: &[Name]) -> bool
    ensures { result ≡ (length names.now == 0) }
{
    names.is_empty()
}

// ---- families

fn push_family(
    alloc: Global,
    found: &mut Vec<Doubt>,
    number: u32,
    family: &Family,
) -> Result<(), AllocError>
    ensures { OnOk result (found.new.items ≡ found.old.items ++ doubts.family_doubts number family.now) }
{
    if is_empty(&family.partners, &family.children) {
        let words = String::from_str(alloc, "nobody")?;
        push_doubt(found, Kind::Empty, number, words)?;
    }
    Ok(())
}

fn is_empty(partners: &[Partner], children: &[Child]) -> bool
    ensures { result ≡ ((length partners.now == 0) && (length children.now == 0)) }
{
    partners.is_empty() && children.is_empty()
}
