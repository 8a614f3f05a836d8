//! The index, and the page of a surname.

ghost use Rattle.std.specs.Prelude.{◌≡◌, ◌++◌, IfOk, OnOk, Some, length, string_bytes};
ghost use Rattle.std.specs.FinMap as map;
ghost use Rattle.std.specs.List.{flat_map};
ghost use Rattle.record_kinds.specs.declared.record.Record.TheVariants as kind;
ghost use Rattle.archive_state.specs.Sound.{IsSound};
ghost use Rattle.gedcom_export.specs.Index.{IsIndexOf};
ghost use Rattle.sheet_lines.specs.Lines as lines;
ghost use Rattle.sheets.specs.Called.{AreCalled, line_in};
ghost use Rattle.sheets.specs.Pages as pages;

use crate::gathering::index_of;
use crate::surnames::surnames_of;
use archive_state::State;
use gedcom_export::{Index, Rank};
use masking::Shown;
use record_kinds::{Person, Record};
use sheet_lines::{SurnameIndex, display_of, push_index, push_surname};
use std::alloc::{AllocError, Global};

/// How many persons, families and registers are shown.
pub fn index_page(alloc: Global, shown: &Shown) -> Result<String, AllocError>
    ensures { IsSound shown.now → IfOk result (λ s. string_bytes s ≡ pages.index_page shown.now.records) }
{
    let index = index_of(alloc, shown)?;
    index_by(alloc, shown, &index)
}

/// The same by the index of the masked records.
pub(crate) fn index_by(alloc: Global, shown: &Shown, index: &Index) -> Result<String, AllocError>
    ensures { IsIndexOf (map.entries shown.now.records) index.now
        → IfOk result (λ s. string_bytes s ≡ pages.index_page shown.now.records) }
{
    let _ = shown;
    let mut out = String::new(alloc);
    push_counts(&mut out, index)?;
    Ok(out)
}

fn push_counts(out: &mut String, index: &Index) -> Result<(), AllocError>
    ensures { OnOk result (string_bytes out.new ≡ string_bytes out.old ++ lines.index_page
        (length index.now.persons) (length index.now.families) (length index.now.sources)) }
{
    let persons = index.numbers(Rank::Persons);
    let families = index.numbers(Rank::Families);
    let registers = index.numbers(Rank::Sources);
    push_index(out, persons.len(), families.len(), registers.len())
}

/// The persons one of whose names has a surname with the key of that surname, by number, each with the first name. An
/// empty surname is that of all names without one, as of every living person.
pub fn surname_page(alloc: Global, shown: &Shown, of: &str) -> Result<String, AllocError>
    ensures { IsSound shown.now
        → IfOk result (λ s. string_bytes s ≡ pages.surname_page shown.now.records of.now) }
{
    let index = index_of(alloc, shown)?;
    let surnames = surnames_of(alloc, shown, &index)?;
    surname_by(alloc, shown, &surnames, of)
}

/// The same by the index of the surnames of the masked records.
pub(crate) fn surname_by(
    alloc: Global,
    shown: &Shown,
    surnames: &SurnameIndex,
    of: &str,
) -> Result<String, AllocError>
    ensures { AreCalled shown.now.records surnames.now
        → IfOk result (λ s. string_bytes s ≡ pages.surname_page shown.now.records of.now) }
{
    let numbers = surnames.persons(alloc, of)?;
    let mut out = String::new(alloc);
    push_persons(alloc, &mut out, shown.as_state(), numbers)?;
    Ok(out)
}

/// Appends the lines of persons.
fn push_persons(
    alloc: Global,
    out: &mut String,
    state: &State,
    numbers: &[u32],
) -> Result<(), AllocError>
    ensures { OnOk result (string_bytes out.new ≡ string_bytes out.old
        ++ flat_map (λ n. line_in n (map.get state.now.records n)) numbers.now) }
{
    'numbers: for number in numbers {
        push_person_at(alloc, out, state, *number)?;
    }
    Ok(())
}

fn push_person_at(
    alloc: Global,
    out: &mut String,
    state: &State,
    number: u32,
) -> Result<(), AllocError>
    ensures { OnOk result (string_bytes out.new ≡ string_bytes out.old
        ++ line_in number (map.get state.now.records number)) }
{
    match state.record(number) {
        Some(Record::Person(person)) => push_person(alloc, out, number, person),
        _ => Ok(()),
    }
}

fn push_person(
    alloc: Global,
    out: &mut String,
    number: u32,
    person: &Person,
) -> Result<(), AllocError>
    ensures { OnOk result (string_bytes out.new ≡ string_bytes out.old
        ++ line_in number (Some (kind.Person person.now))) }
{
    let shown = display_of(alloc, person)?;
    push_surname(out, number, shown.as_str())
}
