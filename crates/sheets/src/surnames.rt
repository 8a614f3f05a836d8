//! The persons of each surname.

ghost use Rattle.std.specs.Prelude.{◌≡◌, ℕ, List, IfOk, OnOk, Some, if◌then◌else◌};
ghost use Rattle.std.specs.FinMap as map;
ghost use Rattle.std.specs.List.{list_any};
ghost use Rattle.record_kinds.specs.declared.record.Record.TheVariants as kind;
ghost use Rattle.gedcom_export.specs.Index.{IsIndexOf};
ghost use Rattle.sheet_lines.specs.Numbers.{under, with_last};
ghost use Rattle.sheets.specs.Called.{AreCalled, with_called};
ghost use Rattle.sheets.specs.Pages.{has_key};

use archive_state::State;
use gedcom_export::{Index, Rank};
use masking::Shown;
use record_kinds::{Name, Record};
use record_text::surname;
use sheet_lines::SurnameIndex;
use std::alloc::{AllocError, Global};

/// The masked persons by their surnames, by the index of the masked records. Each person is looked at once.
pub fn surnames_of(alloc: Global, shown: &Shown, index: &Index) -> Result<SurnameIndex, AllocError>
    ensures { IsIndexOf (map.entries shown.now.records) index.now → IfOk result (AreCalled shown.now.records) }
{
    let mut surnames = SurnameIndex::new(alloc);
    let state = shown.as_state();
    let numbers = index.numbers(Rank::Persons);
    'numbers: for number in numbers {
        add_person_at(alloc, &mut surnames, state, *number)?;
    }
    Ok(surnames)
}

fn add_person_at(
    alloc: Global,
    surnames: &mut SurnameIndex,
    state: &State,
    number: u32,
) -> Result<(), AllocError>
    ensures { OnOk result ((key : List ℕ) → under surnames.new.numbers key
        ≡ with_called key number (map.get state.now.records number) (under surnames.old.numbers key)) }
{
    match state.record(number) {
        Some(Record::Person(person)) => add_names(alloc, surnames, number, &person.names),
        _ => Ok(()),
    }
}

/// Adds a person under the surname of each name.
fn add_names(
    alloc: Global,
    surnames: &mut SurnameIndex,
    number: u32,
    names: &[Name],
) -> Result<(), AllocError>
    ensures { OnOk result ((key : List ℕ) → under surnames.new.numbers key
        ≡ (if list_any (has_key key) names.now then with_last number (under surnames.old.numbers key)
        else under surnames.old.numbers key)) }
{
    'names: for name in names {
        add_name(alloc, surnames, number, name)?;
    }
    Ok(())
}

fn add_name(
    alloc: Global,
    surnames: &mut SurnameIndex,
    number: u32,
    name: &Name,
) -> Result<(), AllocError>
    ensures { OnOk result ((key : List ℕ) → under surnames.new.numbers key
        ≡ (if has_key key name.now then with_last number (under surnames.old.numbers key)
        else under surnames.old.numbers key)) }
{
    surnames.add(alloc, surname(name.text.as_str()), number)
}
