//! The persons without a surname.

ghost use Rattle.std.specs.Prelude.{◌≡◌, [], IfOk};
ghost use Rattle.std.specs.FinMap as map;
ghost use Rattle.std.specs.List.{filter, list_any};
ghost use Rattle.gedcom_export.specs.Index.{IsIndexOf};
ghost use Rattle.sheets.specs.Gathered.{gathered};
ghost use Rattle.html_pages.specs.Called as called;

use archive_state::State;
use gedcom_export::{Index, Rank};
use masking::Shown;
use record_kinds::{Name, Record};
use record_text::surname;
use std::alloc::{AllocError, Global};

/// The numbers of the masked persons without any name, or one of whose names has no surname, ascending, by the index
/// of the masked records.
pub(crate) fn persons_without_surname(
    alloc: Global,
    shown: &Shown,
    index: &Index,
) -> Result<Vec<u32>, AllocError>
    ensures { IsIndexOf (map.entries shown.now.records) index.now
        → IfOk result (λ numbers. numbers.items ≡ called.called (gathered shown.now.records) []) }
{
    without_surname(alloc, shown.as_state(), index.numbers(Rank::Persons))
}

/// The numbers of these that are of persons without a surname.
fn without_surname(alloc: Global, state: &State, numbers: &[u32]) -> Result<Vec<u32>, AllocError>
    ensures { IfOk result (λ found. found.items
        ≡ filter (λ n. called.is_without_surname (map.get state.now.records n)) numbers.now) }
{
    numbers
        .iter()
        .copied()
        .filter(|n| is_without_surname(state, *n))
        .collect(alloc)
}

fn is_without_surname(state: &State, number: u32) -> bool
    ensures { result ≡ called.is_without_surname (map.get state.now.records number) }
{
    match state.record(number) {
        Some(Record::Person(person)) => lack_surname(&person.names),
        _ => false,
    }
}

fn lack_surname(names: &[Name]) -> bool
    ensures { result ≡ called.lack_surname names.now }
{
    names.is_empty() || has_none_in(names)
}

fn has_none_in(names: &[Name]) -> bool
    ensures { result ≡ list_any called.has_no_surname names.now }
{
    names.iter().any(|name| has_no_surname(name))
}

fn has_no_surname(name: &Name) -> bool
    ensures { result ≡ called.has_no_surname name.now }
{
    surname(name.text.as_str()).is_empty()
}
