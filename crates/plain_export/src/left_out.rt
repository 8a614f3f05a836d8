//! What a plain export leaves out.

ghost use Rattle.std.specs.Prelude.{◌≡◌, IfOk, option_copied};
ghost use Rattle.std.specs.List.{list_any};
ghost use Rattle.plain_export.specs.LeftOut as leaving;
ghost use Rattle.plain_export.specs.Plain.{is_sex as has_sex_tag};

use crate::allowed::has_lines;
use crate::kept::is_ours;
use crate::kinds::is_sex;
use archive_state::State;
use record_fields::Sex;
use record_kinds::Record;
use std::alloc::{AllocError, Global};
use stored_lines::Carried;

/// The places whose carried lines a plain export leaves out, by number.
pub fn places_with_lines(alloc: Global, state: &State) -> Result<Vec<u32>, AllocError>
    ensures { IfOk result (λ found. found.items ≡ leaving.those leaving.carries_lines state.now.records) }
{
    let numbers = state.record_numbers(alloc)?;
    let mut found = Vec::new(alloc);
    'numbers: for number in &numbers {
        if carries_lines(state.record(*number)) {
            found.push(*number)?;
        }
    }
    Ok(found)
}

fn carries_lines(found: Option<&Record>) -> bool
    ensures { result ≡ leaving.carries_lines (option_copied found.entry) }
{
    match found {
        Some(Record::Place(place)) => has_lines(&place.carried),
        _ => false,
    }
}

/// The records of no other kind that a plain export leaves out, by number: they have a tag of our own.
pub fn our_own_records(alloc: Global, state: &State) -> Result<Vec<u32>, AllocError>
    ensures { IfOk result (λ found. found.items ≡ leaving.those leaving.is_our_own state.now.records) }
{
    let numbers = state.record_numbers(alloc)?;
    let mut found = Vec::new(alloc);
    'numbers: for number in &numbers {
        if is_our_own(state.record(*number)) {
            found.push(*number)?;
        }
    }
    Ok(found)
}

fn is_our_own(found: Option<&Record>) -> bool
    ensures { result ≡ leaving.is_our_own (option_copied found.entry) }
{
    match found {
        Some(Record::Other(other)) => is_ours(other.tag.as_str()),
        _ => false,
    }
}

/// The persons of whom a plain export leaves out a second sex, by number.
pub fn second_sexes(alloc: Global, state: &State) -> Result<Vec<u32>, AllocError>
    ensures { IfOk result (λ found. found.items ≡ leaving.those leaving.has_second_sex state.now.records) }
{
    let numbers = state.record_numbers(alloc)?;
    let mut found = Vec::new(alloc);
    'numbers: for number in &numbers {
        if has_second_sex(state.record(*number)) {
            found.push(*number)?;
        }
    }
    Ok(found)
}

fn has_second_sex(found: Option<&Record>) -> bool
    ensures { result ≡ leaving.has_second_sex (option_copied found.entry) }
{
    match found {
        Some(Record::Person(person)) => carries_sex(person.sex, &person.carried),
        _ => false,
    }
}

fn carries_sex(sex: Option<Sex>, lines: &[Carried]) -> bool
    ensures { result ≡ leaving.carries_sex sex lines.now }
{
    match sex {
        None => false,
        Some(_) => has_sex(lines),
    }
}

fn has_sex(lines: &[Carried]) -> bool
    ensures { result ≡ list_any has_sex_tag lines.now }
{
    lines.iter().any(|line| is_sex(line))
}
