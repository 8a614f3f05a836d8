//! What stands at a number after a merge.

ghost use Rattle.std.specs.Prelude.{◌≡◌, IfOk, Some, option_map};
ghost use Rattle.archive_state.specs.Merging as merging;

use crate::children_once::once_child;
use crate::redirecting::Renamed;
use crate::two_persons::joined_person;
use record_kinds::{Family, Person, Record};
use records::copy_record;
use std::alloc::{AllocError, Global};
use std::collections::VecDeque;
use std::mem;

/// A record that is neither of the two persons.
pub fn merged_record(
    alloc: Global,
    value: &Record,
    keep: u32,
    gone: u32,
) -> Result<Record, AllocError>
    ensures { IfOk result (λ r. r ≡ merging.merged_record keep gone value.now) }
{
    once_in(alloc, value.renamed(alloc, keep, gone)?, keep)
}

fn once_in(alloc: Global, value: Record, person: u32) -> Result<Record, AllocError>
    ensures { IfOk result (λ r. r ≡ merging.once_in person value) }
{
    match value {
        Record::Family(family) => Ok(Record::Family(once_family(alloc, family, person)?)),
        other => Ok(other),
    }
}

/// The family with the person once among its children.
fn once_family(alloc: Global, family: Family, person: u32) -> Result<Family, AllocError>
    ensures { IfOk result (λ f. f ≡ record family { children = merging.once_child person family.children }) }
{
    let mut family = family;
    let children = mem::replace(&mut family.children, Vec::new(alloc));
    family.children = once_child(alloc, VecDeque::from(children), person)?;
    Ok(family)
}

/// The person that stays, of what stands at the two numbers.
pub fn merged_person(
    alloc: Global,
    value: &Record,
    other: Option<&Record>,
    keep: u32,
    gone: u32,
) -> Result<Record, AllocError>
    ensures { IfOk result (λ r. Some r ≡ merging.merged_person keep gone (Some value.now)
        (option_map (λ r. r.now) other.entry)) }
{
    match (value, other) {
        (Record::Person(stays), Some(Record::Person(goes))) => {
            Ok(Record::Person(person_of_two(alloc, stays, goes, keep, gone)?))
        }
        _ => copy_record(alloc, value),
    }
}

fn person_of_two(
    alloc: Global,
    stays: &Person,
    goes: &Person,
    keep: u32,
    gone: u32,
) -> Result<Person, AllocError>
    ensures { IfOk result (λ p. p ≡ merging.joined_person (merging.person_with (merging.renamed keep gone) stays.now)
        (merging.person_with (merging.renamed keep gone) goes.now)) }
{
    let stays = stays.renamed(alloc, keep, gone)?;
    let goes = goes.renamed(alloc, keep, gone)?;
    joined_person(alloc, stays, goes)
}
