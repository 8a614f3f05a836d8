//! The two persons of a slip, among its old records.

ghost use Rattle.std.specs.Prelude.{◌≡◌, ◌==◌, ◌↔◌, IsTrue, Some};
ghost use Rattle.std.specs.List.{list_any};
ghost use Rattle.std.specs.FinMap.{get};
ghost use Rattle.record_kinds.specs.Model as model;
ghost use Rattle.record_kinds.specs.declared.record.Record as seen;
ghost use Rattle.record_kinds.specs.declared.record.Record.TheVariants as kind;
ghost use Rattle.record_shapes.specs.Lists.{EachOf};
ghost use Rattle.archive_state.specs.Merging as merging;
ghost use Rattle.archive_state.specs.Sound.{IsEmptyPerson};
ghost use Rattle.audit.specs.Parts.{HasKeep, HasPersonAt};
ghost use Rattle.audit.specs.Clashes.{IsJoinableAt};

use archive_state::State;
use record_kinds::{Family, Record};

/// Whether a person stands at the number.
pub(crate) fn has_person_at(olds: &State, number: u32) -> bool
    ensures { IsTrue result ↔ HasPersonAt olds.now.records number }
{
    match olds.record(number) {
        Some(Record::Person(_)) => true,
        _ => false,
    }
}

/// Whether a person stays, or nothing of it changed, since the other had no name, sex and carried line.
pub(crate) fn has_keep(olds: &State, keep: u32, gone: u32) -> bool
    ensures { IsTrue result ↔ HasKeep olds.now.records keep gone }
{
    match olds.record(keep) {
        Some(Record::Person(_)) => true,
        Some(_) => false,
        None => is_empty_at(olds, gone),
    }
}

/// Whether an empty person stands at the number, or nothing.
fn is_empty_at(olds: &State, number: u32) -> bool
    ensures { IsTrue result ↔ ((r : seen.Record) → get olds.now.records number ≡ Some r → IsEmptyPerson r) }
{
    match olds.record(number) {
        Some(found) => is_empty(found),
        None => true,
    }
}

fn is_empty(found: &Record) -> bool
    ensures { IsTrue result ↔ IsEmptyPerson found.now }
{
    match found {
        Record::Person(person) => {
            person.names.is_empty() && person.sex.is_none() && person.carried.is_empty()
        }
        _ => false,
    }
}

/// Whether no record at these numbers is a family of both, but with both as its children.
pub(crate) fn are_joinable(olds: &State, keep: u32, gone: u32, numbers: &[u32]) -> bool
    ensures { IsTrue result ↔ EachOf (IsJoinableAt olds.now.records keep gone) numbers.now }
{
    'numbers: for number in numbers {
        if !is_joinable_at(olds, keep, gone, *number) {
            return false;
        }
    }
    true
}

fn is_joinable_at(olds: &State, keep: u32, gone: u32, number: u32) -> bool
    ensures { IsTrue result ↔ IsJoinableAt olds.now.records keep gone number }
{
    match olds.record(number) {
        Some(found) => !clashes_in(found, keep, gone),
        None => true,
    }
}

fn clashes_in(found: &Record, keep: u32, gone: u32) -> bool
    ensures { result ≡ merging.clashes keep gone found.now }
{
    match found {
        Record::Family(family) => clashes(family, keep, gone),
        _ => false,
    }
}

/// Whether the family is one of both, but with both as its children.
fn clashes(family: &Family, keep: u32, gone: u32) -> bool
    ensures { result ≡ merging.clashes keep gone (kind.Family family.now) }
{
    has_member(family, keep)
        && has_member(family, gone)
        && !(has_child(family, keep) && has_child(family, gone))
}

fn has_member(family: &Family, person: u32) -> bool
    ensures { result ≡ merging.has_member person family.now }
{
    has_partner(family, person) || has_child(family, person)
}

fn has_partner(family: &Family, person: u32) -> bool
    ensures { result ≡ list_any (λ (p : model.Partner). p.person == person) family.now.partners }
{
    family
        .partners
        .iter()
        .any(|partner| partner.person == person)
}

fn has_child(family: &Family, person: u32) -> bool
    ensures { result ≡ merging.has_child person family.now }
{
    family.children.iter().any(|child| child.person == person)
}
