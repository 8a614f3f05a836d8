//! The commands on persons.

ghost use Rattle.std.specs.Prelude.{◌≡◌, ◌↔◌, IfOk, IsTrue, Some};
ghost use Rattle.archive_state.specs.Looks.{CountsFailures};
ghost use Rattle.archive_state.specs.Views.{On};
ghost use Rattle.command_checks.specs.Applied.{Plans};
ghost use Rattle.command_checks.specs.Exact.{IsExact};
ghost use Rattle.archive_steps.specs.Steps as steps;

use crate::making::{creates, one, replaces, unchanged};
use archive_state::{Changes, View};
use command_checks::{person_at, text_in};
use commands::Field;
use record_fields::Sex;
use record_kinds::{Name, Person, Record};
use record_text::{RefusalKind, Text};
use std::alloc::{AllocError, Global};

/// A new person.
pub(crate) fn new_person<V: View>(
    alloc: Global,
    view: &mut V,
    name: &Field,
    sex: Option<Sex>,
) -> Result<Changes, RefusalKind>
    ensures decides { On V.View view.old view.new (λ c. Plans c result (steps.new_person c name.now sex)) }
    ensures exact { On V.View view.old view.new (λ c. IfOk result (IsExact c)) }
    ensures counts { CountsFailures (V.failed view.old) (V.failed view.new) result }
{
    let name = text_in(alloc, name)?;
    let person = plain_person(alloc, name, sex)?;
    creates(alloc, view, Record::Person(person))
}

/// A further name of a person.
#[tactic(auto, using(crate::proofs::Exactness::name_differs))]
pub(crate) fn add_name<V: View>(
    alloc: Global,
    view: &mut V,
    number: u32,
    name: &Field,
) -> Result<Changes, RefusalKind>
    ensures decides { On V.View view.old view.new (λ c. Plans c result (steps.add_name c number name.now)) }
    ensures exact { On V.View view.old view.new (λ c. IfOk result (IsExact c)) }
    ensures counts { CountsFailures (V.failed view.old) (V.failed view.new) result }
{
    let name = text_in(alloc, name)?;
    let person = person_at(alloc, view, number)?;
    let person = with_name(alloc, person, name)?;
    replaces(alloc, view, number, Record::Person(person))
}

/// The sex of a person.
#[tactic(auto, using(crate::proofs::Exactness::sex_differs, crate::proofs::Exactness::same_person))]
pub(crate) fn set_sex<V: View>(
    alloc: Global,
    view: &mut V,
    number: u32,
    sex: Sex,
) -> Result<Changes, RefusalKind>
    ensures decides { On V.View view.old view.new (λ c. Plans c result (steps.set_sex c number sex)) }
    ensures exact { On V.View view.old view.new (λ c. IfOk result (IsExact c)) }
    ensures counts { CountsFailures (V.failed view.old) (V.failed view.new) result }
{
    let mut person = person_at(alloc, view, number)?;
    if has_sex(&person, sex) {
        drop(person);
        return unchanged(alloc, view);
    }
    person.sex = Some(sex);
    replaces(alloc, view, number, Record::Person(person))
}

/// Whether the person has that sex already.
fn has_sex(person: &Person, sex: Sex) -> bool
    ensures { IsTrue result ↔ (record person.now { sex = Some sex } ≡ person.now) }
{
    match person.sex {
        Some(old) => old == sex,
        None => false,
    }
}

/// A name as a command gives it.
fn plain_name(alloc: Global, text: Text) -> Name
    ensures { result ≡ steps.plain_name text }
{
    Name {
        text,
        carried: Vec::new(alloc),
    }
}

/// A person of one name.
fn plain_person(alloc: Global, name: Text, sex: Option<Sex>) -> Result<Person, AllocError>
    ensures { IfOk result (λ p. p ≡ steps.plain_person name sex) }
{
    Ok(Person {
        names: one(alloc, plain_name(alloc, name))?,
        sex,
        carried: Vec::new(alloc),
    })
}

/// Adds a name after the others.
fn with_name(alloc: Global, person: Person, name: Text) -> Result<Person, AllocError>
    ensures { IfOk result (λ p. p ≡ steps.with_name name person) }
{
    let mut person = person;
    person.names.push(plain_name(alloc, name))?;
    Ok(person)
}
