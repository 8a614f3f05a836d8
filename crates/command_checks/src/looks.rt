//! Looks at what a command names, over a view.

ghost use Rattle.std.specs.Prelude.{◌≡◌, IfErr, Err, Some, false};
ghost use Rattle.archive_state.specs.Looks.{Agrees, CountsFailures, is_failure, is_stop};
ghost use Rattle.archive_state.specs.Views.{On};
ghost use Rattle.command_checks.specs.Checks as checks;

use archive_state::View;
use commands::{Field, GivenDate};
use record_fields::Date;
use record_kinds::{Event, Family, Person, Record};
use record_text::{RefusalKind, Text};
use std::alloc::Global;

/// What an event is of.
#[derive(Clone, Copy, Debug, PartialEq, Eq)]
pub enum Owner {
    Person,
    Family,
}

/// The text that a field is.
pub fn text_in(alloc: Global, field: &Field) -> Result<Text, RefusalKind>
    ensures decides { Agrees is_stop result (checks.text_in field.now) }
    ensures memory { IfErr result (λ e. is_failure e ≡ false) }
{
    match field.text(alloc)? {
        Some(text) => Ok(text),
        None => Err(RefusalKind::BadText),
    }
}

/// The text that a field is, or none where it is empty.
pub fn maybe_text_in(alloc: Global, field: &Field) -> Result<Option<Text>, RefusalKind>
    ensures decides { Agrees is_stop result (checks.maybe_text_in field.now) }
    ensures memory { IfErr result (λ e. is_failure e ≡ false) }
{
    Ok(or_no_text(text_in(alloc, field)?))
}

fn or_no_text(text: Text) -> Option<Text>
    ensures { result ≡ checks.or_no_text text }
{
    if text.as_str().is_empty() {
        None
    } else {
        Some(text)
    }
}

/// The date that is given, where one is.
pub fn date_in(alloc: Global, given: &Option<GivenDate>) -> Result<Option<Date>, RefusalKind>
    ensures decides { Agrees is_stop result (checks.each checks.date_in given.now) }
    ensures memory { IfErr result (λ e. is_failure e ≡ false) }
{
    let Some(given) = given else {
        return Ok(None);
    };
    match given.date(alloc)? {
        Some(date) => Ok(Some(date)),
        None => Err(RefusalKind::BadText),
    }
}

/// The person of a number.
pub fn person_at<V: View>(alloc: Global, view: &mut V, number: u32) -> Result<Person, RefusalKind>
    ensures decides { On V.View view.old view.new (λ c. Agrees is_stop result (checks.person_at c number)) }
    ensures counts { CountsFailures (V.failed view.old) (V.failed view.new) result }
{
    person_in(view.record_at(alloc, number)?)
}

fn person_in(found: Option<Record>) -> Result<Person, RefusalKind>
    ensures { result ≡ checks.person_in found }
{
    match found {
        None => Err(RefusalKind::NoSuch),
        Some(Record::Person(person)) => Ok(person),
        Some(other) => wrong_kind(other),
    }
}

/// The family of a number.
pub fn family_at<V: View>(alloc: Global, view: &mut V, number: u32) -> Result<Family, RefusalKind>
    ensures decides { On V.View view.old view.new (λ c. Agrees is_stop result (checks.family_at c number)) }
    ensures counts { CountsFailures (V.failed view.old) (V.failed view.new) result }
{
    family_in(view.record_at(alloc, number)?)
}

fn family_in(found: Option<Record>) -> Result<Family, RefusalKind>
    ensures { result ≡ checks.family_in found }
{
    match found {
        None => Err(RefusalKind::NoSuch),
        Some(Record::Family(family)) => Ok(family),
        Some(other) => wrong_kind(other),
    }
}

/// The event of a number.
pub fn event_at<V: View>(alloc: Global, view: &mut V, number: u32) -> Result<Event, RefusalKind>
    ensures decides { On V.View view.old view.new (λ c. Agrees is_stop result (checks.event_at c number)) }
    ensures counts { CountsFailures (V.failed view.old) (V.failed view.new) result }
{
    event_in(view.record_at(alloc, number)?)
}

fn event_in(found: Option<Record>) -> Result<Event, RefusalKind>
    ensures { result ≡ checks.event_in found }
{
    match found {
        None => Err(RefusalKind::NoSuch),
        Some(Record::Event(event)) => Ok(event),
        Some(other) => wrong_kind(other),
    }
}

/// What the record of a number is, where an event may be of it.
pub fn owner_at<V: View>(alloc: Global, view: &mut V, number: u32) -> Result<Owner, RefusalKind>
    ensures decides { On V.View view.old view.new (λ c. Agrees is_stop result (checks.owner_at c number)) }
    ensures counts { CountsFailures (V.failed view.old) (V.failed view.new) result }
{
    owner_in(view.record_at(alloc, number)?)
}

fn owner_in(found: Option<Record>) -> Result<Owner, RefusalKind>
    ensures { result ≡ checks.owner_in found }
{
    let Some(record) = found else {
        return Err(RefusalKind::NoSuch);
    };
    let owner = owner_of(&record);
    drop(record);
    owner
}

/// What the record is, where an event may be of it.
fn owner_of(value: &Record) -> Result<Owner, RefusalKind>
    ensures { result ≡ checks.owner_in (Some value.now) }
{
    match value {
        Record::Person(_) => Ok(Owner::Person),
        Record::Family(_) => Ok(Owner::Family),
        _ => Err(RefusalKind::WrongKind),
    }
}

/// The refusal of a record of another kind, which is given back here.
pub fn wrong_kind<T>(other: Record) -> Result<T, RefusalKind>
    ensures { result ≡ Err RefusalKind.WrongKind }
{
    drop(other);
    Err(RefusalKind::WrongKind)
}
