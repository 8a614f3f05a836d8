//! The first event of each person, by its tag and date.

ghost use Rattle.std.specs.Prelude.{◌≡◌, ◌∷◌, [], ℕ, List, IfOk, OnOk, None, Some, map, option_copied, string_bytes};
ghost use Rattle.std.specs.BTreeMap.{get_by_text};
ghost use Rattle.std.specs.List.{flat_map};
ghost use Rattle.std.specs.Map.{update};
ghost use Rattle.std.specs.Str.{bytes_eq};
ghost use Rattle.record_fields.specs.declared.entry_words.Role.TheVariants as role;
ghost use Rattle.record_kinds.specs.Model as model;
ghost use Rattle.plain_export.specs.Firsts as marking;

use crate::words::date_words;
use archive_state::State;
use record_fields::{Date, Role};
use record_kinds::{Event, Link, Partner, Record};
use std::alloc::{AllocError, Global};
use std::collections::BTreeMap;

/// The first event of each person under its keys.
pub(crate) struct Firsts {
    numbers: BTreeMap<String, u32>,
}

// It is written out, so that no function above proves again how a map is dropped.
impl Drop for Firsts {
    fn drop(self) {
        let Firsts { numbers: _ } = self;
    }
}

/// The number under a key.
fn find(numbers: &BTreeMap<String, u32>, key: &str) -> Option<u32>
    ensures { result ≡ get_by_text numbers.now key.now }
{
    match numbers.get(key) {
        Some(number) => Some(*number),
        None => None,
    }
}

/// No number yet under any key.
fn nothing(alloc: Global) -> BTreeMap<String, u32>
    ensures { (key : List ℕ) → get_by_text result key ≡ None }
{
    BTreeMap::new(alloc)
}

/// A person and a tag.
fn tag_key(alloc: Global, person: u32, tag: &str) -> Result<String, AllocError>
    ensures { IfOk result (λ s. string_bytes s ≡ marking.tag_key person tag.now) }
{
    format!(in alloc; "{person} {tag}")
}

/// A person, a tag and a date.
fn date_key(
    alloc: Global,
    person: u32,
    tag: &str,
    date: &Option<Date>,
) -> Result<String, AllocError>
    ensures { IfOk result (λ s. string_bytes s ≡ marking.date_key person tag.now date.now) }
{
    let mut key = tag_key(alloc, person, tag)?;
    key.push_str(" ")?;
    key.push_str(date_words(date))?;
    Ok(key)
}

/// Puts a number under a key that has none.
fn put_first(
    numbers: &mut BTreeMap<String, u32>,
    key: String,
    number: u32,
) -> Result<(), AllocError>
    ensures { OnOk result (marking.Adds (get_by_text numbers.old) (get_by_text numbers.new)
        ((string_bytes key, number) ∷ [])) }
{
    match find(numbers, key.as_str()) {
        Some(_) => Ok(()),
        None => put_number(numbers, key, number),
    }
}

/// Puts a number under a key.
fn put_number(
    numbers: &mut BTreeMap<String, u32>,
    key: String,
    number: u32,
) -> Result<(), AllocError>
    ensures { OnOk result ((q : List ℕ) → get_by_text numbers.new q
        ≡ update bytes_eq (get_by_text numbers.old) (string_bytes key) (Some number) q) }
{
    numbers.insert(key, number)?;
    Ok(())
}

/// Puts an event of a person under its keys.
fn put_event_of(
    alloc: Global,
    numbers: &mut BTreeMap<String, u32>,
    number: u32,
    event: &Event,
    person: u32,
) -> Result<(), AllocError>
    ensures { OnOk result (marking.Adds (get_by_text numbers.old) (get_by_text numbers.new)
        (marking.marks_of number event.now person)) }
{
    let dated = date_key(alloc, person, event.tag.as_str(), &event.date)?;
    put_first(numbers, dated, number)?;
    let undated = tag_key(alloc, person, event.tag.as_str())?;
    put_first(numbers, undated, number)
}

/// Puts an event of a family under its keys, for each partner.
fn put_for_partners(
    alloc: Global,
    numbers: &mut BTreeMap<String, u32>,
    number: u32,
    event: &Event,
    partners: &[Partner],
) -> Result<(), AllocError>
    ensures { OnOk result (marking.Adds (get_by_text numbers.old) (get_by_text numbers.new)
        (flat_map (marking.marks_of number event.now)
        (map (λ (p : model.Partner). p.person) partners.now))) }
{
    'partners: for partner in partners {
        put_event_of(alloc, numbers, number, event, partner.person)?;
    }
    Ok(())
}

/// Puts an event under its keys, for each person whose event it is.
fn put_for_owner(
    alloc: Global,
    numbers: &mut BTreeMap<String, u32>,
    number: u32,
    event: &Event,
    owner: Option<&Record>,
) -> Result<(), AllocError>
    ensures { OnOk result (marking.Adds (get_by_text numbers.old) (get_by_text numbers.new)
        (flat_map (marking.marks_of number event.now)
        (marking.persons_of event.now.owner (option_copied owner.entry)))) }
{
    match owner {
        Some(Record::Person(_)) => put_event_of(alloc, numbers, number, event, event.owner),
        Some(Record::Family(family)) => {
            put_for_partners(alloc, numbers, number, event, &family.partners)
        }
        _ => Ok(()),
    }
}

/// Puts the event that stands at a number, if there is one.
fn put_found(
    alloc: Global,
    state: &State,
    numbers: &mut BTreeMap<String, u32>,
    number: u32,
) -> Result<(), AllocError>
    ensures { OnOk result (marking.Adds (get_by_text numbers.old) (get_by_text numbers.new)
        (marking.marks_at state.now.records number)) }
{
    match state.record(number) {
        Some(Record::Event(event)) => {
            put_for_owner(alloc, numbers, number, event, state.record(event.owner))
        }
        _ => Ok(()),
    }
}

/// The first events of all persons.
pub(crate) fn firsts_of(alloc: Global, state: &State) -> Result<Firsts, AllocError>
    ensures { IfOk result (λ f. get_by_text f.numbers ≡ marking.firsts state.now.records) }
{
    let all = state.record_numbers(alloc)?;
    let mut found = nothing(alloc);
    'all: for number in &all {
        put_found(alloc, state, &mut found, *number)?;
    }
    Ok(Firsts { numbers: found })
}

/// A person's event of a tag: the first of that date, or where there is none the first of all.
fn event_with(
    alloc: Global,
    firsts: &Firsts,
    person: u32,
    date: &Option<Date>,
    tag: &str,
) -> Result<Option<u32>, AllocError>
    ensures { IfOk result (λ o. o ≡ marking.event_with (get_by_text firsts.now.numbers) person date.now tag.now) }
{
    let dated = date_key(alloc, person, tag, date)?;
    if let Some(number) = find(&firsts.numbers, dated.as_str()) {
        return Ok(Some(number));
    }
    let undated = tag_key(alloc, person, tag)?;
    Ok(find(&firsts.numbers, undated.as_str()))
}

/// The event of a child: the baptism, or where there is none the christening.
fn christening(
    alloc: Global,
    firsts: &Firsts,
    person: u32,
    date: &Option<Date>,
) -> Result<Option<u32>, AllocError>
    ensures { IfOk result (λ o. o
        ≡ marking.event_for (get_by_text firsts.now.numbers) person date.now role.Child) }
{
    match event_with(alloc, firsts, person, date, "BAPM")? {
        Some(number) => Ok(Some(number)),
        None => event_with(alloc, firsts, person, date, "CHR"),
    }
}

/// The event that a mention is of.
fn event_for(
    alloc: Global,
    firsts: &Firsts,
    person: u32,
    date: &Option<Date>,
    role: Role,
) -> Result<Option<u32>, AllocError>
    ensures { IfOk result (λ o. o
        ≡ marking.event_for (get_by_text firsts.now.numbers) person date.now role) }
{
    match role {
        Role::Child => christening(alloc, firsts, person, date),
        Role::Buried => event_with(alloc, firsts, person, date, "BURI"),
        Role::Groom => event_with(alloc, firsts, person, date, "MARR"),
        Role::Bride => event_with(alloc, firsts, person, date, "MARR"),
        _ => Ok(None),
    }
}

/// The number of what cites an entry for a linked mention: that event, or the person.
pub(crate) fn cited_by(
    alloc: Global,
    firsts: &Firsts,
    date: &Option<Date>,
    role: Role,
    link: &Link,
) -> Result<u32, AllocError>
    ensures { IfOk result (λ n. n ≡ marking.cited_by (get_by_text firsts.now.numbers) date.now role link.now) }
{
    match event_for(alloc, firsts, link.person, date, role)? {
        Some(number) => Ok(number),
        None => Ok(link.person),
    }
}
