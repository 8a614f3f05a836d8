//! Persons and families, with what they own.

ghost use Rattle.std.specs.Prelude.{◌≡◌, ◌==◌, ◌||◌, ◌++◌, ◌∷◌, ℕ, IfOk, OnOk, false, map, not};
ghost use Rattle.std.specs.Ordering.{nat_cmp};
ghost use Rattle.std.specs.BTreeSet.{contains};
ghost use Rattle.stored_lines.specs.Line.{Line, Lines};
ghost use Rattle.stored_lines.specs.Tree.{Tree};
ghost use Rattle.record_shapes.specs.Forms.{Known as KnownOf, number_of as number_on};
ghost use Rattle.record_shapes.specs.Fields as fields;
ghost use Rattle.record_shapes.specs.Reading as reading;
ghost use Rattle.node_reading.specs.Owners as owners;

use crate::events::{EventDraft, event_of};
use crate::fields::{is_first, is_same};
use crate::sources::citation_of;
use field_rows::{Known, family_field, number_of, person_field, sex_of, take_apart};
use record_fields::Partnership;
use record_kinds::{Child, Citation, Family, Name, Partner, Person};
use record_shapes::Field;
use std::alloc::{AllocError, Global};
use std::collections::BTreeSet;
use stored_lines::Carried;

/// What a person or a family owns.
#[derive(Drop)]
pub enum Owned {
    Event(EventDraft),
    Citation(Citation),
}

/// A person with what it owns, in the order of its lines.
#[derive(Drop)]
pub struct PersonDraft {
    pub person: Person,
    pub owned: Vec<Owned>,
}

/// A family with what it owns, in the order of its lines. It has only its own side of the memberships.
#[derive(Drop)]
pub struct FamilyDraft {
    pub family: Family,
    pub owned: Vec<Owned>,
}

/// The person of its lines. Those that name its families are not kept: they are of the families.
pub fn person_of<K: Known>(
    alloc: Global,
    known: &K,
    lines: Vec<Carried>,
) -> Result<PersonDraft, AllocError>
    ensures person { IfOk result (λ d. d.person ≡ reading.person_from (K.known known.now) lines.items) }
    ensures owned { IfOk result (λ d. map owners.owned_tree d.owned.items
        ≡ owners.owned_on (K.known known.now) (fields.person_field (K.known known.now)) lines.items) }
{
    let mut draft = PersonDraft {
        person: Person {
            names: Vec::new(alloc),
            sex: None,
            carried: Vec::new(alloc),
        },
        owned: Vec::new(alloc),
    };
    'lines: for line in lines {
        take_for_person(alloc, known, &mut draft, line)?;
    }
    Ok(draft)
}

fn take_for_person<K: Known>(
    alloc: Global,
    known: &K,
    draft: &mut PersonDraft,
    line: Carried,
) -> Result<(), AllocError>
    ensures person { IfOk result (λ _. (ts : Lines) → owners.person_with (K.known known.now) draft.new.person ts
        ≡ owners.person_with (K.known known.now) draft.old.person (line ∷ ts)) }
    ensures owned { IfOk result (λ _. (ts : Lines) → map owners.owned_tree draft.new.owned.items
        ++ owners.owned_on (K.known known.now) (fields.person_field (K.known known.now)) ts
        ≡ map owners.owned_tree draft.old.owned.items
        ++ owners.owned_on (K.known known.now) (fields.person_field (K.known known.now)) (line ∷ ts)) }
{
    let field = person_field(known, &line);
    if is_owned(field) {
        take_owned(alloc, known, &mut draft.owned, field, line)?;
        return Ok(());
    }
    take_person_line(alloc, &mut draft.person, field, line)?;
    Ok(())
}

/// Whether a line of the field is what a record owns.
fn is_owned(field: Field) -> bool
    ensures { result ≡ (fields.is_same field fields.an_event || fields.is_same field fields.a_citation) }
{
    is_same(field, Field::Event) || is_same(field, Field::Citation)
}

/// Takes the line of an event or a citation.
fn take_owned<K: Known>(
    alloc: Global,
    known: &K,
    owned: &mut Vec<Owned>,
    field: Field,
    line: Carried,
) -> Result<(), AllocError>
    ensures { IfOk result (λ _. map owners.owned_tree owned.new.items
        ≡ map owners.owned_tree owned.old.items ++ owners.drafts_if (K.known known.now) field line) }
{
    if is_same(field, Field::Event) {
        owned.push(Owned::Event(event_of(alloc, known, line)?))?;
        return Ok(());
    }
    if is_same(field, Field::Citation) {
        owned.push(Owned::Citation(citation_of(alloc, line)?))?;
    }
    Ok(())
}

/// Takes a line of neither an event nor a citation.
fn take_person_line(
    alloc: Global,
    person: &mut Person,
    field: Field,
    line: Carried,
) -> Result<(), AllocError>
    ensures { IfOk result (λ _. (known : KnownOf) (ts : Lines) → field ≡ fields.person_field known line
        → (fields.is_same field fields.an_event || fields.is_same field fields.a_citation) ≡ false
        → owners.person_with known person.new ts ≡ owners.person_with known person.old (line ∷ ts)) }
{
    if is_same(field, Field::Name) {
        person.names.push(name_of(alloc, line))?;
        return Ok(());
    }
    if is_first(field, Field::Sex, &person.sex) {
        person.sex = sex_of(&line);
        return Ok(());
    }
    if is_same(field, Field::Side) {
        return Ok(());
    }
    person.carried.push(line)?;
    Ok(())
}

/// The name of a line.
fn name_of(alloc: Global, line: Carried) -> Name
    ensures { result ≡ reading.name_from line }
{
    let line = take_apart(alloc, line);
    Name {
        text: line.text,
        carried: line.below,
    }
}

/// The family of its lines. Of two lines that name one person the first counts, and the other is not kept.
pub fn family_of<K: Known>(
    alloc: Global,
    known: &K,
    lines: Vec<Carried>,
) -> Result<FamilyDraft, AllocError>
    ensures family { IfOk result (λ d. d.family ≡ reading.family_from (K.known known.now) lines.items) }
    ensures owned { IfOk result (λ d. map owners.owned_tree d.owned.items
        ≡ owners.owned_on (K.known known.now) (fields.family_field (K.known known.now)) lines.items) }
{
    let mut draft = FamilyDraft {
        family: Family {
            partners: Vec::new(alloc),
            children: Vec::new(alloc),
            carried: Vec::new(alloc),
        },
        owned: Vec::new(alloc),
    };
    let mut seen = BTreeSet::new(alloc);
    'lines: for line in lines {
        take_for_family(alloc, known, &mut draft, &mut seen, line)?;
    }
    Ok(draft)
}

fn take_for_family<K: Known>(
    alloc: Global,
    known: &K,
    draft: &mut FamilyDraft,
    seen: &mut BTreeSet<u32>,
    line: Carried,
) -> Result<(), AllocError>
    ensures family { IfOk result (λ _. (ts : Lines)
        → owners.family_with (K.known known.now) (contains nat_cmp seen.new) draft.new.family ts
        ≡ owners.family_with (K.known known.now) (contains nat_cmp seen.old) draft.old.family (line ∷ ts)) }
    ensures owned { IfOk result (λ _. (ts : Lines) → map owners.owned_tree draft.new.owned.items
        ++ owners.owned_on (K.known known.now) (fields.family_field (K.known known.now)) ts
        ≡ map owners.owned_tree draft.old.owned.items
        ++ owners.owned_on (K.known known.now) (fields.family_field (K.known known.now)) (line ∷ ts)) }
{
    let field = family_field(known, &line);
    if is_owned(field) {
        take_owned(alloc, known, &mut draft.owned, field, line)?;
        return Ok(());
    }
    take_family_line(alloc, &mut draft.family, seen, field, line)?;
    Ok(())
}

/// Takes a line of neither an event nor a citation.
fn take_family_line(
    alloc: Global,
    family: &mut Family,
    seen: &mut BTreeSet<u32>,
    field: Field,
    line: Carried,
) -> Result<(), AllocError>
    ensures { IfOk result (λ _. (known : KnownOf) (ts : Lines) → field ≡ fields.family_field known line
        → (fields.is_same field fields.an_event || fields.is_same field fields.a_citation) ≡ false
        → owners.family_with known (contains nat_cmp seen.new) family.new ts
        ≡ owners.family_with known (contains nat_cmp seen.old) family.old (line ∷ ts)) }
{
    if !is_same(field, Field::Member) {
        family.carried.push(line)?;
        return Ok(());
    }
    if !is_new(seen, number_of(&line))? {
        return Ok(());
    }
    take_member(alloc, family, line)
}

/// Adds a number to those seen, and answers whether it was not there.
fn is_new(seen: &mut BTreeSet<u32>, number: u32) -> Result<bool, AllocError>
    ensures new { IfOk result (λ is. is ≡ not (contains nat_cmp seen.old number)) }
    ensures seen { OnOk result ((n : ℕ) → contains nat_cmp seen.new n ≡ (number == n || contains nat_cmp seen.old n)) }
{
    let added = seen.insert(number)?;
    Ok(added)
}

/// Takes the first line that names a person.
fn take_member(alloc: Global, family: &mut Family, line: Carried) -> Result<(), AllocError>
    ensures { OnOk result (family.new ≡ owners.joined_by family.old line) }
{
    let person = number_of(&line);
    let line = take_apart(alloc, line);
    if line.tag.as_str() == "CHIL" {
        family.children.push(Child {
            person,
            carried: line.below,
            carried_by_person: Vec::new(alloc),
        })?;
        return Ok(());
    }
    let partnership = if line.tag.as_str() == "HUSB" {
        Partnership::Husband
    } else {
        Partnership::Wife
    };
    family.partners.push(Partner {
        partnership,
        person,
        carried: line.below,
        carried_by_person: Vec::new(alloc),
    })?;
    Ok(())
}
