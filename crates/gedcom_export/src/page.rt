//! The text of one record of level 0, with what it owns.

ghost use Rattle.std.specs.Prelude.{◌≡◌, ◌++◌, [], map, codes, OnOk, Some, option_copied, string_bytes};
ghost use Rattle.record_kinds.specs.declared.record.Record.TheVariants as kind;
ghost use Rattle.record_shapes.specs.Shapes.{shape_of, side_line};
ghost use Rattle.node_writing.specs.Pages.{page, record_page};
ghost use Rattle.gedcom_export.specs.Index.{IsArranged};
ghost use Rattle.gedcom_export.specs.Shown.{around_in, names_in};
ghost use Rattle.gedcom_export.specs.declared.membership.Membership as membership;
ghost use Rattle.gedcom_export.specs.Pieces.{text_at, text_of};

use crate::index::Index;
use crate::membership::Membership;
use crate::owned::{push_citations, push_events};
use archive_state::State;
use node_writing::{
    push_carried, push_entry, push_family, push_head, push_other_head, push_person, push_place,
    push_repo, push_side, push_source,
};
use record_kinds::{Entry, Family, Other, Person, Place, Record, Repo, Source};
use std::alloc::{AllocError, Global};

/// Appends the record of a number, with what it owns. An event or a citation has its lines below another record, so
/// nothing is appended for it.
pub(crate) fn push_record(
    alloc: Global,
    state: &State,
    index: &Index,
    text: &mut String,
    number: u32,
) -> Result<(), AllocError>
    requires { IsArranged index.now }
    ensures { OnOk result (string_bytes text.new ≡ string_bytes text.old
        ++ text_at state.now.records index.now number) }
{
    push_found(alloc, state, index, text, number, state.record(number))
}

fn push_found(
    alloc: Global,
    state: &State,
    index: &Index,
    text: &mut String,
    number: u32,
    found: Option<&Record>,
) -> Result<(), AllocError>
    requires { IsArranged index.now }
    ensures { OnOk result (string_bytes text.new ≡ string_bytes text.old
        ++ text_of state.now.records index.now number (option_copied found.entry)) }
{
    match found {
        Some(Record::Place(place)) => push_place_page(alloc, index, text, number, place),
        Some(Record::Repo(repo)) => push_repo_page(alloc, index, text, number, repo),
        Some(Record::Source(source)) => push_source_page(alloc, index, text, number, source),
        Some(Record::Person(person)) => push_person_page(alloc, state, index, text, number, person),
        Some(Record::Family(family)) => push_family_page(alloc, state, index, text, number, family),
        Some(Record::Entry(entry)) => push_entry_page(alloc, index, text, number, entry),
        Some(Record::Other(other)) => push_other_page(alloc, index, text, number, other),
        Some(Record::Event(_) | Record::Citation(_)) | None => Ok(()),
    }
}

fn push_place_page(
    alloc: Global,
    index: &Index,
    text: &mut String,
    number: u32,
    place: &Place,
) -> Result<(), AllocError>
    ensures { OnOk result (string_bytes text.new ≡ string_bytes text.old ++ record_page (names_in index.now) number
        (shape_of (around_in index.now) number (kind.Place place.now) [])) }
{
    push_head(alloc, text, index, number, "_LOC", "")?;
    push_place(alloc, text, index, place)
}

fn push_repo_page(
    alloc: Global,
    index: &Index,
    text: &mut String,
    number: u32,
    repo: &Repo,
) -> Result<(), AllocError>
    ensures { OnOk result (string_bytes text.new ≡ string_bytes text.old ++ record_page (names_in index.now) number
        (shape_of (around_in index.now) number (kind.Repo repo.now) [])) }
{
    push_head(alloc, text, index, number, "REPO", "")?;
    push_repo(alloc, text, index, repo)
}

fn push_source_page(
    alloc: Global,
    index: &Index,
    text: &mut String,
    number: u32,
    source: &Source,
) -> Result<(), AllocError>
    ensures { OnOk result (string_bytes text.new ≡ string_bytes text.old ++ record_page (names_in index.now) number
        (shape_of (around_in index.now) number (kind.Source source.now) [])) }
{
    push_head(alloc, text, index, number, "SOUR", "")?;
    push_source(alloc, text, index, source)
}

fn push_entry_page(
    alloc: Global,
    index: &Index,
    text: &mut String,
    number: u32,
    entry: &Entry,
) -> Result<(), AllocError>
    ensures { OnOk result (string_bytes text.new ≡ string_bytes text.old ++ record_page (names_in index.now) number
        (shape_of (around_in index.now) number (kind.Entry entry.now) [])) }
{
    push_head(alloc, text, index, number, "_REG", entry.kind.as_str())?;
    push_entry(alloc, text, index, entry)
}

fn push_other_page(
    alloc: Global,
    index: &Index,
    text: &mut String,
    number: u32,
    other: &Other,
) -> Result<(), AllocError>
    ensures { OnOk result (string_bytes text.new ≡ string_bytes text.old ++ record_page (names_in index.now) number
        (shape_of (around_in index.now) number (kind.Other other.now) [])) }
{
    push_other_head(alloc, text, index, number, other.tag.as_str(), &other.value)?;
    push_carried(alloc, text, index, 1, &other.carried)
}

/// Appends a person: names and sex, events, families, citations, carried lines.
fn push_person_page(
    alloc: Global,
    state: &State,
    index: &Index,
    text: &mut String,
    number: u32,
    person: &Person,
) -> Result<(), AllocError>
    requires { IsArranged index.now }
    ensures { OnOk result (string_bytes text.new ≡ string_bytes text.old
        ++ text_of state.now.records index.now number (Some (kind.Person person.now))) }
{
    push_head(alloc, text, index, number, "INDI", "")?;
    push_person(alloc, text, index, person)?;
    push_events(alloc, state, index, text, index.events_of(number))?;
    push_families(alloc, index, text, "FAMC", index.child_in(number))?;
    push_families(alloc, index, text, "FAMS", index.partner_in(number))?;
    push_citations(alloc, state, index, text, 1, index.citations_of(number))?;
    push_carried(alloc, text, index, 1, &person.carried)?;
    Ok(())
}

/// Appends the families of a person, all with one tag.
fn push_families(
    alloc: Global,
    index: &Index,
    text: &mut String,
    tag: &str,
    families: &[Membership],
) -> Result<(), AllocError>
    ensures { OnOk result (string_bytes text.new ≡ string_bytes text.old ++ page (names_in index.now) 1
        (map (side_line tag.now) (map (λ (x : membership.Membership). x.side) families.now))) }
{
    'families: for family in families {
        push_side(alloc, text, index, tag, &family.side)?;
    }
    Ok(())
}

/// Appends a family: its members, events, citations, carried lines.
fn push_family_page(
    alloc: Global,
    state: &State,
    index: &Index,
    text: &mut String,
    number: u32,
    family: &Family,
) -> Result<(), AllocError>
    requires { IsArranged index.now }
    ensures { OnOk result (string_bytes text.new ≡ string_bytes text.old
        ++ text_of state.now.records index.now number (Some (kind.Family family.now))) }
{
    push_head(alloc, text, index, number, "FAM", "")?;
    push_family(alloc, text, index, family)?;
    push_events(alloc, state, index, text, index.events_of(number))?;
    push_citations(alloc, state, index, text, 1, index.citations_of(number))?;
    push_carried(alloc, text, index, 1, &family.carried)?;
    Ok(())
}
