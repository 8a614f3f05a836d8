//! The line of a record.

ghost use Rattle.std.specs.Prelude.{◌≡◌, ◌++◌, IfOk, OnOk, string_bytes};
ghost use Rattle.std.specs.List.{flat_map};
ghost use Rattle.record_kinds.specs.declared.record.Record.TheVariants as kind;
ghost use Rattle.searching.specs.Lines as lines;
ghost use Rattle.sheet_lines.specs.Lines.{page_words, title_words};

use crate::printing::shown;
use record_kinds::{Child, Citation, Entry, Event, Family, Partner, Person, Record, Repo, Source};
use record_text::Text;
use sheet_lines::{display_of, push_dated, push_printed};
use std::alloc::{AllocError, Global};
use std::marker::Model;

/// The line of a record, without a line end. Contracts see it as the number and the bytes.
#[derive(Debug, Drop)]
pub struct Line {
    /// The number of the record.
    pub number: u32,
    pub text: String,
}

impl Model for Line {
    ghost use Rattle.std.specs.Prelude.{List, ℕ, string_bytes};

    ghost Value = { ℕ × List ℕ };

    ghost view = { λ a. (a.number, string_bytes a.text) };
}

/// The line of a record, without a line end. Refused only if out of memory.
pub fn line_of(alloc: Global, number: u32, record: &Record) -> Result<String, AllocError>
    ensures { IfOk result (λ s. string_bytes s ≡ lines.line number «record».now) }
{
    let mut out = String::new(alloc);
    write!(out, "{number}  ")?;
    push_words(alloc, &mut out, record)?;
    shown(alloc, &out)
}

fn push_words(alloc: Global, out: &mut String, record: &Record) -> Result<(), AllocError>
    ensures { OnOk result (string_bytes out.new ≡ string_bytes out.old ++ lines.words «record».now) }
{
    match record {
        Record::Person(person) => push_person(alloc, out, person),
        Record::Family(family) => push_family(out, family),
        Record::Event(event) => push_event(out, event),
        Record::Place(place) => {
            out.push_str("place  ")?;
            out.push_str(place.name.as_str())
        }
        Record::Repo(repo) => push_repo(out, repo),
        Record::Source(source) => push_source(out, source),
        Record::Citation(citation) => push_citation(out, citation),
        Record::Entry(entry) => push_entry(out, entry),
        Record::Other(other) => {
            out.push_str("other  ")?;
            out.push_str(other.tag.as_str())
        }
    }
}

fn push_person(alloc: Global, out: &mut String, person: &Person) -> Result<(), AllocError>
    ensures { OnOk result (string_bytes out.new ≡ string_bytes out.old ++ lines.words (kind.Person person.now)) }
{
    let name = display_of(alloc, person)?;
    write!(out, "person  {name}")
}

fn push_family(out: &mut String, family: &Family) -> Result<(), AllocError>
    ensures { OnOk result (string_bytes out.new ≡ string_bytes out.old ++ lines.words (kind.Family family.now)) }
{
    out.push_str("family")?;
    push_partners(out, &family.partners)?;
    push_children(out, &family.children)
}

fn push_partners(out: &mut String, partners: &[Partner]) -> Result<(), AllocError>
    ensures { OnOk result (string_bytes out.new ≡ string_bytes out.old ++ flat_map lines.partner_words partners.now) }
{
    'each: for partner in partners {
        push_partner(out, partner)?;
    }
    Ok(())
}

fn push_partner(out: &mut String, partner: &Partner) -> Result<(), AllocError>
    ensures { OnOk result (string_bytes out.new ≡ string_bytes out.old ++ lines.partner_words partner.now) }
{
    let word = partner.partnership.as_str();
    let person = partner.person;
    write!(out, "  {word} {person}")
}

fn push_children(out: &mut String, children: &[Child]) -> Result<(), AllocError>
    ensures { OnOk result (string_bytes out.new ≡ string_bytes out.old ++ flat_map lines.child_words children.now) }
{
    'each: for child in children {
        push_child(out, child)?;
    }
    Ok(())
}

fn push_child(out: &mut String, child: &Child) -> Result<(), AllocError>
    ensures { OnOk result (string_bytes out.new ≡ string_bytes out.old ++ lines.child_words child.now) }
{
    let person = child.person;
    write!(out, "  child {person}")
}

fn push_event(out: &mut String, event: &Event) -> Result<(), AllocError>
    ensures { OnOk result (string_bytes out.new ≡ string_bytes out.old ++ lines.words (kind.Event event.now)) }
{
    let owner = event.owner;
    out.push_str("event  ")?;
    out.push_str(event.tag.as_str())?;
    push_dated(out, "  ", event.date.as_ref())?;
    write!(out, "  of {owner}")
}

fn push_repo(out: &mut String, repo: &Repo) -> Result<(), AllocError>
    ensures { OnOk result (string_bytes out.new ≡ string_bytes out.old ++ lines.words (kind.Repo repo.now)) }
{
    out.push_str("repository  ")?;
    push_named(out, &repo.name)
}

fn push_source(out: &mut String, source: &Source) -> Result<(), AllocError>
    ensures { OnOk result (string_bytes out.new ≡ string_bytes out.old ++ lines.words (kind.Source source.now)) }
{
    out.push_str("source  ")?;
    push_named(out, &source.title)
}

/// Appends a name or a title; `?` without one.
fn push_named(out: &mut String, name: &Option<Text>) -> Result<(), AllocError>
    ensures { OnOk result (string_bytes out.new ≡ string_bytes out.old ++ title_words name.now) }
{
    match name {
        Some(name) => push_printed(out, name.as_str()),
        None => out.push_str("?"),
    }
}

fn push_citation(out: &mut String, citation: &Citation) -> Result<(), AllocError>
    ensures { OnOk result (string_bytes out.new ≡ string_bytes out.old ++ lines.words (kind.Citation citation.now)) }
{
    let owner = citation.owner;
    let source = citation.source;
    write!(out, "citation  of {owner}  source {source}")?;
    push_page(out, &citation.page)
}

fn push_page(out: &mut String, page: &Option<Text>) -> Result<(), AllocError>
    ensures { OnOk result (string_bytes out.new ≡ string_bytes out.old ++ page_words page.now) }
{
    match page {
        None => Ok(()),
        Some(page) => {
            out.push_str(", page ")?;
            push_printed(out, page.as_str())
        }
    }
}

fn push_entry(out: &mut String, entry: &Entry) -> Result<(), AllocError>
    ensures { OnOk result (string_bytes out.new ≡ string_bytes out.old ++ lines.words (kind.Entry entry.now)) }
{
    let source = entry.source;
    write!(out, "entry  source {source}  page ")?;
    out.push_str(entry.page.as_str())?;
    push_entry_end(out, entry)
}

fn push_entry_end(out: &mut String, entry: &Entry) -> Result<(), AllocError>
    ensures { OnOk result (string_bytes out.new ≡ string_bytes out.old ++ lines.entry_end entry.now) }
{
    let item = entry.item.number;
    let kind = entry.kind.as_str();
    write!(out, "  no. {item}  {kind}")?;
    push_dated(out, "  ", entry.date.as_ref())
}
