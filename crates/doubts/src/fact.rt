//! What records say that others are compared with.

ghost use Rattle.std.specs.Prelude.{◌≡◌, ◌∷◌, ◌++◌, [], IfOk, OnOk, decimal, string_bytes};
ghost use Rattle.std.specs.List.{flat_map};
ghost use Rattle.date_spans.specs.Spans.{date_in};
ghost use Rattle.record_kinds.specs.declared.record.Record.TheVariants as kind;
ghost use Rattle.doubts.specs.Facts as facts;
ghost use Rattle.doubts.specs.declared.fact.Fact.{Fact};

use date_spans::span_of;
use gedcom_date::Span;
use record_kinds::{Entry, Link, Mention, Record};
use std::alloc::{AllocError, Global};
use std::marker::Model;

/// The name of a mention on the page of a source. Contracts see its bytes.
#[derive(Debug, Drop)]
pub(crate) struct NameKey {
    pub(crate) words: String,
}

impl Model for NameKey {
    ghost use Rattle.std.specs.Prelude.{List, ℕ, string_bytes};

    ghost Value = { List ℕ };

    ghost view = { λ a. string_bytes a.words };
}

/// What a record says that others are compared with.
#[derive(Debug, Drop)]
pub(crate) enum Fact {
    /// A mention with this name on this page is linked.
    Linked(NameKey),
    /// When a person was born.
    Born(u32, Span),
    /// When a person was buried.
    Buried(u32, Span),
}

/// Source, page and name of a mention, parted by U+0000.
pub(crate) fn name_key(
    alloc: Global,
    entry: &Entry,
    mention: &Mention,
) -> Result<NameKey, AllocError>
    ensures { IfOk result (λ key. key ≡ facts.name_key entry.now mention.now) }
{
    let words = key_words(
        alloc,
        entry.source,
        entry.page.as_str(),
        mention.name.as_str(),
    )?;
    Ok(NameKey { words })
}

fn key_words(alloc: Global, source: u32, page: &str, name: &str) -> Result<String, AllocError>
    ensures { IfOk result (λ s. string_bytes s ≡ decimal source ++ (0 ∷ (page.now ++ (0 ∷ name.now)))) }
{
    format!(in alloc; "{source}\0{page}\0{name}")
}

/// Adds what a record says.
pub(crate) fn push_facts(
    alloc: Global,
    found: &mut Vec<Fact>,
    record: &Record,
) -> Result<(), AllocError>
    ensures { OnOk result (found.new.items ≡ found.old.items ++ facts.facts_of «record».now) }
{
    match record {
        Record::Event(event) => push_life(alloc, found, event.tag.as_str(), event.owner, record),
        Record::Entry(entry) => push_mentions(alloc, found, entry),
        _ => Ok(()),
    }
}

// ---- births and burials

/// The span of the date of an event or a register entry.
pub(crate) fn dated(alloc: Global, record: &Record) -> Result<Option<Span>, AllocError>
    ensures { IfOk result (λ span. span ≡ facts.dated (date_in «record».now)) }
{
    let span = span_of(alloc, record)?;
    Ok(span)
}

/// Adds when the owner of an event was born or buried, if it is of that tag.
fn push_life(
    alloc: Global,
    found: &mut Vec<Fact>,
    tag: &str,
    owner: u32,
    event: &Record,
) -> Result<(), AllocError>
    ensures { OnOk result (found.new.items
        ≡ found.old.items ++ facts.life_facts tag.now owner (facts.dated (date_in event.now))) }
{
    if tag == "BIRT" {
        return push_born(found, owner, dated(alloc, event)?);
    }
    if tag == "BURI" {
        return push_buried(found, owner, dated(alloc, event)?);
    }
    Ok(())
}

fn push_born(found: &mut Vec<Fact>, person: u32, span: Option<Span>) -> Result<(), AllocError>
    ensures { OnOk result (found.new.items ≡ found.old.items ++ facts.born_facts person span) }
{
    match span {
        None => Ok(()),
        Some(span) => push_fact(found, Fact::Born(person, span)),
    }
}

fn push_buried(found: &mut Vec<Fact>, person: u32, span: Option<Span>) -> Result<(), AllocError>
    ensures { OnOk result (found.new.items ≡ found.old.items ++ facts.buried_facts person span) }
{
    match span {
        None => Ok(()),
        Some(span) => push_fact(found, Fact::Buried(person, span)),
    }
}

// ---- mentions that are linked

fn push_mentions(alloc: Global, found: &mut Vec<Fact>, entry: &Entry) -> Result<(), AllocError>
    ensures { OnOk result (found.new.items ≡ found.old.items ++ facts.facts_of (kind.Entry entry.now)) }
{
    'each: for mention in &entry.mentions {
        push_mention(alloc, found, entry, mention)?;
    }
    Ok(())
}

fn push_mention(
    alloc: Global,
    found: &mut Vec<Fact>,
    entry: &Entry,
    mention: &Mention,
) -> Result<(), AllocError>
    ensures { OnOk result (found.new.items ≡ found.old.items ++ facts.mention_facts entry.now mention.now) }
{
    let key = name_key(alloc, entry, mention)?;
    push_link(found, key, &mention.link)
}

fn push_link(found: &mut Vec<Fact>, key: NameKey, link: &Option<Link>) -> Result<(), AllocError>
    ensures { OnOk result (found.new.items ≡ found.old.items ++ facts.link_facts key link.now) }
{
    match link {
        None => Ok(()),
        Some(_) => push_fact(found, Fact::Linked(key)),
    }
}

fn push_fact(found: &mut Vec<Fact>, fact: Fact) -> Result<(), AllocError>
    ensures { OnOk result (found.new.items ≡ found.old.items ++ fact ∷ []) }
{
    found.push(fact)?;
    Ok(())
}
