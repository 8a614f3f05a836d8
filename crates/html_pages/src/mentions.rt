//! The register entries that name a person, as items of a list.

ghost use Rattle.std.specs.Prelude.{◌≡◌, ◌++◌, IfOk, OnOk, Some, string_bytes};
ghost use Rattle.std.specs.FinMap as map;
ghost use Rattle.std.specs.List.{list_any};
ghost use Rattle.record_kinds.specs.declared.record.Record.TheVariants as kind;
ghost use Rattle.html_pages.specs.Items as items;

use crate::library::HtmlLibrary;
use crate::links::push_register_link;
use crate::listing::Listing;
use html_parts::Parts;
use html_text::Element;
use record_kinds::{Entry, Mention, Record};
use sheet_lines::{push_dated, push_printed};
use std::alloc::{AllocError, Global};

/// The entries that name that person, by their numbers.
#[derive(Clone, Copy)]
pub(crate) struct EntriesNaming(pub u32);

impl Listing<u32> for EntriesNaming {
    ghost use Rattle.html_pages.specs.Items.{entry_naming};

    ghost parts = { λ s g. entry_naming s.0 g };

    fn push(
        &self,
        alloc: Global,
        out: &mut Parts,
        library: &HtmlLibrary,
        item: &u32,
    ) -> Result<(), AllocError> {
        match library.record(*item) {
            Some(Record::Entry(entry)) => push_if_named(alloc, out, library, self.0, entry),
            _ => Ok(()),
        }
    }
}

fn push_if_named(
    alloc: Global,
    out: &mut Parts,
    library: &HtmlLibrary,
    person: u32,
    entry: &Entry,
) -> Result<(), AllocError>
    ensures { OnOk result (out.new ≡ out.old
        ++ items.entry_item (map.get library.now.records) person (Some (kind.Entry entry.now))) }
{
    if !names(&entry.mentions, person) {
        return Ok(());
    }
    let text = entry_words(alloc, entry)?;
    out.start(Element::Li)?;
    push_register_link(alloc, out, library, entry.source, text.as_str())?;
    out.end(Element::Li)
}

fn names(mentions: &[Mention], person: u32) -> bool
    ensures { result ≡ list_any (items.is_named person) mentions.now }
{
    mentions.iter().any(|mention| is_named(mention, person))
}

fn is_named(mention: &Mention, person: u32) -> bool
    ensures { result ≡ items.is_named person mention.now }
{
    match &mention.link {
        None => false,
        Some(link) => link.person == person,
    }
}

/// The page of an entry, the number on it, its kind and its date.
#[tactic(auto, unfolding(crate::specs::Items::entry_words))]
pub fn entry_words(alloc: Global, entry: &Entry) -> Result<String, AllocError>
    ensures { IfOk result (λ s. string_bytes s ≡ items.entry_words entry.now) }
{
    let item = entry.item.number;
    let kind = entry.kind.as_str();
    let mut out = String::from_str(alloc, "Page ")?;
    push_printed(&mut out, entry.page.as_str())?;
    write!(out, ", no. {item}: {kind}")?;
    push_dated(&mut out, ", ", entry.date.as_ref())?;
    Ok(out)
}
