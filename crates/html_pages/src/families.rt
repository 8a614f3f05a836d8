//! Families: who is in one, as items of lists, and the page of one.

ghost use Rattle.std.specs.Prelude.{◌≡◌, ◌++◌, IfOk, OnOk, Some, option_map, string_bytes};
ghost use Rattle.std.specs.FinMap as map;
ghost use Rattle.record_kinds.specs.declared.record.Record.TheVariants as kind;
ghost use Rattle.sheet_lines.specs.Lines as lines;
ghost use Rattle.sheets.specs.Gathered.{gathered};
ghost use Rattle.html_text.specs.declared.names.Element.TheVariants as element;
ghost use Rattle.html_parts.specs.Building.{element_parts};
ghost use Rattle.html_parts.specs.Parts.{page_bytes};
ghost use Rattle.html_pages.specs.Items as items;
ghost use Rattle.html_pages.specs.Pages as pages;

use crate::events::push_owned;
use crate::framing::page_with;
use crate::label::Label;
use crate::library::HtmlLibrary;
use crate::links::push_person_link;
use crate::listing::{Listing, push_items, push_section};
use html_parts::{Part, Parts, Route, Words};
use html_text::Element;
use record_fields::Partnership;
use record_kinds::{Child, Family, Partner, Record};
use std::alloc::{AllocError, Global};

/// The page of a family.
pub(crate) fn page_of(
    alloc: Global,
    library: &HtmlLibrary,
    society: &str,
    number: u32,
    family: &Family,
) -> Result<Option<Words>, AllocError>
    ensures { IfOk result (λ page. page ≡ option_map page_bytes (pages.family_page_in society.now
        (gathered library.now.records) number (Some (kind.Family family.now)))) }
{
    let title = title_of(alloc, number)?;
    let mut main = Parts::new(alloc);
    push_family(alloc, &mut main, library, number, family)?;
    page_with(alloc, society, title.as_str(), main)
}

fn push_family(
    alloc: Global,
    out: &mut Parts,
    library: &HtmlLibrary,
    number: u32,
    family: &Family,
) -> Result<(), AllocError>
    ensures { OnOk result (out.new ≡ out.old
        ++ pages.family_parts (gathered library.now.records) number family.now) }
{
    push_heading(alloc, out, number)?;
    push_section(
        alloc,
        out,
        library,
        Label::Partners.as_str(),
        &Partners,
        &family.partners,
    )?;
    push_owned(alloc, out, library, number)?;
    push_section(
        alloc,
        out,
        library,
        Label::Children.as_str(),
        &Children,
        &family.children,
    )
}

fn push_heading(alloc: Global, out: &mut Parts, number: u32) -> Result<(), AllocError>
    ensures { OnOk result (out.new ≡ out.old ++ element_parts element.H1 (pages.family_title number)) }
{
    let title = title_of(alloc, number)?;
    out.element(alloc, Element::H1, title.as_str())
}

/// The title of the page of a family.
#[tactic(auto, unfolding(crate::specs::Pages::family_title))]
fn title_of(alloc: Global, number: u32) -> Result<String, AllocError>
    ensures { IfOk result (λ s. string_bytes s ≡ pages.family_title number) }
{
    let mut title = String::new(alloc);
    write!(title, "Family {number}")?;
    Ok(title)
}

/// Families by their numbers, and below each who is in it.
pub(crate) struct Families;

impl Listing<u32> for Families {
    ghost use Rattle.html_pages.specs.Items.{family_at};

    ghost parts = { λ s g. family_at g };

    fn push(
        &self,
        alloc: Global,
        out: &mut Parts,
        library: &HtmlLibrary,
        item: &u32,
    ) -> Result<(), AllocError> {
        match library.record(*item) {
            Some(Record::Family(family)) => push_item(alloc, out, library, *item, family),
            _ => Ok(()),
        }
    }
}

fn push_item(
    alloc: Global,
    out: &mut Parts,
    library: &HtmlLibrary,
    number: u32,
    family: &Family,
) -> Result<(), AllocError>
    ensures { OnOk result (out.new ≡ out.old
        ++ items.family_item (map.get library.now.records) number (Some (kind.Family family.now))) }
{
    out.start(Element::Li)?;
    push_family_link(alloc, out, number)?;
    out.start(Element::Ul)?;
    push_items(alloc, out, library, &Partners, &family.partners)?;
    push_items(alloc, out, library, &Children, &family.children)?;
    out.end(Element::Ul)?;
    out.end(Element::Li)
}

fn push_family_link(alloc: Global, out: &mut Parts, number: u32) -> Result<(), AllocError>
    ensures { OnOk result (out.new ≡ out.old ++ items.family_link number) }
{
    out.push(Part::Link(Route::Family(number)))?;
    out.words(alloc, Label::Family.as_str())?;
    out.number(alloc, number as usize)?;
    out.end(Element::A)
}

/// The partners of a family.
struct Partners;

impl Listing<Partner> for Partners {
    ghost use Rattle.html_pages.specs.Items.{partner_item};

    ghost parts = { λ s g. partner_item g.at };

    fn push(
        &self,
        alloc: Global,
        out: &mut Parts,
        library: &HtmlLibrary,
        item: &Partner,
    ) -> Result<(), AllocError> {
        out.start(Element::Li)?;
        out.words(alloc, partner_word(item.partnership))?;
        push_person_link(alloc, out, library, item.person)?;
        out.end(Element::Li)
    }
}

fn partner_word(partnership: Partnership) -> &'static str
    ensures { result.now ≡ lines.partner_word partnership }
{
    match partnership {
        Partnership::Husband => "Husband: ",
        Partnership::Wife => "Wife: ",
    }
}

/// The children of a family.
struct Children;

impl Listing<Child> for Children {
    ghost use Rattle.html_pages.specs.Items.{child_item};

    ghost parts = { λ s g. child_item g.at };

    fn push(
        &self,
        alloc: Global,
        out: &mut Parts,
        library: &HtmlLibrary,
        item: &Child,
    ) -> Result<(), AllocError> {
        out.start(Element::Li)?;
        out.words(alloc, Label::Child.as_str())?;
        push_person_link(alloc, out, library, item.person)?;
        out.end(Element::Li)
    }
}
