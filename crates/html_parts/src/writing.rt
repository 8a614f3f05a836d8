//! The bytes of the parts of a page.

ghost use Rattle.std.specs.Prelude.{◌≡◌, ◌++◌, ◌∷◌, [], IfOk, OnOk, string_bytes};
ghost use Rattle.html_parts.specs.Parts as words;
ghost use Rattle.html_parts.specs.Parts.{given, page_bytes, part_text};
ghost use Rattle.html_text.specs.Pages.{start_tag};
ghost use Rattle.html_parts.specs.declared.part.Part.TheVariants as kind;

use crate::part::Part;
use crate::route::{Route, address};
use html_text::{Attribute, Element, Name, Page, VoidElement};
use std::alloc::{AllocError, Global};

/// The bytes of a page of these parts.
pub(crate) fn write_page(alloc: Global, parts: &[Part]) -> Result<String, AllocError>
    ensures { IfOk result (λ s. string_bytes s ≡ page_bytes parts.now) }
{
    let mut page = Page::new(alloc)?;
    'parts: for part in parts {
        push_part(alloc, &mut page, part)?;
    }
    Ok(page.into_string())
}

fn push_part(alloc: Global, page: &mut Page, part: &Part) -> Result<(), AllocError>
    ensures { OnOk result (page.new ≡ page.old ++ part_text part.now) }
{
    match part {
        Part::Language => start_with(alloc, page, Element::Html, Name::Lang, "en"),
        Part::Charset => push_charset(alloc, page),
        Part::Viewport => push_viewport(alloc, page),
        Part::Stylesheet => push_stylesheet(alloc, page),
        Part::Start(element) => page.start(*element, &[]),
        Part::Styled(element, class) => {
            start_with(alloc, page, *element, Name::Class, class.as_str())
        }
        Part::Link(route) => push_link(alloc, page, route),
        Part::Form => push_form(alloc, page),
        Part::Field(words) => push_field(alloc, page, words.as_str()),
        Part::End(element) => page.end(*element),
        Part::Words(words) => page.text(words.as_str()),
    }
}

fn push_charset(alloc: Global, page: &mut Page) -> Result<(), AllocError>
    ensures { OnOk result (page.new ≡ page.old ++ part_text kind.Charset) }
{
    let attributes = one(alloc, Name::Charset, "utf-8")?;
    page.void(VoidElement::Meta, &attributes)
}

fn push_viewport(alloc: Global, page: &mut Page) -> Result<(), AllocError>
    ensures { OnOk result (page.new ≡ page.old ++ part_text kind.Viewport) }
{
    let attributes = two(
        alloc,
        Name::Name,
        viewport_word(),
        Name::Content,
        viewport_rule(),
    )?;
    page.void(VoidElement::Meta, &attributes)
}

fn push_stylesheet(alloc: Global, page: &mut Page) -> Result<(), AllocError>
    ensures { OnOk result (page.new ≡ page.old ++ part_text kind.Stylesheet) }
{
    let attributes = two(alloc, Name::Rel, style_word(), Name::Href, style_address())?;
    page.void(VoidElement::Link, &attributes)
}

fn push_form(alloc: Global, page: &mut Page) -> Result<(), AllocError>
    ensures { OnOk result (page.new ≡ page.old ++ part_text kind.Form) }
{
    let attributes = two(
        alloc,
        Name::Action,
        search_path(),
        Name::Role,
        search_word(),
    )?;
    page.start(Element::Form, &attributes)
}

fn push_field(alloc: Global, page: &mut Page, text: &str) -> Result<(), AllocError>
    ensures { OnOk result (page.new ≡ page.old ++ part_text (kind.Field text.now)) }
{
    let mut attributes = two(alloc, Name::Type, search_word(), Name::Name, "q")?;
    add(alloc, &mut attributes, Name::AriaLabel, field_label())?;
    add(alloc, &mut attributes, Name::Value, text)?;
    page.void(VoidElement::Input, &attributes)
}

fn push_link(alloc: Global, page: &mut Page, route: &Route) -> Result<(), AllocError>
    ensures { OnOk result (page.new ≡ page.old ++ part_text (kind.Link route.now)) }
{
    let address = address(alloc, route)?;
    start_with(alloc, page, Element::A, Name::Href, address.as_str())
}

fn start_with(
    alloc: Global,
    page: &mut Page,
    element: Element,
    name: Name,
    value: &str,
) -> Result<(), AllocError>
    ensures { OnOk result (page.new ≡ page.old ++ start_tag element (given name value.now ∷ [])) }
{
    let attributes = one(alloc, name, value)?;
    page.start(element, &attributes)
}

fn one(alloc: Global, name: Name, value: &str) -> Result<Vec<Attribute>, AllocError>
    ensures { IfOk result (λ list. list.items ≡ given name value.now ∷ []) }
{
    let mut list = Vec::new(alloc);
    add(alloc, &mut list, name, value)?;
    Ok(list)
}

fn two(
    alloc: Global,
    name: Name,
    value: &str,
    next_name: Name,
    next_value: &str,
) -> Result<Vec<Attribute>, AllocError>
    ensures { IfOk result
        (λ list. list.items ≡ given name value.now ∷ given next_name next_value.now ∷ []) }
{
    let mut list = Vec::new(alloc);
    add(alloc, &mut list, name, value)?;
    add(alloc, &mut list, next_name, next_value)?;
    Ok(list)
}

fn add(alloc: Global, list: &mut Vec<Attribute>, name: Name, value: &str) -> Result<(), AllocError>
    ensures { OnOk result (list.new.items ≡ list.old.items ++ given name value.now ∷ []) }
{
    let value = String::from_str(alloc, value)?;
    list.push(Attribute { name, value })?;
    Ok(())
}

#[tactic(auto, unfolding(crate::specs::Parts::viewport_word))]
fn viewport_word() -> &'static str
    ensures { result.now ≡ words.viewport_word }
{
    "viewport"
}

#[tactic(auto, unfolding(crate::specs::Parts::viewport_rule))]
fn viewport_rule() -> &'static str
    ensures { result.now ≡ words.viewport_rule }
{
    "width=device-width, initial-scale=1"
}

#[tactic(auto, unfolding(crate::specs::Parts::search_word))]
fn search_word() -> &'static str
    ensures { result.now ≡ words.search_word }
{
    "search"
}

#[tactic(auto, unfolding(crate::specs::Parts::search_path))]
fn search_path() -> &'static str
    ensures { result.now ≡ words.search_path }
{
    "/search"
}

#[tactic(auto, unfolding(crate::specs::Parts::field_label))]
fn field_label() -> &'static str
    ensures { result.now ≡ words.field_label }
{
    "Words of names"
}

#[tactic(auto, unfolding(crate::specs::Parts::style_word))]
fn style_word() -> &'static str
    ensures { result.now ≡ words.style_word }
{
    "stylesheet"
}

#[tactic(auto, unfolding(crate::specs::Parts::style_address))]
fn style_address() -> &'static str
    ensures { result.now ≡ words.style_address }
{
    "/style.css"
}
