//! Pages of 50 items.

ghost use Rattle.std.specs.Prelude.{◌≡◌, ◌≤◌, ◌*◌, ◌-◌, ◌++◌, IfOk, OnOk, option_copied, string_bytes, true};
ghost use Rattle.std.specs.List.{flat_map};
ghost use Rattle.sheets.specs.Gathered.{gathered};
ghost use Rattle.html_lists.specs.Paging as paging;

use html_pages::{HtmlLibrary, Listing, push_items};
use html_parts::{Class, Part, Parts, Route, Words};
use html_text::Element;
use std::alloc::{AllocError, Global};

/// How many items a page has.
const PER_PAGE: usize = 50;

/// What a list with pages is of.
#[derive(Drop)]
pub(crate) enum Paged {
    /// The entries of a source.
    Register(u32),
    /// The persons of a surname.
    Surname(Words),
    /// What is found by words.
    Search(Words),
}

/// A page of a list: its number, and that of the last.
#[derive(Clone, Copy)]
pub(crate) struct Place {
    pub page: usize,
    pub last: usize,
}

/// The number of the last page of so many items.
pub(crate) fn last_page(count: usize) -> usize
    ensures { result ≡ paging.last_page count }
{
    count.saturating_sub(1) / PER_PAGE + 1
}

/// Whether there is such a page of so many items.
fn is_page(page: usize, count: usize) -> bool
    ensures page { result ≡ paging.is_page page count }
    ensures within { result ≡ true → (1 ≤ page) × (page ≤ paging.last_page count) }
{
    1 <= page && page <= last_page(count)
}

/// Where a page begins.
fn begin_of(page: usize, count: usize) -> usize
    requires { (1 ≤ page) × (page ≤ paging.last_page count) }
    ensures begin { result ≡ 50 * (page - 1) }
    ensures within { result ≤ count }
{
    PER_PAGE * (page - 1)
}

/// The items of a page. `None`: there is no such page.
pub(crate) fn page_of(items: &[u32], page: usize) -> Option<&[u32]>
    ensures { option_copied result ≡ paging.page_of page items.now }
{
    if is_page(page, items.len()) {
        let (_, rest) = items.split_at(begin_of(page, items.len()));
        return Some(first_of(rest));
    }
    None
}

/// As many items as a page has, or all.
fn first_of(items: &[u32]) -> &[u32]
    ensures { result.now ≡ paging.first_of items.now }
{
    if items.len() <= PER_PAGE {
        return items;
    }
    let (first, _) = items.split_at(PER_PAGE);
    first
}

/// Appends the items of a page, and the way to the pages before and after.
pub(crate) fn push_page<L: Listing<u32>>(
    alloc: Global,
    out: &mut Parts,
    library: &HtmlLibrary,
    listing: &L,
    items: &[u32],
    paged: &Paged,
    place: Place,
) -> Result<(), AllocError>
    ensures { OnOk result (out.new ≡ out.old ++ paging.page_parts paged.now place
        (flat_map (L.parts listing.now (gathered library.now.records)) items.now)) }
{
    out.start(Element::Ul)?;
    push_items(alloc, out, library, listing, items)?;
    out.end(Element::Ul)?;
    push_steps(alloc, out, paged, place)
}

fn push_steps(alloc: Global, out: &mut Parts, paged: &Paged, place: Place) -> Result<(), AllocError>
    ensures { OnOk result (out.new ≡ out.old ++ paging.step_parts paged.now place) }
{
    out.push(Part::Styled(Element::P, Class::Pages))?;
    push_place(alloc, out, place)?;
    push_before(alloc, out, paged, place.page)?;
    push_between(alloc, out, place)?;
    push_after(alloc, out, paged, place)?;
    out.end(Element::P)
}

/// Appends which page this is.
#[tactic(auto, unfolding(crate::specs::Paging::place_words))]
fn place_of(alloc: Global, place: Place) -> Result<String, AllocError>
    ensures { IfOk result (λ s. string_bytes s ≡ paging.place_words place) }
{
    let mut text = String::new(alloc);
    let page = place.page;
    let last = place.last;
    write!(text, "Page {page} of {last}. ")?;
    Ok(text)
}

fn push_place(alloc: Global, out: &mut Parts, place: Place) -> Result<(), AllocError>
    ensures { OnOk result (out.new ≡ out.old ++ paging.place_parts place) }
{
    let text = place_of(alloc, place)?;
    out.push(Part::Words(Words::new(text)))
}

fn push_before(alloc: Global, out: &mut Parts, paged: &Paged, page: usize) -> Result<(), AllocError>
    ensures { OnOk result (out.new ≡ out.old ++ paging.before_parts paged.now page) }
{
    if 1 < page {
        let route = route_of(alloc, paged, page - 1)?;
        return out.link(alloc, route, before_word());
    }
    Ok(())
}

/// Appends a space between the ways, where there are both: browsers of texts would print them as one word.
fn push_between(alloc: Global, out: &mut Parts, place: Place) -> Result<(), AllocError>
    ensures { OnOk result (out.new ≡ out.old ++ paging.between_parts place) }
{
    if 1 < place.page && place.page < place.last {
        return out.words(alloc, " ");
    }
    Ok(())
}

fn push_after(alloc: Global, out: &mut Parts, paged: &Paged, place: Place) -> Result<(), AllocError>
    ensures { OnOk result (out.new ≡ out.old ++ paging.after_parts paged.now place) }
{
    if place.page < place.last {
        let route = route_of(alloc, paged, place.page + 1)?;
        return out.link(alloc, route, after_word());
    }
    Ok(())
}

/// Where a page of the list is.
fn route_of(alloc: Global, paged: &Paged, page: usize) -> Result<Route, AllocError>
    ensures { IfOk result (λ r. r ≡ paging.route_of paged.now page) }
{
    match paged {
        Paged::Register(number) => Ok(Route::RegisterPage(*number, page)),
        Paged::Surname(surname) => {
            let words = Words::of(alloc, surname.as_str())?;
            Ok(Route::SurnamePage(words, page))
        }
        Paged::Search(searched) => {
            let words = Words::of(alloc, searched.as_str())?;
            Ok(Route::SearchPage(words, page))
        }
    }
}

#[tactic(auto, unfolding(crate::specs::Paging::before_word))]
fn before_word() -> &'static str
    ensures { result.now ≡ paging.before_word }
{
    "Previous page"
}

#[tactic(auto, unfolding(crate::specs::Paging::after_word))]
fn after_word() -> &'static str
    ensures { result.now ≡ paging.after_word }
{
    "Next page"
}
