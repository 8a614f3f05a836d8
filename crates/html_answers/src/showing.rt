//! What a room shows of a page with its query.

ghost use Rattle.std.specs.Prelude.{◌≡◌, ◌≤◌, IfOk, IfSome, Some};
ghost use Rattle.html_answers.specs.Showing as shows;
ghost use Rattle.html_answers.specs.declared.asked.HtmlPage.TheVariants as kind;
ghost use Rattle.room_requests.specs.declared.page.Page.TheVariants as room;

use crate::asked::HtmlPage;
use html_lists::{HtmlLists, register, surname};
use html_pages::HtmlLibrary;
use html_parts::{Words, style_sheet};
use room_requests::{Page, Query, number_in};
use sheets::Generations;
use std::alloc::{AllocError, Global};

/// What is found of a page that is asked for.
#[derive(Debug, Drop)]
pub(crate) enum HtmlFound {
    /// It is shown with these bytes.
    Page(Words),
    /// It is the style sheet.
    Style(Words),
    /// Its record is none that is shown, or its list has no such page: 404.
    NotShown,
    /// Its record is shown, but the query is wrong: 400.
    WrongQuery,
}

/// What is found of a page with its query.
pub(crate) fn show(
    alloc: Global,
    lists: &HtmlLists,
    page: HtmlPage,
    query: &Query,
) -> Result<HtmlFound, AllocError>
    ensures { IfOk result
        (λ found. found ≡ shows.shown lists.now.state.records lists.now.society page query.now) }
{
    match page {
        HtmlPage::Room(page) => show_room(alloc, lists, page, query),
        HtmlPage::Search => show_search(alloc, lists, query),
        HtmlPage::Style => Ok(HtmlFound::Style(Words::new(style_sheet(alloc)?))),
    }
}

fn show_room(
    alloc: Global,
    lists: &HtmlLists,
    page: Page,
    query: &Query,
) -> Result<HtmlFound, AllocError>
    ensures { IfOk result
        (λ found. found ≡ shows.shown lists.now.state.records lists.now.society (kind.Room page) query.now) }
{
    let library = lists.library();
    let society = lists.society().as_str();
    match page {
        Page::Index => Ok(HtmlFound::Page(lists.home(alloc)?)),
        Page::Person(number) => Ok(page_found(library.person(alloc, society, number)?)),
        Page::Family(number) => Ok(page_found(library.family(alloc, society, number)?)),
        Page::Pedigree(number) => {
            let generations = query.generations(alloc)?;
            show_pedigree(alloc, library, society, number, generations)
        }
        Page::Register(number) => {
            let at = page_asked(alloc, query)?;
            show_register(alloc, library, society, number, at)
        }
        Page::Surname => show_asked_surname(alloc, library, society, query),
    }
}

fn page_found(page: Option<Words>) -> HtmlFound
    ensures { result ≡ shows.page_found page }
{
    match page {
        None => HtmlFound::NotShown,
        Some(text) => HtmlFound::Page(text),
    }
}

/// A page that is asked for by a wrong query.
fn wrongly_asked(page: Option<Words>) -> HtmlFound
    ensures { result ≡ shows.wrongly_asked page }
{
    match page {
        None => HtmlFound::NotShown,
        Some(_) => HtmlFound::WrongQuery,
    }
}

/// The pedigree of a person, of so many generations. `None`: the query has no right number of them.
fn show_pedigree(
    alloc: Global,
    library: &HtmlLibrary,
    society: &str,
    number: u32,
    generations: Option<u32>,
) -> Result<HtmlFound, AllocError>
    requires { IfSome generations (λ n. (1 ≤ n) × (n ≤ 12)) }
    ensures { IfOk result (λ found. found
        ≡ shows.pedigree_found library.now.records society.now number generations) }
{
    match generations {
        Some(count) => {
            let page = library.pedigree(alloc, society, number, generations_of(count))?;
            Ok(page_found(page))
        }
        None => {
            let page = library.pedigree(alloc, society, number, generations_of(1))?;
            Ok(wrongly_asked(page))
        }
    }
}

/// That many generations.
fn generations_of(count: u32) -> Generations
    requires { (1 ≤ count) × (count ≤ 12) }
    ensures { result.count ≡ count }
{
    match Generations::new(count) {
        Some(generations) => generations,
        None => unreachable!(),
    }
}

fn show_register(
    alloc: Global,
    library: &HtmlLibrary,
    society: &str,
    number: u32,
    at: Option<u32>,
) -> Result<HtmlFound, AllocError>
    ensures { IfOk result (λ found. found ≡ shows.register_found library.now.records society.now number at) }
{
    match at {
        None => Ok(HtmlFound::NotShown),
        Some(at) => {
            let page = register(alloc, library, society, number, at as usize)?;
            Ok(page_found(page))
        }
    }
}

/// The persons of the surname that a query names.
fn show_asked_surname(
    alloc: Global,
    library: &HtmlLibrary,
    society: &str,
    query: &Query,
) -> Result<HtmlFound, AllocError>
    ensures { IfOk result (λ found. found
        ≡ shows.shown library.now.records society.now (kind.Room room.Surname) query.now) }
{
    let at = page_asked(alloc, query)?;
    match query.name(alloc)? {
        Some(of) => show_surname(alloc, library, society, of.as_str(), at),
        None => Ok(HtmlFound::WrongQuery),
    }
}

fn show_surname(
    alloc: Global,
    library: &HtmlLibrary,
    society: &str,
    of: &str,
    at: Option<u32>,
) -> Result<HtmlFound, AllocError>
    ensures { IfOk result (λ found. found ≡ shows.surname_found library.now.records society.now of.now at) }
{
    match at {
        None => Ok(HtmlFound::NotShown),
        Some(at) => {
            let page = surname(alloc, library, society, of, at as usize)?;
            Ok(page_found(page))
        }
    }
}

/// What is found by the words that a query has.
fn show_search(alloc: Global, lists: &HtmlLists, query: &Query) -> Result<HtmlFound, AllocError>
    ensures { IfOk result
        (λ found. found ≡ shows.shown lists.now.state.records lists.now.society kind.Search query.now) }
{
    let at = page_asked(alloc, query)?;
    match query.first_value(alloc, "q")? {
        Some(text) => show_found(alloc, lists, text.as_str(), at),
        None => show_found(alloc, lists, "", at),
    }
}

fn show_found(
    alloc: Global,
    lists: &HtmlLists,
    text: &str,
    at: Option<u32>,
) -> Result<HtmlFound, AllocError>
    ensures { IfOk result
        (λ found. found ≡ shows.search_found lists.now.state.records lists.now.society text.now at) }
{
    match at {
        None => Ok(HtmlFound::NotShown),
        Some(at) => {
            let page = lists.search(alloc, text, at as usize)?;
            Ok(page_found(page))
        }
    }
}

/// Which page of a list a query asks for: the first where it does not say. `None`: what it says is no number.
fn page_asked(alloc: Global, query: &Query) -> Result<Option<u32>, AllocError>
    ensures { IfOk result (λ at. at ≡ shows.page_asked query.now) }
{
    match query.first_value(alloc, "page")? {
        None => Ok(Some(1)),
        Some(text) => Ok(number_in(10, text.as_str())),
    }
}
