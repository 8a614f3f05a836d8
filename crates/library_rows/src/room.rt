//! A room that shows the records of odd numbers, by a word and the number.

ghost use Rattle.std.specs.Prelude.{◌≡◌, Some, IfOk, codes};
ghost use Rattle.room_requests.specs.Queries.{value_of};
ghost use Rattle.room_requests.specs.Visits.{answer_to as page_answers};
ghost use Rattle.library_rows.specs.Room.{record_page, pedigree_page, generations_page, surname_page};

use room_requests::{Answering, HeadRead, Page, PageFound, PageText, Pages, Query, answer_to};
use std::alloc::{AllocError, Global};

/// The room of these tests.
#[derive(Clone, Copy)]
pub(crate) struct TestRoom;

impl Answering for TestRoom {
    ghost use Rattle.std.specs.Prelude.{⊤};
    ghost use Rattle.library_rows.specs.Room.{room};

    ghost answers = { λ _. page_answers room };

    ghost is_honest = { λ _. ⊤ };

    fn answer(&self, alloc: Global, shown: HeadRead) -> Result<Vec<u8>, AllocError> {
        answer_to(alloc, self, shown)
    }
}

impl Pages for TestRoom {
    ghost use Rattle.std.specs.Prelude.{⊤};
    ghost use Rattle.library_rows.specs.Room.{room};

    ghost shows = { λ _. room };

    ghost is_honest = { λ _. ⊤ };

    fn show(&self, alloc: Global, page: Page, query: &Query) -> Result<PageFound, AllocError> {
        match page {
            Page::Index => Ok(PageFound::Text(PageText::new(String::from_str(alloc, "index\n")?))),
            Page::Person(number) => record_page(alloc, "person", number),
            Page::Family(number) => record_page(alloc, "family", number),
            Page::Register(number) => record_page(alloc, "register", number),
            Page::Pedigree(number) => pedigree_page(alloc, number, query),
            Page::Surname => surname_page(alloc, query),
        }
    }
}

fn record_page(alloc: Global, word: &str, number: u32) -> Result<PageFound, AllocError>
    ensures { IfOk result (λ found. found ≡ record_page word.now number) }
{
    if number % 2 != 1 {
        return Ok(PageFound::NotShown);
    }
    let text = format!(in alloc; "{word} {number}\n")?;
    Ok(PageFound::Text(PageText::new(text)))
}

fn pedigree_page(alloc: Global, number: u32, query: &Query) -> Result<PageFound, AllocError>
    ensures { IfOk result (λ found. found ≡ pedigree_page number query.now) }
{
    if number % 2 != 1 {
        return Ok(PageFound::NotShown);
    }
    let count = query.generations(alloc)?;
    generations_page(alloc, number, count)
}

fn generations_page(alloc: Global, number: u32, count: Option<u32>) -> Result<PageFound, AllocError>
    ensures { IfOk result (λ found. found ≡ generations_page number count) }
{
    match count {
        Some(count) => counted_page(alloc, number, count),
        None => Ok(PageFound::WrongQuery),
    }
}

fn counted_page(alloc: Global, number: u32, count: u32) -> Result<PageFound, AllocError>
    ensures { IfOk result (λ found. found ≡ generations_page number (Some count)) }
{
    let text = format!(in alloc; "{count} generations of {number}\n")?;
    Ok(PageFound::Text(PageText::new(text)))
}

fn surname_page(alloc: Global, query: &Query) -> Result<PageFound, AllocError>
    ensures { IfOk result (λ found. found ≡ surname_page (value_of (codes "name") query.now)) }
{
    match query.name(alloc)? {
        Some(name) => {
            let name = name.as_str();
            let text = format!(in alloc; "surname {name}\n")?;
            Ok(PageFound::Text(PageText::new(text)))
        }
        None => Ok(PageFound::WrongQuery),
    }
}
