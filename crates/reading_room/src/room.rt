//! What a visitor is shown of an archive.

ghost use Rattle.std.specs.Prelude.{◌≡◌, ◌≤◌, ℕ, List, codes, IfOk, IfSome, Result};
ghost use Rattle.record_text.specs.declared.refusal.RefusalKind.{RefusalKind as SpecKind};
ghost use Rattle.archive_state.specs.Sound.{IsSound};
ghost use Rattle.room_requests.specs.Queries.{value_of};
ghost use Rattle.room_requests.specs.Visits.{answer_to as page_answers};
ghost use Rattle.reading_room.specs.Room as shows;
ghost use Rattle.reading_room.specs.Sheets.{IsToldOf};

use masking::Shown;
use record_text::RefusalKind;
use room_requests::{Answering, HeadRead, Page, PageFound, PageText, Pages, Query, answer_to};
use sheets::{Generations, Library};
use std::alloc::{AllocError, Global};
use std::marker::Model;

/// A room where the sheets of a masked state lie open. Contracts see the masked state.
pub struct Room {
    library: Library,
}

// It is written out, so that no function above proves again how a library is dropped.
impl Drop for Room {
    fn drop(self) {
        let Room { library: _ } = self;
    }
}

impl Model for Room {
    ghost use Rattle.std.specs.Coded.{codes, coded_ℕ, coded_list};
    ghost use Rattle.std.specs.FinMap as map;
    ghost use Rattle.stored_lines.specs.Line.{lines_code, value_code};
    ghost use Rattle.archive_state.specs.Content as content;

    ghost Value = { content.Content };

    ghost coded = { Prim.hlevel (codes, map.code, lines_code, value_code) };

    ghost view = { λ r. r.library };
}

impl Pages for Room {
    ghost shows = { λ r. shows.room r.records };

    ghost is_honest = { λ r. IsSound r };

    fn show(&self, alloc: Global, page: Page, query: &Query) -> Result<PageFound, AllocError> {
        match page {
            Page::Index => Ok(PageFound::Text(PageText::new(self.library.index(alloc)?))),
            Page::Person(number) => sheet_page(self.library.person(alloc, number)),
            Page::Family(number) => sheet_page(self.library.family(alloc, number)),
            Page::Register(number) => sheet_page(self.library.register(alloc, number)),
            Page::Pedigree(number) => {
                let generations = query.generations(alloc)?;
                self.pedigree(alloc, number, generations)
            }
            Page::Surname => self.surname(alloc, query),
        }
    }
}

impl Answering for Room {
    ghost answers = { λ r. page_answers (shows.room r.records) };

    ghost is_honest = { λ r. IsSound r };

    fn answer(&self, alloc: Global, shown: HeadRead) -> Result<Vec<u8>, AllocError> {
        answer_to(alloc, self, shown)
    }
}

impl Room {
    /// A room that shows a masked state. Refused only if out of memory.
    pub fn new(alloc: Global, shown: Shown) -> Result<Room, AllocError>
        ensures { IfOk result (λ r. r ≡ shown) }
    {
        let library = Library::new(alloc, shown)?;
        Ok(Room { library })
    }

    /// A room where the sheets of a library lie open.
    pub fn over(library: Library) -> Room
        ensures { result ≡ library }
    {
        Room { library }
    }

    /// The pedigree of a person, of so many generations. `None`: the query has no right number of them.
    fn pedigree(
        &self,
        alloc: Global,
        person: u32,
        generations: Option<u32>,
    ) -> Result<PageFound, AllocError>
        requires { IfSome generations (λ n. (1 ≤ n) × (n ≤ 12)) }
        ensures { IsSound self.now → IfOk result
            (λ found. found ≡ shows.pedigree_page self.now.records person generations) }
    {
        match generations {
            Some(count) => sheet_page(self.library.pedigree(alloc, person, generations_of(count))),
            None => wrong_page(self.library.pedigree(alloc, person, generations_of(1))),
        }
    }

    /// The persons of the surname that a query names.
    fn surname(&self, alloc: Global, query: &Query) -> Result<PageFound, AllocError>
        ensures { IsSound self.now → IfOk result
            (λ found. found ≡ shows.surname_page self.now.records (value_of (codes "name") query.now)) }
    {
        match query.name(alloc)? {
            Some(surname) => {
                let text = self.library.surname(alloc, surname.as_str())?;
                Ok(PageFound::Text(PageText::new(text)))
            }
            None => Ok(PageFound::WrongQuery),
        }
    }
}

/// A sheet as a page.
fn sheet_page(sheet: Result<String, RefusalKind>) -> Result<PageFound, AllocError>
    ensures { (told : Result (List ℕ) SpecKind) → IsToldOf sheet told
        → IfOk result (λ found. found ≡ shows.sheet_page told) }
{
    match sheet {
        Ok(text) => Ok(PageFound::Text(PageText::new(text))),
        Err(RefusalKind::OutOfMemory) => Err(AllocError),
        Err(_) => Ok(PageFound::NotShown),
    }
}

/// The page of a sheet that is asked for by a wrong query.
fn wrong_page(sheet: Result<String, RefusalKind>) -> Result<PageFound, AllocError>
    ensures { (told : Result (List ℕ) SpecKind) → IsToldOf sheet told
        → IfOk result (λ found. found ≡ shows.wrongly_asked told) }
{
    match sheet {
        Ok(_) => Ok(PageFound::WrongQuery),
        Err(RefusalKind::OutOfMemory) => Err(AllocError),
        Err(_) => Ok(PageFound::NotShown),
    }
}

/// That many generations.
fn generations_of(count: u32) -> Generations
    requires { (1 ≤ count) × (count ≤ 12) }
    ensures { result.count ≡ count }
{
    match Generations::new(count) {
        Some(generations) => generations,
        None => unreachable!(),
    }
}
