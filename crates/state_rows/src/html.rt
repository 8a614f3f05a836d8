//! Pages of HTML of what is shown.

use crate::masked::masked_on;
use archive_state::State;
use html_lists::{HtmlLists, register, surname};
use html_pages::HtmlLibrary;
use html_parts::Words;
use masking::Shown;
use record_text::RefusalKind;
use row_words::{Answer, number, word};
use sheets::Generations;
use std::alloc::{AllocError, Global};

/// The name of the society, in which characters of markup stand.
const SOCIETY: &str = "Kent & \"Sons'\" <Society>";

/// Says a page of what is shown that day, or that there is none.
pub(crate) fn say_html(
    alloc: Global,
    state: &State,
    words: &[String],
    out: &mut Answer,
) -> Result<(), RefusalKind> {
    let masked = masked_on(alloc, state, words)?;
    let lists = lists_of(alloc, masked)?;
    let page = page_of(alloc, &lists, words);
    drop(lists);
    match page? {
        Some(page) => out.say(page.as_str()),
        None => out.say("no page"),
    }
    out.say("\n");
    Ok(())
}

/// What a room of the society has.
pub(crate) fn lists_of(alloc: Global, masked: Shown) -> Result<HtmlLists, AllocError> {
    let society = Words::of(alloc, SOCIETY)?;
    let library = HtmlLibrary::new(alloc, masked)?;
    HtmlLists::new(alloc, library, society)
}

fn page_of(
    alloc: Global,
    lists: &HtmlLists,
    words: &[String],
) -> Result<Option<Words>, AllocError> {
    let library = lists.library();
    let of = number(words, 3);
    let page = number(words, 4);
    match word(words, 2) {
        "home" => Ok(Some(lists.home(alloc)?)),
        "person" => library.person(alloc, SOCIETY, of),
        "family" => library.family(alloc, SOCIETY, of),
        "pedigree" => pedigree_of(alloc, library, of, page),
        "register" => register(alloc, library, SOCIETY, of, page as usize),
        "surname" => surname(alloc, library, SOCIETY, word(words, 3), page as usize),
        _ => lists.search(alloc, word(words, 3), page as usize),
    }
}

fn pedigree_of(
    alloc: Global,
    library: &HtmlLibrary,
    of: u32,
    generations: u32,
) -> Result<Option<Words>, AllocError> {
    match Generations::new(generations) {
        Some(generations) => library.pedigree(alloc, SOCIETY, of, generations),
        None => Ok(None),
    }
}
