//! The masked records with what lists of them need, made once for many pages.

ghost use Rattle.std.specs.Prelude.{◌≡◌, IfOk, option_map};
ghost use Rattle.sheets.specs.Gathered.{gathered};
ghost use Rattle.html_parts.specs.Parts.{page_bytes};
ghost use Rattle.html_lists.specs.Home.{home_page};
ghost use Rattle.html_lists.specs.Searches.{found, search_page, words_in};

use crate::first_page::first_page;
use crate::naming::index_of;
use crate::searches::found_page;
use html_pages::HtmlLibrary;
use html_parts::Words;
use name_index::NameIndex;
use searching::SearchWords;
use std::alloc::{AllocError, Global};
use std::marker::Model;

/// The masked records of a society, with their first page and with all names folded for searches. Contracts see the
/// masked state and the name of the society.
pub struct HtmlLists {
    library: HtmlLibrary,
    society: Words,
    first: Words,
    names: NameIndex,
}

// It is written out, so that no function above proves again how each part is dropped.
impl Drop for HtmlLists {
    fn drop(self) {
        let HtmlLists {
            library: _,
            society: _,
            first: _,
            names: _,
        } = self;
    }
}

impl Model for HtmlLists {
    ghost use Rattle.std.specs.Prelude.{◌≡◌};
    ghost use Rattle.std.specs.Coded.{codes, coded_ℕ, coded_list};
    ghost use Rattle.std.specs.FinMap as map;
    ghost use Rattle.stored_lines.specs.Line.{lines_code, value_code};
    ghost use Rattle.sheets.specs.Gathered.{gathered};
    ghost use Rattle.html_parts.specs.Parts.{page_bytes};
    ghost use Rattle.html_lists.specs.Home.{home_page};
    ghost use Rattle.html_lists.specs.Indexed.{indexed};
    ghost use Rattle.html_lists.specs.Listed.{Listed};

    ghost Value = { Listed };

    ghost coded = { Prim.hlevel (codes, map.code, lines_code, value_code) };

    ghost view = { λ a. record { state = a.library; society = a.society } };

    ghost invariant = { λ a. (a.first ≡ page_bytes (home_page a.library.records a.society))
        × (a.names ≡ indexed (gathered a.library.records)) };
}

impl HtmlLists {
    /// The records of a society, with their first page and the index of their names. Refused only if out of memory, as
    /// are all calls.
    pub fn new(alloc: Global, library: HtmlLibrary, society: Words) -> Result<HtmlLists, AllocError>
        ensures state { IfOk result (λ l. l.state ≡ library) }
        ensures society { IfOk result (λ l. l.society ≡ society) }
    {
        let first = first_page(alloc, &library, society.as_str())?;
        let names = index_of(alloc, &library)?;
        Ok(HtmlLists {
            library,
            society,
            first,
            names,
        })
    }

    /// The records. Takes no memory.
    pub fn library(&self) -> &HtmlLibrary
        ensures { result.now ≡ self.now.state }
    {
        &self.library
    }

    /// The name of the society. Takes no memory.
    pub fn society(&self) -> &Words
        ensures { result.now ≡ self.now.society }
    {
        &self.society
    }

    /// The first page.
    pub fn home(&self, alloc: Global) -> Result<Words, AllocError>
        ensures { IfOk result (λ page. page ≡ page_bytes (home_page self.now.state.records self.now.society)) }
    {
        Words::of(alloc, self.first.as_str())
    }

    /// A page, from 1 on, of what is found by the words of a text: persons, registers, and register entries, each by
    /// number. Nothing is found without a word. `None`: there is no such page.
    pub fn search(
        &self,
        alloc: Global,
        text: &str,
        page: usize,
    ) -> Result<Option<Words>, AllocError>
        ensures { IfOk result (λ shown. shown
            ≡ option_map page_bytes (search_page self.now.state.records self.now.society text.now page)) }
    {
        let numbers = self.found_by(alloc, text)?;
        let society = self.society.as_str();
        found_page(alloc, &self.library, society, text, page, &numbers)
    }

    /// What is found by the words of a text. No name is folded.
    fn found_by(&self, alloc: Global, text: &str) -> Result<Vec<u32>, AllocError>
        ensures { IfOk result
            (λ numbers. numbers.items ≡ found (gathered self.now.state.records) (words_in text.now)) }
    {
        let mut words = SearchWords::new(alloc);
        words.add(alloc, text)?;
        self.found_in(alloc, &words)
    }

    /// What is found by words.
    fn found_in(&self, alloc: Global, words: &SearchWords) -> Result<Vec<u32>, AllocError>
        ensures { IfOk result (λ numbers. numbers.items ≡ found (gathered self.now.state.records) words.now) }
    {
        self.names.found(alloc, words)
    }
}
