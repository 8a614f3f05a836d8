//! What a room shows.

ghost use Rattle.std.specs.Prelude.{◌≡◌, ℕ, List, IfOk, string_bytes};
ghost use Rattle.room_requests.specs.declared.page.Page.{Page as SpecPage};
ghost use Rattle.room_requests.specs.declared.pages.PageFound.{PageFound as SpecFound};

use crate::page::Page;
use crate::query::Query;
use std::alloc::{AllocError, Global};
use std::marker::Model;

/// The text of a page. Contracts see it as its bytes.
#[derive(Debug, Drop)]
pub struct PageText {
    text: String,
}

impl Model for PageText {
    ghost use Rattle.std.specs.Prelude.{List, ℕ, string_bytes};

    ghost Value = { List ℕ };

    ghost view = { λ p. string_bytes p.text };
}

impl PageText {
    pub fn new(text: String) -> PageText
        ensures { result ≡ string_bytes text }
    {
        PageText { text }
    }

    pub fn as_str(&self) -> &str
        ensures { result.now ≡ self.now }
    {
        self.text.as_str()
    }
}

/// What is found of a page that is asked for.
#[derive(Debug, Drop)]
pub enum PageFound {
    /// It is shown with this text: 200.
    Text(PageText),
    /// Its record is none that is shown: 404.
    NotShown,
    /// Its record is shown, but the query is wrong: 400.
    WrongQuery,
}

/// The pages of a room.
pub trait Pages {
    /// What is found of a page with its query.
    ghost shows: { Self → SpecPage → List ℕ → SpecFound };

    /// Whether it finds just that.
    ghost is_honest: { Self → Type 0 };

    /// What is found of a page with its query. Refused only if out of memory.
    fn show(&self, alloc: Global, page: Page, query: &Query) -> Result<PageFound, AllocError>
        ensures { is_honest self.now → IfOk result (λ found. found ≡ shows self.now page query.now) };
}
