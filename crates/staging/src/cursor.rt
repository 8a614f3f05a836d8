//! How far the rows of an import are written: first those of `record`, then those with the lines, then the links, what
//! is looked for and the spans.

ghost use Rattle.std.specs.Prelude.{◌≡◌, ◌↔◌, ℕ, false, []};
ghost use Rattle.staging.specs.Opened.{later_left, left_of};

use crate::later::Later;
use archive_state::Numbered;

/// How far the rows of an import are written.
#[derive(Clone, Copy)]
pub(crate) struct Cursor {
    /// How many rows of `record` are written.
    pub(crate) rows: usize,
    /// Of how many records the lines are written.
    pub(crate) done: usize,
    /// How many links are written.
    pub(crate) links: usize,
    /// Of how many records it is written what they are looked for by.
    pub(crate) soughts: usize,
    /// How many spans are written.
    pub(crate) spans: usize,
}

impl Cursor {
    /// Nothing is written yet.
    pub(crate) fn new() -> Cursor
        ensures { result ≡ record { rows = 0; done = 0; links = 0; soughts = 0; spans = 0 } }
    {
        Cursor {
            rows: 0,
            done: 0,
            links: 0,
            soughts: 0,
            spans: 0,
        }
    }

    /// Whether rows are left to be written.
    pub(crate) fn has_more(&self, puts: &[Numbered], later: &Later) -> bool
        ensures { (batch : ℕ) → (result ≡ false) ↔ (left_of batch puts.now later.now self.now ≡ []) }
    {
        self.rows < puts.len() || self.done < puts.len() || self.has_later(later)
    }

    /// Whether rows that come after the lines are left to be written.
    fn has_later(&self, later: &Later) -> bool
        ensures { (result ≡ false) ↔ (later_left later.now self.now ≡ []) }
    {
        let links = later.links.as_slice();
        if self.links < links.len() {
            return true;
        }
        let soughts = later.soughts.as_slice();
        if self.soughts < soughts.len() {
            return true;
        }
        let spans = later.spans.as_slice();
        self.spans < spans.len()
    }
}
