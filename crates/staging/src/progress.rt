//! How far an import is, for whoever wants to know.

ghost use Rattle.std.specs.Prelude.{◌≡◌, ◌-◌, ◌^◌, ℕ, length, min};
ghost use Rattle.store_rows.specs.Spans.{AreDrawn, Drawn};
ghost use Rattle.staged_rows.specs.Staging.{rows_of_import};
ghost use Rattle.staging.specs.Counts.{RowCount, a_stage_more, after_stages};
ghost use Rattle.staging.specs.Opened.{AreLater};

use crate::later::Later;
use crate::opened::OpenImport;
use crate::writing::STAGE;
use archive_state::Numbered;

/// Who gets to know how far an import is. What becomes of the import does not depend on it.
pub trait Progress {
    /// Between the two it got this count.
    ghost Tells: { Self → RowCount → Self → Type 0 };

    /// An import is open, of which no row is written yet.
    fn begun(&mut self, rows: RowCount)
        ensures { Tells self.old rows self.new };

    /// Rows of an import are written: 256 more, or all that were left.
    fn staged(&mut self, rows: RowCount)
        ensures { Tells self.old rows self.new };
}

/// Nobody gets to know.
#[derive(Drop)]
pub struct Silent;

impl Progress for Silent {
    ghost Tells = { λ before _ after. after ≡ before };

    fn begun(&mut self, _rows: RowCount) {}

    fn staged(&mut self, _rows: RowCount) {}
}

/// How many rows of an import are written, and how many it has. Each number stops at 2^64 - 1.
#[derive(Clone, Copy)]
pub struct RowCount {
    pub written: usize,
    pub all: usize,
}

impl RowCount {
    /// Of an import of which no row is written.
    pub fn new(import: &OpenImport) -> RowCount
        ensures { (drawn : Drawn) → AreDrawn import.now.changes.puts drawn
            → result ≡ after_stages (length (rows_of_import import.now.batch import.now.changes.puts drawn)) 0 }
    {
        RowCount {
            written: 0,
            all: count_rows(&import.changes.puts, &import.later),
        }
    }

    /// A stage more: 256 rows are written, or all that were left.
    pub fn go_on(&mut self)
        ensures { self.new ≡ a_stage_more self.old }
    {
        self.written = self.written.saturating_add(STAGE as usize).min(self.all);
    }
}

/// How many rows the import of these records has, at most 2^64 - 1: two for each record, and those that come after the
/// lines.
fn count_rows(puts: &[Numbered], later: &Later) -> usize
    requires later { AreLater puts.now later.now }
    ensures { (batch : ℕ) (drawn : Drawn) → AreDrawn puts.now drawn
        → result ≡ min (length (rows_of_import batch puts.now drawn)) (2 ^ 64 - 1) }
{
    puts.len()
        .saturating_add(puts.len())
        .saturating_add(later.links.len())
        .saturating_add(later.soughts.len())
        .saturating_add(later.spans.len())
}
