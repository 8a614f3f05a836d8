//! What the rows before have left, but for the tables.

use archive_state::{Changes, State};
use receipts::Answer;
use record_text::RefusalKind;
use row_words::line_of;
use std::alloc::{AllocError, Global};
use stored_lines::StoredLine;

/// What rows change.
#[derive(Drop)]
pub struct Noted {
    /// The lines that were given since the last row that is no line.
    pub lines: Vec<StoredLine>,
    /// What rows change one by one, or what was read last of the tables.
    pub state: State,
    /// What the next row `write` writes to the tables, or the next row `open` imports.
    pub planned: Changes,
}

impl Noted {
    /// Before the first row.
    pub fn new(alloc: Global) -> Noted {
        Noted {
            lines: Vec::new(alloc),
            state: State::new(alloc),
            planned: nothing(alloc),
        }
    }

    /// Adds the stored line of a row `line`. 58 or out of memory: it is none.
    pub fn add_line(&mut self, alloc: Global, words: &[String]) -> Result<(), RefusalKind> {
        let line = line_of(alloc, words)?;
        Ok(push(&mut self.lines, line)?)
    }
}

/// No changes.
pub fn nothing(alloc: Global) -> Changes {
    Changes {
        puts: Vec::new(alloc),
        removals: Vec::new(alloc),
        next: 0,
        answer: Answer { first: 0, count: 0 },
        kept: None,
        slip: None,
    }
}

/// Adds an item.
pub(crate) fn push<T: Drop>(items: &mut Vec<T>, item: T) -> Result<(), AllocError> {
    Ok(items.push(item)?)
}
