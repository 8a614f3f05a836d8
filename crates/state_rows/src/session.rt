//! What the rows before have left.

use archive_state::State;
use record_text::RefusalKind;
use records::record_of;
use std::alloc::{AllocError, Global};
use stored_lines::StoredLine;

/// What rows change.
#[derive(Drop)]
pub(crate) struct Session {
    /// The lines that were given since the last row that is no line.
    pub(crate) lines: Vec<StoredLine>,
    pub(crate) state: State,
}

impl Session {
    pub(crate) fn new(alloc: Global) -> Session {
        Session {
            lines: Vec::new(alloc),
            state: State::new(alloc),
        }
    }

    /// Adds a stored line.
    pub(crate) fn push(&mut self, line: StoredLine) -> Result<(), AllocError> {
        Ok(self.lines.push(line)?)
    }

    /// Puts the record that is kept as the lines.
    pub(crate) fn put(&mut self, alloc: Global, at: u32) -> Result<(), RefusalKind> {
        let record = record_of(alloc, &self.lines)?;
        let _ = self.state.put_record(at, record)?;
        Ok(())
    }
}
