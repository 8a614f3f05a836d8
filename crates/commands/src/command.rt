//! What a request asks for.

use crate::entry_row::EntryRows;
use crate::row_command::RowCommand;
use gedcom_tree::Forest;

/// A command.
#[derive(Drop)]
pub enum Command {
    /// One row.
    Row(RowCommand),
    /// A batch of new register entries of a source, in the order of their rows.
    Entries { source: u32, rows: EntryRows },
    /// The records of a file of lines, as its forest has them.
    Import(Forest),
}
