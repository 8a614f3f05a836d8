//! Requests.

ghost use Rattle.archive_core.specs.Words.{HasUtf8Words};

use archive_steps::tell_row;
use commands::Command;
use entry_batches::tell_entries;
use imports::tell_forest;
use receipts::Token;

/// A command, with the token under which its answer is kept.
#[derive(Drop)]
pub struct Request {
    pub token: Token,
    pub command: Command,
    /// The SHA-256 under which the answer is kept, where what was asked is not the command in its own words: the rows
    /// of a page may name places by paths, of which the command has the numbers.
    pub digest: Option<[u8; 32]>,
}

/// Does nothing: it tells a proof that the words of a command are UTF-8, and that the nodes of an import are a forest.
pub(crate) fn tell_words(command: &Command)
    ensures { HasUtf8Words command.now }
{
    match command {
        Command::Row(row) => tell_row(row),
        Command::Entries { rows, .. } => tell_entries(rows.as_slice()),
        Command::Import(forest) => tell_forest(forest),
    }
}
