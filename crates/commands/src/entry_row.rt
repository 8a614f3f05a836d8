//! What a row gives of a register entry.

ghost use Rattle.std.specs.Prelude.{◌≡◌, MatchOption};
ghost use Rattle.commands.specs.Mentions.{IsCount};

use crate::field::Field;
use crate::given::GivenDate;
use record_fields::{EntryKind, Item};
use std::marker::Model;

/// Who a row says is named, and as what. The words need be no role and no text of the archive.
#[derive(Drop)]
pub struct GivenMention {
    pub role: Field,
    pub name: Field,
}

/// The most mentions that a row gives.
const MOST: usize = 100;

/// The mentions of a row, in their order: 1 to 100. Contracts see it as their list.
#[derive(Drop)]
pub struct GivenMentions {
    mentions: Vec<GivenMention>,
}

impl Model for GivenMentions {
    ghost use Rattle.std.specs.Prelude.{List};
    ghost use Rattle.commands.specs.Mentions.{IsCount};
    ghost use Rattle.commands.specs.declared.entry_row.GivenMention as mention;

    ghost Value = { List mention.GivenMention };

    ghost view = { λ a. a.mentions.items };

    ghost invariant = { λ a. IsCount a.mentions.items };
}

impl GivenMentions {
    /// The mentions of a row. `None`: there are none, or more than 100. Takes no memory.
    pub fn try_new(mentions: Vec<GivenMention>) -> Option<GivenMentions>
        ensures { MatchOption result (¬ (IsCount mentions.items)) (λ ms. ms ≡ mentions.items) }
    {
        if mentions.is_empty() || mentions.len() > MOST {
            None
        } else {
            Some(GivenMentions { mentions })
        }
    }

    /// The mentions, in their order.
    pub fn as_slice(&self) -> &[GivenMention]
        ensures same { result.now ≡ self.now }
        ensures count { IsCount self.now }
    {
        self.mentions.as_slice()
    }
}

/// A register entry as a row gives it, its source apart, with its fields in the order of the row.
#[derive(Drop)]
pub struct EntryRow {
    pub kind: EntryKind,
    pub page: Field,
    pub item: Item,
    pub date: Option<GivenDate>,
    pub place: Option<u32>,
    pub text: Field,
    pub mentions: GivenMentions,
}

/// The rows of a batch of register entries, in their order. Contracts see it as their list.
#[derive(Drop)]
pub struct EntryRows {
    rows: Vec<EntryRow>,
}

impl Model for EntryRows {
    ghost use Rattle.std.specs.Prelude.{List};
    ghost use Rattle.commands.specs.declared.entry_row.EntryRow as row;

    ghost Value = { List row.EntryRow };

    ghost view = { λ a. a.rows.items };
}

impl EntryRows {
    /// The rows of a batch. Takes no memory.
    pub fn new(rows: Vec<EntryRow>) -> EntryRows
        ensures { result ≡ rows.items }
    {
        EntryRows { rows }
    }

    /// The rows, in their order.
    pub fn as_slice(&self) -> &[EntryRow]
        ensures { result.now ≡ self.now }
    {
        self.rows.as_slice()
    }
}
