//! What a request or an import changes.

use crate::slip::Slip;
use receipts::{Answer, Receipt, Token};
use record_kinds::Record;
use std::marker::Model;

/// A number and the record that stands there.
#[derive(Drop)]
pub struct Numbered {
    pub number: u32,
    pub record: Record,
}

/// The records of an import.
#[derive(Drop)]
pub struct Batch {
    /// The new records with their numbers, ascending.
    pub records: Vec<Numbered>,
    /// The next number after it.
    pub next: u64,
}

impl Model for Batch {
    ghost use Rattle.std.specs.Coded.{codes};
    ghost use Rattle.stored_lines.specs.Line.{lines_code, value_code};
    ghost use Rattle.archive_state.specs.Changes as changes;

    ghost Value = { changes.Batch };

    ghost coded = { Prim.hlevel (codes, lines_code, value_code) };

    ghost view = { λ a. record { records = a.records.items; next = a.next } };
}

/// An answer to keep, with its token.
#[derive(Drop)]
pub struct Kept {
    pub token: Token,
    pub receipt: Receipt,
}

/// A slip that is made or undone.
#[derive(Drop)]
pub enum SlipChange {
    /// A new slip under its number.
    Made(u32, Slip),
    /// The slip of a number is undone for good.
    Undone(u32),
}

/// What a request changes.
#[derive(Drop)]
pub struct Changes {
    /// The changed numbers with their new records.
    pub puts: Vec<Numbered>,
    /// The numbers whose records are removed.
    pub removals: Vec<u32>,
    /// The next number after it.
    pub next: u64,
    pub answer: Answer,
    /// What is kept of the request, where it was accepted anew.
    pub kept: Option<Kept>,
    pub slip: Option<SlipChange>,
}

impl Model for Changes {
    ghost use Rattle.std.specs.Coded.{codes};
    ghost use Rattle.stored_lines.specs.Line.{lines_code, value_code};
    ghost use Rattle.archive_state.specs.Changes as changes;

    ghost Value = { changes.Changes };

    ghost coded = { Prim.hlevel (codes, lines_code, value_code) };

    ghost view = { λ a. record {
      puts = a.puts.items;
      removals = a.removals.items;
      next = a.next;
      answer = a.answer;
      kept = a.kept;
      slip = a.slip;
    } };
}
