//! Rows as they are read, with the types of the program.

use receipts::{Receipt, Token};
use record_text::Text;
use std::marker::Model;
use stored_lines::StoredLine;

/// A batch, and whether it is open: an import that was not finished.
#[derive(Drop)]
pub struct BatchRow {
    pub number: u32,
    pub is_open: bool,
}

impl Model for BatchRow {
    ghost use Rattle.store_tables.specs.Rows as rows;

    ghost Value = { rows.BatchRow };

    ghost view = { λ a. record { no = a.number; is_open = a.is_open } };
}

/// The number of a record, and its batch.
#[derive(Drop)]
pub struct RecordRow {
    pub number: u32,
    pub batch: u32,
}

impl Model for RecordRow {
    ghost use Rattle.std.specs.Prelude.{ℕ};
    ghost use Rattle.std.specs.Coded.{coded×, coded_ℕ};

    ghost Value = { ℕ × ℕ };

    ghost coded = { coded× coded_ℕ coded_ℕ };

    ghost view = { λ a. (a.number, a.batch) };
}

/// A stored line in a row of its own, with the number of its record.
#[derive(Drop)]
pub struct LineRow {
    pub number: u32,
    pub line: StoredLine,
}

impl Model for LineRow {
    ghost use Rattle.std.specs.Prelude.{ℕ};
    ghost use Rattle.std.specs.Coded.{coded×, coded_ℕ};
    ghost use Rattle.stored_lines.specs.Line.{Label, label_code};

    ghost Value = { ℕ × (ℕ × Label) };

    ghost coded = { coded× coded_ℕ (coded× coded_ℕ label_code) };

    ghost view = { λ a. (a.number, a.line) };
}

/// The number of a record, and all its stored lines.
#[derive(Drop)]
pub struct PackRow {
    pub number: u32,
    pub lines: Vec<StoredLine>,
}

impl Model for PackRow {
    ghost use Rattle.std.specs.Prelude.{ℕ, List};
    ghost use Rattle.std.specs.Coded.{coded×, coded_ℕ, coded_list};
    ghost use Rattle.stored_lines.specs.Line.{Label, label_code};

    ghost Value = { ℕ × List (ℕ × Label) };

    ghost coded = { coded× coded_ℕ (coded_list (coded× coded_ℕ label_code)) };

    ghost view = { λ a. (a.number, a.lines.items) };
}

/// What is kept under a token.
#[derive(Drop)]
pub struct ReceiptRow {
    pub token: Token,
    pub receipt: Receipt,
}

impl Model for ReceiptRow {
    ghost use Rattle.std.specs.Prelude.{ℕ, List};
    ghost use Rattle.receipts.specs.declared.answer.Receipt as kept;

    ghost Value = { List ℕ × kept.Receipt };

    ghost view = { λ a. (a.token, a.receipt) };
}

/// A slip, its lines apart.
#[derive(Drop)]
pub struct SlipRow {
    pub number: u32,
    pub keep: u32,
    pub gone: u32,
    pub is_undone: bool,
}

impl Model for SlipRow {
    ghost use Rattle.store_tables.specs.Rows as rows;

    ghost Value = { rows.SlipRow };

    ghost view = { λ a. record { no = a.number; keep = a.keep; gone = a.gone; is_undone = a.is_undone } };
}

/// A stored line of the old or the new record of a number in a slip.
#[derive(Drop)]
pub struct SlipLineRow {
    pub slip: u32,
    pub is_new: bool,
    pub number: u32,
    pub line: StoredLine,
}

impl Model for SlipLineRow {
    ghost use Rattle.std.specs.Prelude.{ℕ, Bool};
    ghost use Rattle.std.specs.Coded.{coded×, coded_ℕ, coded_bool};
    ghost use Rattle.stored_lines.specs.Line.{Label, label_code};

    ghost Value = { ℕ × (Bool × (ℕ × (ℕ × Label))) };

    ghost coded = { coded× coded_ℕ (coded× coded_bool (coded× coded_ℕ (coded× coded_ℕ label_code))) };

    ghost view = { λ a. (a.slip, (a.is_new, (a.number, a.line))) };
}

/// One side of a changed number of a slip: whether it is the new one, the number, and all stored lines of its record.
#[derive(Drop)]
pub struct SlipSide {
    pub is_new: bool,
    pub number: u32,
    pub lines: Vec<StoredLine>,
}

impl Model for SlipSide {
    ghost use Rattle.std.specs.Coded.{coded×, coded_ℕ, coded_bool, coded_list};
    ghost use Rattle.stored_lines.specs.Line.{label_code};
    ghost use Rattle.store_tables.specs.Rows as rows;

    ghost Value = { rows.SlipSide };

    ghost coded = { coded× coded_bool (coded× coded_ℕ (coded_list (coded× coded_ℕ label_code))) };

    ghost view = { λ a. (a.is_new, (a.number, a.lines.items)) };
}

/// A side, with the number of its slip.
#[derive(Drop)]
pub(crate) struct SlipPackRow {
    pub(crate) slip: u32,
    pub(crate) side: SlipSide,
}

impl Model for SlipPackRow {
    ghost use Rattle.std.specs.Prelude.{ℕ};
    ghost use Rattle.std.specs.Coded.{coded×, coded_ℕ, coded_bool, coded_list};
    ghost use Rattle.stored_lines.specs.Line.{label_code};
    ghost use Rattle.store_tables.specs.Rows as rows;

    ghost Value = { ℕ × rows.SlipSide };

    ghost coded = { coded× coded_ℕ (coded× coded_bool (coded× coded_ℕ (coded_list (coded× coded_ℕ label_code)))) };

    ghost view = { λ a. (a.slip, a.side) };
}

/// The days that the date of a record may mean: the first and the last one, from 1970-01-01, day 0.
#[derive(Drop)]
pub struct SpanRow {
    pub number: u32,
    pub lo: Option<i32>,
    pub hi: Option<i32>,
}

impl Model for SpanRow {
    ghost use Rattle.store_tables.specs.Rows as rows;

    ghost Value = { rows.SpanRow };

    ghost view = { λ a. record { no = a.number; lo = a.lo; hi = a.hi } };
}

/// A number that a record names, and the record.
#[derive(Drop)]
pub struct LinkRow {
    pub target: u32,
    pub number: u32,
}

impl Model for LinkRow {
    ghost use Rattle.store_tables.specs.Rows as rows;

    ghost Value = { rows.LinkRow };

    ghost view = { λ a. record { target = a.target; no = a.number } };
}

/// What a record is looked for by: a text, and the number of another record where it goes with it.
#[derive(Drop)]
pub struct SoughtRow {
    pub number: u32,
    pub text: Text,
    pub target: Option<u32>,
}

impl Model for SoughtRow {
    ghost use Rattle.store_tables.specs.Rows as rows;

    ghost Value = { rows.SoughtRow };

    ghost view = { λ a. record { no = a.number; text = a.text; target = a.target } };
}

/// A record as it was before a request: the key of its row, the token of the request, and the text of all stored lines
/// of the record.
#[derive(Drop)]
pub struct PastRow {
    pub id: i64,
    pub token: Token,
    pub text: String,
}

impl Model for PastRow {
    ghost use Rattle.std.specs.Prelude.{ℕ, ℤ, List, string_bytes};
    ghost use Rattle.std.specs.Coded.{coded×, coded_ℕ, coded_ℤ, coded_list};

    ghost Value = { ℤ × (List ℕ × List ℕ) };

    ghost coded = { coded× coded_ℤ (coded× (coded_list coded_ℕ) (coded_list coded_ℕ)) };

    ghost view = { λ a. (a.id, (a.token, string_bytes a.text)) };
}

/// All rows of an archive but its spans, its links, what is looked for and values of before, in the order of their
/// keys. Lines are in rows of their own in the first schema, and in `packs` in the second one; those of slips are read
/// one by one of both.
#[derive(Drop)]
pub struct StoredRows {
    pub next: u64,
    pub batches: Vec<BatchRow>,
    pub records: Vec<RecordRow>,
    pub lines: Vec<LineRow>,
    pub packs: Vec<PackRow>,
    pub receipts: Vec<ReceiptRow>,
    pub slips: Vec<SlipRow>,
    pub slip_lines: Vec<SlipLineRow>,
}

impl Model for StoredRows {
    ghost use Rattle.store_tables.specs.Reading as reading;

    ghost Value = { reading.ReadRows };

    ghost view = { λ a. record {
      next = a.next;
      batches = a.batches.items;
      records = a.records.items;
      lines = a.lines.items;
      packs = a.packs.items;
      receipts = a.receipts.items;
      slips = a.slips.items;
      slip_lines = a.slip_lines.items;
    } };
}
