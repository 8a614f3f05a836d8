//! What records, slips and all rows of before are today.

use gedcom_date::Span;
use std::marker::Model;
use store_rows::SoughtText;
use store_tables::SlipSide;
use stored_lines::StoredLine;

/// A record as it is kept today.
#[derive(Drop)]
pub struct Anew {
    pub lines: Vec<StoredLine>,
    /// The span of its date, where it has one.
    pub span: Option<Span>,
    /// What it is looked for by, where it is looked for.
    pub sought: Option<SoughtText>,
}

impl Model for Anew {
    ghost use Rattle.older_archives.specs.Renewing as renewing;

    ghost Value = { renewing.Anew };

    ghost view = { λ a. record {
      lines = a.lines.items;
      span = a.span;
      sought = a.sought;
    } };
}

/// The record of a number.
#[derive(Drop)]
pub struct RecordAnew {
    pub number: u32,
    pub anew: Anew,
}

impl Model for RecordAnew {
    ghost use Rattle.older_archives.specs.Renewing as renewing;

    ghost Value = { renewing.RecordAnew };

    ghost view = { λ a. record { number = a.number; anew = a.anew } };
}

/// The old and the new records of a slip, in order.
#[derive(Drop)]
pub struct SlipAnew {
    pub number: u32,
    pub sides: Vec<SlipSide>,
}

impl Model for SlipAnew {
    ghost use Rattle.older_archives.specs.Renewing as renewing;

    ghost Value = { renewing.SlipAnew };

    ghost view = { λ a. record { number = a.number; sides = a.sides.items } };
}

/// All records and all slips of an archive.
#[derive(Drop)]
pub struct Renewal {
    pub records: Vec<RecordAnew>,
    pub slips: Vec<SlipAnew>,
}

impl Model for Renewal {
    ghost use Rattle.older_archives.specs.Renewing as renewing;

    ghost Value = { renewing.Renewal };

    ghost view = { λ a. record { records = a.records.items; slips = a.slips.items } };
}
