//! The report of an import: which lines of the file were not taken over as they stood.

ghost use Rattle.std.specs.Prelude.{◌≡◌};
ghost use Rattle.receipts.specs.Reports.{report_word};

use std::marker::Model;

/// Why a line was not taken over.
#[derive(Clone, Copy, Debug, PartialEq, Eq)]
pub enum ReportWord {
    /// Its pointer names no record of the file; it was dropped with the lines below it.
    Dangling,
    /// A membership that the other side lacks, and that could not be added there.
    OneSided,
    /// A membership that stood before.
    Doubled,
    /// A value where the record has none.
    ValueDropped,
}

impl ReportWord {
    /// The word as it is printed.
    pub fn as_str(self) -> &'static str
        ensures { result.now ≡ report_word self }
    {
        match self {
            ReportWord::Dangling => "dangling",
            ReportWord::OneSided => "one-sided",
            ReportWord::Doubled => "doubled",
            ReportWord::ValueDropped => "value dropped",
        }
    }
}

/// A line of the file, counted from 1, and what became of it.
#[derive(Clone, Copy, Debug, PartialEq, Eq)]
pub struct ReportLine {
    pub line: u32,
    pub word: ReportWord,
}

/// The lines that were not taken over as they stood, in their order. Contracts see the list.
#[derive(Drop)]
pub struct Report {
    pub lines: Vec<ReportLine>,
}

impl Model for Report {
    ghost use Rattle.std.specs.Prelude.{List};
    ghost use Rattle.receipts.specs.declared.report.ReportLine.{ReportLine};

    ghost Value = { List ReportLine };

    ghost view = { λ a. a.lines.items };
}
