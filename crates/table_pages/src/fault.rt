//! What is wrong with a page.

ghost use Rattle.std.specs.Prelude.{◌≡◌};
ghost use Rattle.table_pages.specs.Faults.{name_of, number_of};

use commands::Field;

/// Why a page is refused. docs/REFUSALS.md explains the numbers and names.
#[derive(Clone, Copy, Debug, PartialEq, Eq)]
pub enum FaultKind {
    /// A cell's bytes are not UTF-8.
    NotUtf8,
    /// A quote is not closed.
    OpenQuote,
    /// No field and no role has the name of the column.
    UnknownColumn,
    /// The column stood before.
    RepeatedColumn,
    /// There is no column for a field that each entry needs.
    MissingColumn,
    /// A cell under a column without a name.
    UnnamedColumn,
    /// A cell after the last column.
    BeyondHeader,
    /// The spreadsheet shows an error, or a column that is too narrow.
    SheetError,
    /// The cell is no text.
    BadText,
    /// No kind of register entries.
    BadKind,
    /// No number from 1 to 999,999.
    BadItem,
    /// A day that does not exist, or that can be read in several ways.
    BadDate,
    /// Neither a number of a record, a token nor a path.
    BadPlace,
    /// A path that no place can have.
    BadPath,
    /// No name stands under a role.
    NoMention,
    /// More than 100 names.
    ManyMentions,
    /// The kind of entry has no such role.
    NotOfKind,
}

impl FaultKind {
    /// The number in the table of refusals.
    pub fn number(self) -> u8
        ensures { result ≡ number_of self }
    {
        match self {
            FaultKind::BadText | FaultKind::BadPath => 58,
            FaultKind::NotOfKind => 62,
            FaultKind::BeyondHeader | FaultKind::NoMention | FaultKind::ManyMentions => 92,
            FaultKind::UnknownColumn | FaultKind::RepeatedColumn | FaultKind::UnnamedColumn => 97,
            FaultKind::MissingColumn => 98,
            _ => 90,
        }
    }

    /// The name in the table of refusals.
    pub fn name(self) -> &'static str
        ensures { result.now ≡ name_of self }
    {
        match self {
            FaultKind::BadText | FaultKind::BadPath => "BadText",
            FaultKind::NotOfKind => "NotOfKind",
            FaultKind::BeyondHeader | FaultKind::NoMention | FaultKind::ManyMentions => {
                "FieldCount"
            }
            FaultKind::UnknownColumn | FaultKind::RepeatedColumn | FaultKind::UnnamedColumn => {
                "UnknownColumn"
            }
            FaultKind::MissingColumn => "MissingColumn",
            _ => "BadRow",
        }
    }
}

/// The first fault of a page: its row as the sheet shows it, and the name of the column and the cell where they are to
/// blame, else empty.
#[derive(Debug, Drop)]
pub struct PageFault {
    pub row: usize,
    pub kind: FaultKind,
    pub column: Field,
    pub cell: Field,
}
