//! Refusals, and the table of their numbers and names.

ghost use Rattle.std.specs.Prelude.{◌≡◌};
ghost use Rattle.record_text.specs.Refusals.{number_of, name_of, unit_name};

use std::alloc::AllocError;
use std::fmt;

/// Why something is refused. docs/REFUSALS.md explains each number and name. `gedcom_rules` has those of files
/// too, and tests/refusals.py compares all three.
#[derive(Clone, Copy, Debug, PartialEq, Eq)]
pub enum RefusalKind {
    /// A growth of memory was refused.
    OutOfMemory,
    /// The line's bytes are not UTF-8.
    NotUtf8,
    /// No level of one or two digits followed by a space, or level 99 with another tag than CONC and CONT.
    BadLevel,
    /// What begins with `@` is no cross reference followed by a space.
    BadXref,
    /// No tag ended by a space or the line's end.
    BadTag,
    /// More than 65,536 bytes between two line ends.
    TooLong,
    /// The line holds U+0000.
    Nul,
    /// A level of more than that of the line before plus 1.
    LevelJump,
    /// The first line is not level 0 HEAD, or there is none.
    NoHead,
    /// The input ends without level 0 TRLR.
    NoTrailer,
    /// A line after the trailer.
    AfterTrailer,
    /// CONC or CONT where no text can go on.
    BadContinuation,
    /// A line one level below a CONC or CONT.
    ContinuationHasChildren,
    /// The cross reference stood before.
    DuplicateXref,
    /// More than 67,108,864 bytes.
    FileTooLarge,
    /// A joined text of more than 1,048,576 bytes.
    TextTooLong,
    /// The header names another character set than UTF-8 and ASCII.
    Charset,
    /// The header names version 7.
    Version,
    /// Stored lines that are no record: somebody else wrote the file.
    BadStored,
    /// A number that names nothing.
    NoSuch,
    /// A record of another kind than demanded.
    WrongKind,
    /// The token is kept with another command.
    TokenReused,
    /// The record to remove is named by another.
    StillNamed,
    /// One person given twice.
    SamePerson,
    /// Both are in one family and not both children of it.
    MergeWithinFamily,
    /// A record of the slip has not its new value now.
    ChangedSince,
    /// The slip was undone.
    AlreadyUndone,
    /// Not a text, or one that may not stand there: empty, not normal, or a place path over its limits.
    BadText,
    /// The person is partner or child of the family already.
    AlreadyInFamily,
    /// An entry with the same source, kind, page and item.
    DuplicateEntry,
    /// The entry has no mention of that place.
    NoSuchMention,
    /// A role or tag that is not of the kind.
    NotOfKind,
    /// A number above 4,294,967,295 would be needed.
    Full,
    /// The record has no such field, or its list has fewer items.
    NoSuchField,
    /// The person is no partner, or no child, of the family.
    NotMember,
    /// A line that a record carries would be read as one of its fields.
    StillCarried,
    /// The export would pass 67,108,864 bytes; what was written is a beginning of it.
    ExportTooLarge,
    /// A call of the database answered an error.
    Storage,
    /// A call before answered 80: the archive has to be opened again.
    Reopen,
    /// The file is not an archive.
    NotAnArchive,
    /// The archive is of a later version than this program knows.
    NewerSchema,
    /// A command while an import is open.
    ImportOpen,
    /// A step of an import, and none is open.
    NoImport,
    /// The import is to be published while more is left to stage.
    NotAllStaged,
    /// The first day of a search is after its last.
    DaysReversed,
    /// A row that is not UTF-8, or a field that is not of its type.
    BadRow,
    /// No such verb.
    UnknownVerb,
    /// Too few or too many fields.
    FieldCount,
    /// A token that is not 1 to 64 characters from `!` to `~`.
    BadToken,
    /// The reader failed.
    ReadFailed,
    /// The writer failed.
    WriteFailed,
}

impl RefusalKind {
    /// The refusal's number.
    pub fn number(self) -> u8
        ensures { result ≡ number_of self }
    {
        match self {
            RefusalKind::OutOfMemory => 1,
            RefusalKind::NotUtf8 => 10,
            RefusalKind::BadLevel => 11,
            RefusalKind::BadXref => 12,
            RefusalKind::BadTag => 13,
            RefusalKind::TooLong => 14,
            RefusalKind::Nul => 15,
            RefusalKind::LevelJump => 20,
            RefusalKind::NoHead => 21,
            RefusalKind::NoTrailer => 22,
            RefusalKind::AfterTrailer => 23,
            RefusalKind::BadContinuation => 24,
            RefusalKind::ContinuationHasChildren => 25,
            RefusalKind::DuplicateXref => 26,
            RefusalKind::FileTooLarge => 27,
            RefusalKind::TextTooLong => 28,
            RefusalKind::Charset => 29,
            RefusalKind::Version => 30,
            RefusalKind::BadStored => 40,
            RefusalKind::NoSuch => 50,
            RefusalKind::WrongKind => 51,
            RefusalKind::TokenReused => 52,
            RefusalKind::StillNamed => 53,
            RefusalKind::SamePerson => 54,
            RefusalKind::MergeWithinFamily => 55,
            RefusalKind::ChangedSince => 56,
            RefusalKind::AlreadyUndone => 57,
            RefusalKind::BadText => 58,
            RefusalKind::AlreadyInFamily => 59,
            RefusalKind::DuplicateEntry => 60,
            RefusalKind::NoSuchMention => 61,
            RefusalKind::NotOfKind => 62,
            RefusalKind::Full => 63,
            RefusalKind::NoSuchField => 64,
            RefusalKind::NotMember => 65,
            RefusalKind::StillCarried => 66,
            RefusalKind::ExportTooLarge => 70,
            RefusalKind::Storage => 80,
            RefusalKind::Reopen => 81,
            RefusalKind::NotAnArchive => 82,
            RefusalKind::NewerSchema => 83,
            RefusalKind::ImportOpen => 84,
            RefusalKind::NoImport => 85,
            RefusalKind::NotAllStaged => 86,
            RefusalKind::DaysReversed => 87,
            RefusalKind::BadRow => 90,
            RefusalKind::UnknownVerb => 91,
            RefusalKind::FieldCount => 92,
            RefusalKind::BadToken => 93,
            RefusalKind::ReadFailed => 94,
            RefusalKind::WriteFailed => 95,
        }
    }

    /// The refusal's name, as it is printed.
    pub fn name(self) -> &'static str
        ensures { result.now ≡ name_of self }
    {
        match self {
            RefusalKind::OutOfMemory => "OutOfMemory",
            RefusalKind::NotUtf8 => "NotUtf8",
            RefusalKind::BadLevel => "BadLevel",
            RefusalKind::BadXref => "BadXref",
            RefusalKind::BadTag => "BadTag",
            RefusalKind::TooLong => "TooLong",
            RefusalKind::Nul => "Nul",
            RefusalKind::LevelJump => "LevelJump",
            RefusalKind::NoHead => "NoHead",
            RefusalKind::NoTrailer => "NoTrailer",
            RefusalKind::AfterTrailer => "AfterTrailer",
            RefusalKind::BadContinuation => "BadContinuation",
            RefusalKind::ContinuationHasChildren => "ContinuationHasChildren",
            RefusalKind::DuplicateXref => "DuplicateXref",
            RefusalKind::FileTooLarge => "FileTooLarge",
            RefusalKind::TextTooLong => "TextTooLong",
            RefusalKind::Charset => "Charset",
            RefusalKind::Version => "Version",
            RefusalKind::BadStored => "BadStored",
            RefusalKind::NoSuch => "NoSuch",
            RefusalKind::WrongKind => "WrongKind",
            RefusalKind::TokenReused => "TokenReused",
            RefusalKind::StillNamed => "StillNamed",
            RefusalKind::SamePerson => "SamePerson",
            RefusalKind::MergeWithinFamily => "MergeWithinFamily",
            RefusalKind::ChangedSince => "ChangedSince",
            RefusalKind::AlreadyUndone => "AlreadyUndone",
            RefusalKind::BadText => "BadText",
            RefusalKind::AlreadyInFamily => "AlreadyInFamily",
            RefusalKind::DuplicateEntry => "DuplicateEntry",
            RefusalKind::NoSuchMention => "NoSuchMention",
            RefusalKind::NotOfKind => "NotOfKind",
            RefusalKind::Full => "Full",
            RefusalKind::NoSuchField => "NoSuchField",
            RefusalKind::NotMember => "NotMember",
            RefusalKind::StillCarried => "StillCarried",
            RefusalKind::ExportTooLarge => "ExportTooLarge",
            RefusalKind::Storage => "Storage",
            RefusalKind::Reopen => "Reopen",
            RefusalKind::NotAnArchive => "NotAnArchive",
            RefusalKind::NewerSchema => "NewerSchema",
            RefusalKind::ImportOpen => "ImportOpen",
            RefusalKind::NoImport => "NoImport",
            RefusalKind::NotAllStaged => "NotAllStaged",
            RefusalKind::DaysReversed => "DaysReversed",
            RefusalKind::BadRow => "BadRow",
            RefusalKind::UnknownVerb => "UnknownVerb",
            RefusalKind::FieldCount => "FieldCount",
            RefusalKind::BadToken => "BadToken",
            RefusalKind::ReadFailed => "ReadFailed",
            RefusalKind::WriteFailed => "WriteFailed",
        }
    }
}

impl From<AllocError> for RefusalKind {
    ghost use Rattle.std.specs.Prelude.{◌≡◌};
    ghost use Rattle.record_text.specs.declared.refusal.RefusalKind.TheVariants.{OutOfMemory};

    ghost from_gives = { λ _ k. k ≡ OutOfMemory };

    fn from(_e: AllocError) -> RefusalKind {
        Self::OutOfMemory
    }
}

impl fmt::Display for RefusalKind {
    /// The number and the name: `22 NoTrailer`.
    fn fmt<W: fmt::Write>(&self, f: &mut fmt::Formatter<W>) -> fmt::Result {
        let number = self.number();
        let name = self.name();
        write!(f, "{number} {name}")
    }
}

/// Why something is refused, and where: the line of a GEDCOM file or the row of a batch, both counted from 1.
/// `at` is `None` where neither is to blame.
#[derive(Clone, Copy, Debug, PartialEq, Eq)]
pub struct Refusal {
    pub kind: RefusalKind,
    pub at: Option<u32>,
}

impl Refusal {
    /// The refusal as it is printed, with the word for what `at` counts. Only the caller knows whether it
    /// gave lines or rows.
    pub fn text(self, unit: Unit) -> RefusalText
        ensures { result ≡ record { refusal = self; unit = unit } }
    {
        RefusalText {
            refusal: self,
            unit,
        }
    }
}

impl From<AllocError> for Refusal {
    ghost use Rattle.std.specs.Prelude.{◌≡◌, None};
    ghost use Rattle.record_text.specs.declared.refusal.RefusalKind.TheVariants.{OutOfMemory};

    ghost from_gives = { λ _ r. r ≡ record { kind = OutOfMemory; at = None } };

    fn from(_e: AllocError) -> Refusal {
        Refusal {
            kind: RefusalKind::OutOfMemory,
            at: None,
        }
    }
}

impl From<RefusalKind> for Refusal {
    ghost use Rattle.std.specs.Prelude.{◌≡◌, None};

    ghost from_gives = { λ k r. r ≡ record { kind = k; at = None } };

    fn from(kind: RefusalKind) -> Refusal {
        Refusal { kind, at: None }
    }
}

/// What the place of a refusal counts.
#[derive(Clone, Copy, Debug, PartialEq, Eq)]
pub enum Unit {
    /// Lines of a GEDCOM file that are not blank.
    Line,
    /// Rows of a batch.
    Row,
}

impl Unit {
    /// The word for one of them.
    pub fn name(self) -> &'static str
        ensures { result.now ≡ unit_name self }
    {
        match self {
            Unit::Line => "line",
            Unit::Row => "row",
        }
    }
}

/// A refusal as it is printed.
#[derive(Clone, Copy, Debug, PartialEq, Eq)]
pub struct RefusalText {
    pub refusal: Refusal,
    pub unit: Unit,
}

impl fmt::Display for RefusalText {
    /// The number, the name, and the place where there is one: `22 NoTrailer at line 2`.
    fn fmt<W: fmt::Write>(&self, f: &mut fmt::Formatter<W>) -> fmt::Result {
        let number = self.refusal.kind.number();
        let name = self.refusal.kind.name();
        let unit = self.unit.name();
        match self.refusal.at {
            Some(place) => write!(f, "{number} {name} at {unit} {place}"),
            None => write!(f, "{number} {name}"),
        }
    }
}
