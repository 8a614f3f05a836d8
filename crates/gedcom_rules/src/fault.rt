//! Why bytes are no forest, and the table of refusals of files.

ghost use Rattle.std.specs.Prelude.{◌≡◌, Some};
ghost use Rattle.gedcom_rules.specs.Refusals.{number_of, name_of};
ghost use Rattle.gedcom_rules.specs.declared.fault.TreeKind.TheVariants as kinds;

use std::alloc::AllocError;
use std::fmt;

/// What is wrong. docs/REFUSALS.md explains each number and name. `record_text` has them too, and
/// tests/refusals.py compares all three.
#[derive(Clone, Copy, Debug, PartialEq, Eq)]
pub enum TreeKind {
    /// A growth of memory was refused.
    OutOfMemory,
    /// The line's bytes are not UTF-8.
    NotUtf8,
    /// No level of one or two digits followed by a space, or level 99 with another tag than CONC and CONT.
    BadLevel,
    /// What begins with `@` is no cross reference followed by a space.
    BadXref,
    /// No tag ended by a space or the line's end.
    BadTag,
    /// More than 65,536 bytes between two line ends.
    TooLong,
    /// The line holds U+0000.
    Nul,
    /// A level of more than that of the line before plus 1.
    LevelJump,
    /// The first line is not level 0 HEAD, or there is none.
    NoHead,
    /// The input ends without level 0 TRLR.
    NoTrailer,
    /// A line after the trailer.
    AfterTrailer,
    /// CONC or CONT where no text can go on.
    BadContinuation,
    /// A line one level below a CONC or CONT.
    ContinuationHasChildren,
    /// The cross reference stood before.
    DuplicateXref,
    /// More than 67,108,864 bytes.
    FileTooLarge,
    /// A joined text of more than 1,048,576 bytes.
    TextTooLong,
    /// The header names another character set than UTF-8 and ASCII.
    Charset,
    /// The header names version 7.
    Version,
    /// The reader failed.
    ReadFailed,
    /// The writer failed.
    WriteFailed,
}

impl TreeKind {
    /// The refusal's number.
    pub fn number(self) -> u8
        ensures { result ≡ number_of self }
    {
        match self {
            TreeKind::OutOfMemory => 1,
            TreeKind::NotUtf8 => 10,
            TreeKind::BadLevel => 11,
            TreeKind::BadXref => 12,
            TreeKind::BadTag => 13,
            TreeKind::TooLong => 14,
            TreeKind::Nul => 15,
            TreeKind::LevelJump => 20,
            TreeKind::NoHead => 21,
            TreeKind::NoTrailer => 22,
            TreeKind::AfterTrailer => 23,
            TreeKind::BadContinuation => 24,
            TreeKind::ContinuationHasChildren => 25,
            TreeKind::DuplicateXref => 26,
            TreeKind::FileTooLarge => 27,
            TreeKind::TextTooLong => 28,
            TreeKind::Charset => 29,
            TreeKind::Version => 30,
            TreeKind::ReadFailed => 94,
            TreeKind::WriteFailed => 95,
        }
    }

    /// The refusal's name, as it is printed.
    pub fn name(self) -> &'static str
        ensures { result.now ≡ name_of self }
    {
        match self {
            TreeKind::OutOfMemory => "OutOfMemory",
            TreeKind::NotUtf8 => "NotUtf8",
            TreeKind::BadLevel => "BadLevel",
            TreeKind::BadXref => "BadXref",
            TreeKind::BadTag => "BadTag",
            TreeKind::TooLong => "TooLong",
            TreeKind::Nul => "Nul",
            TreeKind::LevelJump => "LevelJump",
            TreeKind::NoHead => "NoHead",
            TreeKind::NoTrailer => "NoTrailer",
            TreeKind::AfterTrailer => "AfterTrailer",
            TreeKind::BadContinuation => "BadContinuation",
            TreeKind::ContinuationHasChildren => "ContinuationHasChildren",
            TreeKind::DuplicateXref => "DuplicateXref",
            TreeKind::FileTooLarge => "FileTooLarge",
            TreeKind::TextTooLong => "TextTooLong",
            TreeKind::Charset => "Charset",
            TreeKind::Version => "Version",
            TreeKind::ReadFailed => "ReadFailed",
            TreeKind::WriteFailed => "WriteFailed",
        }
    }
}

/// What is wrong, and with which line: counted from 1, blank lines not counted. `at` is `None` for want
/// of memory and for readers and writers that failed.
#[derive(Clone, Copy, Debug, PartialEq, Eq)]
pub struct TreeFault {
    pub kind: TreeKind,
    pub at: Option<u32>,
}

impl From<AllocError> for TreeFault {
    ghost use Rattle.std.specs.Prelude.{◌≡◌, None};
    ghost use Rattle.gedcom_rules.specs.declared.fault.TreeKind.TheVariants.{OutOfMemory};

    ghost from_gives = { λ _ f. f ≡ record { kind = OutOfMemory; at = None } };

    fn from(_e: AllocError) -> TreeFault {
        TreeFault {
            kind: TreeKind::OutOfMemory,
            at: None,
        }
    }
}

impl fmt::Display for TreeFault {
    /// The number, the name, and the line where there is one: `22 NoTrailer at line 2`.
    fn fmt<W: fmt::Write>(&self, f: &mut fmt::Formatter<W>) -> fmt::Result {
        let number = self.kind.number();
        let name = self.kind.name();
        match self.at {
            Some(line) => write!(f, "{number} {name} at line {line}"),
            None => write!(f, "{number} {name}"),
        }
    }
}
