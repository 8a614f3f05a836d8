//! Refusals and reports as they are printed.

use receipts::ReportWord;
use record_text::{Refusal, RefusalKind, Unit};
use row_words::{Answer, number, optional_number, word};

/// Every refusal.
const KINDS: [RefusalKind; 51] = [
    RefusalKind::OutOfMemory,
    RefusalKind::NotUtf8,
    RefusalKind::BadLevel,
    RefusalKind::BadXref,
    RefusalKind::BadTag,
    RefusalKind::TooLong,
    RefusalKind::Nul,
    RefusalKind::LevelJump,
    RefusalKind::NoHead,
    RefusalKind::NoTrailer,
    RefusalKind::AfterTrailer,
    RefusalKind::BadContinuation,
    RefusalKind::ContinuationHasChildren,
    RefusalKind::DuplicateXref,
    RefusalKind::FileTooLarge,
    RefusalKind::TextTooLong,
    RefusalKind::Charset,
    RefusalKind::Version,
    RefusalKind::BadStored,
    RefusalKind::NoSuch,
    RefusalKind::WrongKind,
    RefusalKind::TokenReused,
    RefusalKind::StillNamed,
    RefusalKind::SamePerson,
    RefusalKind::MergeWithinFamily,
    RefusalKind::ChangedSince,
    RefusalKind::AlreadyUndone,
    RefusalKind::BadText,
    RefusalKind::AlreadyInFamily,
    RefusalKind::DuplicateEntry,
    RefusalKind::NoSuchMention,
    RefusalKind::NotOfKind,
    RefusalKind::Full,
    RefusalKind::NoSuchField,
    RefusalKind::NotMember,
    RefusalKind::StillCarried,
    RefusalKind::ExportTooLarge,
    RefusalKind::Storage,
    RefusalKind::Reopen,
    RefusalKind::NotAnArchive,
    RefusalKind::NewerSchema,
    RefusalKind::ImportOpen,
    RefusalKind::NoImport,
    RefusalKind::NotAllStaged,
    RefusalKind::DaysReversed,
    RefusalKind::BadRow,
    RefusalKind::UnknownVerb,
    RefusalKind::FieldCount,
    RefusalKind::BadToken,
    RefusalKind::ReadFailed,
    RefusalKind::WriteFailed,
];

/// Says every refusal as it is printed, each after the name that its type has.
pub(crate) fn say_refusals(out: &mut Answer) {
    for kind in &KINDS {
        out.say_named(kind, kind.name());
        out.say_printed(kind);
        out.say("\n");
    }
}

/// Says the refusal of that name, with the line or the row that it has.
pub(crate) fn say_refusal(words: &[String], out: &mut Answer) {
    let at = optional_number(words, 3);
    for kind in &KINDS {
        if kind.name() == word(words, 1) {
            out.say_printed(&Refusal { kind: *kind, at }.text(unit_of(word(words, 2))));
            out.say("\n");
        }
    }
}

fn unit_of(word: &str) -> Unit {
    match word {
        "row" => Unit::Row,
        _ => Unit::Line,
    }
}

/// Says each word of a report after the line of the file that a word of the row is.
pub(crate) fn say_report(words: &[String], out: &mut Answer) {
    for (at, word) in [
        (1, ReportWord::Dangling),
        (2, ReportWord::OneSided),
        (3, ReportWord::Doubled),
        (4, ReportWord::ValueDropped),
    ] {
        out.say("line ");
        out.say_printed(&number(words, at));
        out.say(": ");
        out.say_line(word.as_str());
    }
}
