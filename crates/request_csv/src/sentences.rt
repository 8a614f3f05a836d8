//! What each refusal of a row means. docs/REFUSALS.md has the same with what to do.

use crate::finding::Finding;
use crate::forms::{
    already_in_family, bad_number, bad_row, bad_text, bad_token, field, field_count, fields,
    no_such, no_such_field, not_member, not_of_kind, unknown_verb,
};
use csv::ByteRecord;
use record_text::RefusalKind;

/// What is wrong with a row that was refused so.
pub(crate) fn finding_of(kind: RefusalKind, row: &ByteRecord) -> Finding {
    match kind {
        RefusalKind::BadRow => bad_row(row),
        RefusalKind::BadToken => bad_token(row),
        RefusalKind::UnknownVerb => unknown_verb(),
        RefusalKind::FieldCount => field_count(row),
        RefusalKind::BadText => bad_text(row),
        RefusalKind::NoSuch => no_such(row),
        RefusalKind::WrongKind => bad_number(row, "what has this number is of another kind"),
        RefusalKind::NotOfKind => not_of_kind(row),
        _ => of_request(kind, row),
    }
}

/// The same of the refusals that no field's form tells.
fn of_request(kind: RefusalKind, row: &ByteRecord) -> Finding {
    match kind {
        RefusalKind::TokenReused => field(row, 0, "another request was done under it"),
        RefusalKind::StillNamed => field(row, 2, "another record names this one"),
        RefusalKind::SamePerson => fields(row, 2, 3, "both are one person"),
        RefusalKind::MergeWithinFamily => fields(
            row,
            2,
            3,
            "both are in one family, and not both its children",
        ),
        RefusalKind::ChangedSince => field(
            row,
            2,
            "a record that the merge changed was changed since, or removed",
        ),
        RefusalKind::AlreadyUndone => field(row, 2, "it was undone before"),
        RefusalKind::AlreadyInFamily => already_in_family(row),
        RefusalKind::DuplicateEntry => Finding::Row {
            what: "there is an entry of the same source, kind, page and item",
        },
        RefusalKind::NoSuchMention => field(row, 3, "the entry has not so many mentions"),
        RefusalKind::NoSuchField => no_such_field(row),
        RefusalKind::StillCarried => field(
            row,
            4,
            "with it a line that is carried would be read as a field",
        ),
        RefusalKind::NotMember => not_member(row),
        RefusalKind::Full => Finding::Row {
            what: "no number is left",
        },
        RefusalKind::BadStored => Finding::Row {
            what: "what the archive holds there is no record",
        },
        RefusalKind::OutOfMemory => Finding::Row {
            what: "memory was refused; nothing is wrong with the row",
        },
        _ => Finding::Row {
            what: "docs/REFUSALS.md says when this comes",
        },
    }
}
