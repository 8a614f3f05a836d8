//! The rows about the steps of an import.

use crate::archives::Archives;
use crate::asked::{Asked, Reply};
use crate::files::{ArchiveFiles, Fuses};
use crate::kept::Kept;
use crate::stops::stop_row;
use crate::words::Words;
use archive_core::Request;
use record_text::RefusalKind;
use request_words::{parted, refused, requests_of, word};
use std::alloc::{AllocError, Global};

/// What an archive in files that may fail answers to steps, and to more, where there are, when it is adopted again. A
/// request is one field here. What is left in the files is kept.
pub(crate) fn steps<F: ArchiveFiles>(
    alloc: Global,
    archives: &mut Archives<F>,
    file: &str,
    calls: &str,
    fields: &[&str],
) -> Result<Vec<u8>, AllocError> {
    let [names, then, rows @ ..] = fields else {
        return refused(alloc, "", RefusalKind::FieldCount);
    };
    let Some(fuses) = Fuses::of(file, calls) else {
        return refused(alloc, "", RefusalKind::BadRow);
    };
    match requests_of(alloc, rows)? {
        Ok(requests) => steps_row(alloc, archives, fuses, names, then, &requests),
        Err(kind) => refused(alloc, "", kind),
    }
}

fn steps_row<F: ArchiveFiles>(
    alloc: Global,
    archives: &mut Archives<F>,
    fuses: Fuses,
    names: &str,
    then: &str,
    requests: &[Request],
) -> Result<Vec<u8>, AllocError> {
    match &mut archives.kept {
        Some(kept) if then.is_empty() => once(alloc, kept, fuses, names, requests),
        Some(kept) => twice(alloc, kept, fuses, names, then, requests),
        None => word(alloc, "none"),
    }
}

fn once<F: ArchiveFiles>(
    alloc: Global,
    kept: &mut Kept<F>,
    fuses: Fuses,
    names: &str,
    requests: &[Request],
) -> Result<Vec<u8>, AllocError> {
    let names = names_of(alloc, names)?;
    let reply = kept.visit(alloc, fuses, Asked::Steps(names.as_slice(), requests))?;
    answers_row(alloc, &reply, None)
}

fn twice<F: ArchiveFiles>(
    alloc: Global,
    kept: &mut Kept<F>,
    fuses: Fuses,
    names: &str,
    then: &str,
    requests: &[Request],
) -> Result<Vec<u8>, AllocError> {
    let names = names_of(alloc, names)?;
    let then = names_of(alloc, then)?;
    let asked = Asked::Steps(names.as_slice(), requests);
    let next = Asked::Steps(then.as_slice(), requests);
    let (first, second) = kept.visit_again(alloc, fuses, asked, next)?;
    answers_row(alloc, &first, Some(&second))
}

/// The row of what one visit answered to steps, or two.
fn answers_row(
    alloc: Global,
    first: &Reply,
    second: Option<&Reply>,
) -> Result<Vec<u8>, AllocError> {
    let mut words = Words::new(alloc, "steps")?;
    words.say_answers(alloc, first)?;
    if let Some(second) = second {
        words.say("again")?;
        words.say_answers(alloc, second)?;
    }
    words.into_row()
}

/// Steps on a copy of the archive of which a file fails.
pub(crate) fn stop_steps<F: ArchiveFiles>(
    alloc: Global,
    archives: &mut Archives<F>,
    file: &str,
    calls: &str,
    fields: &[&str],
) -> Result<Vec<u8>, AllocError> {
    let [names, rows @ ..] = fields else {
        return refused(alloc, "", RefusalKind::FieldCount);
    };
    let Some(fuses) = Fuses::of(file, calls) else {
        return refused(alloc, "", RefusalKind::BadRow);
    };
    match requests_of(alloc, rows)? {
        Ok(requests) => stop_steps_row(alloc, archives, fuses, names, &requests),
        Err(kind) => refused(alloc, "", kind),
    }
}

fn stop_steps_row<F: ArchiveFiles>(
    alloc: Global,
    archives: &mut Archives<F>,
    fuses: Fuses,
    names: &str,
    requests: &[Request],
) -> Result<Vec<u8>, AllocError> {
    let names = names_of(alloc, names)?;
    let asked = Asked::Steps(names.as_slice(), requests);
    stop_row(
        alloc,
        archives,
        fuses,
        requests,
        asked,
        Asked::Run(requests),
    )
}

/// The names of steps, with bars between them.
fn names_of<'a>(alloc: Global, text: &'a str) -> Result<Vec<&'a str>, AllocError> {
    if text.is_empty() {
        Ok(Vec::new(alloc))
    } else {
        parted(alloc, text, '|')
    }
}
