//! The rows about an archive in files.

use crate::archives::Archives;
use crate::asked::{Asked, Reply};
use crate::files::{ArchiveFiles, Fuses};
use crate::kept::Kept;
use crate::steps::{steps, stop_steps};
use crate::stops::{say_made, stop_create_row, stop_row};
use crate::words::Words;
use archive_core::Request;
use record_text::RefusalKind;
use request_words::{refused, request_of, requests_of, said, word};
use std::alloc::{AllocError, Global};

/// The answer of a row that makes, asks or stops an archive in files. Another asks what is seen of the states.
pub(crate) fn answer_stored<F: ArchiveFiles>(
    alloc: Global,
    archives: &mut Archives<F>,
    asked: &str,
    fields: &[&str],
) -> Result<Vec<u8>, AllocError> {
    match (asked, fields) {
        ("! store", [society]) => store(alloc, archives, society),
        ("! store over", [society]) => store_over(alloc, archives, society),
        ("! stored", []) => stored(alloc, archives),
        ("! society", []) => society_row(alloc, archives),
        ("! export", []) => export_row(alloc, archives),
        ("! run", rows) => run(alloc, archives, rows),
        ("! stop", [file, calls, rest @ ..]) => stop(alloc, archives, file, calls, rest),
        ("! stop run", [file, calls, rows @ ..]) => stop_run(alloc, archives, file, calls, rows),
        ("! stop create", [file, calls, society]) => stop_create::<F>(alloc, file, calls, society),
        ("! steps", [file, calls, rest @ ..]) => steps(alloc, archives, file, calls, rest),
        ("! stop steps", [file, calls, rest @ ..]) => {
            stop_steps(alloc, archives, file, calls, rest)
        }
        ("! spoil", [sql, rest @ ..]) => spoil(alloc, archives, sql, rest),
        ("! adopt", [sql]) => adopt::<F>(alloc, sql),
        ("! adopt bytes", [text, count]) => adopt_bytes::<F>(alloc, text, count),
        _ => archives.see(alloc, asked, fields),
    }
}

/// Makes an archive for a society, which is kept from then on.
fn store<F: ArchiveFiles>(
    alloc: Global,
    archives: &mut Archives<F>,
    society: &str,
) -> Result<Vec<u8>, AllocError> {
    match Kept::create(alloc, society)? {
        Ok(kept) => {
            archives.kept = Some(kept);
            word(alloc, "ok")
        }
        Err(kind) => refused(alloc, "", kind),
    }
}

/// Makes an archive over the one that is kept: what is answered, and whether the files are as a session that only reads
/// leaves them.
fn store_over<F: ArchiveFiles>(
    alloc: Global,
    archives: &mut Archives<F>,
    society: &str,
) -> Result<Vec<u8>, AllocError> {
    match &archives.kept {
        Some(kept) => over_row(alloc, &kept.images, society),
        None => word(alloc, "none"),
    }
}

fn over_row<F: ArchiveFiles>(
    alloc: Global,
    images: &F,
    society: &str,
) -> Result<Vec<u8>, AllocError> {
    let (_, unchanged) = images.visit_once(alloc, Fuses::none(), Asked::Nothing)?;
    let (made, left) = images.make(alloc, Fuses::none(), society)?;
    let is_same = left.is_same(&unchanged);
    drop(left);
    drop(unchanged);
    let mut words = Words::new(alloc, "over")?;
    say_made(alloc, made, &mut words)?;
    words.say(same_or_differs(is_same))?;
    words.into_row()
}

fn same_or_differs(is_same: bool) -> &'static str {
    if is_same { "same" } else { "differs" }
}

/// Whether the archive in files holds what the others hold.
fn stored<F: ArchiveFiles>(
    alloc: Global,
    archives: &mut Archives<F>,
) -> Result<Vec<u8>, AllocError> {
    if archives.kept.is_none() {
        return word(alloc, "none");
    }
    let agrees = archives.agrees(alloc, Asked::Nothing, &[])?;
    word(alloc, same_or_differs(agrees))
}

fn society_row<F: ArchiveFiles>(
    alloc: Global,
    archives: &Archives<F>,
) -> Result<Vec<u8>, AllocError> {
    let Some(kept) = &archives.kept else {
        return word(alloc, "none");
    };
    match kept.society(alloc)? {
        Ok(society) => said(alloc, "society", society.as_str().as_bytes()),
        Err(kind) => refused(alloc, "", kind),
    }
}

/// The text of the GEDCOM file that the archive in files is exported as.
fn export_row<F: ArchiveFiles>(
    alloc: Global,
    archives: &Archives<F>,
) -> Result<Vec<u8>, AllocError> {
    let Some(kept) = &archives.kept else {
        return word(alloc, "none");
    };
    match kept.images.export_once(alloc)? {
        Ok(text) => said(alloc, "export", text.as_slice()),
        Err(kind) => refused(alloc, "", kind),
    }
}

/// The answers of requests that the archive in files does in one call. A row is one field here.
fn run<F: ArchiveFiles>(
    alloc: Global,
    archives: &mut Archives<F>,
    rows: &[&str],
) -> Result<Vec<u8>, AllocError> {
    match requests_of(alloc, rows)? {
        Ok(requests) => archives.run(alloc, &requests),
        Err(kind) => refused(alloc, "", kind),
    }
}

/// A request on a copy of the archive of which a file fails.
fn stop<F: ArchiveFiles>(
    alloc: Global,
    archives: &mut Archives<F>,
    file: &str,
    calls: &str,
    fields: &[&str],
) -> Result<Vec<u8>, AllocError> {
    let Some(fuses) = Fuses::of(file, calls) else {
        return refused(alloc, "", RefusalKind::BadRow);
    };
    match request_of(alloc, fields)? {
        Ok(request) => stop_request(alloc, archives, fuses, [request]),
        Err(kind) => refused(alloc, "", kind),
    }
}

/// The request is done twice, and once more when the archive is opened again.
fn stop_request<F: ArchiveFiles>(
    alloc: Global,
    archives: &mut Archives<F>,
    fuses: Fuses,
    requests: [Request; 1],
) -> Result<Vec<u8>, AllocError> {
    let twice = Asked::Perform(&requests[0], 2);
    let again = Asked::Perform(&requests[0], 1);
    stop_row(alloc, archives, fuses, &requests, twice, again)
}

/// Requests in one call on a copy of the archive of which a file fails. A row is one field here.
fn stop_run<F: ArchiveFiles>(
    alloc: Global,
    archives: &mut Archives<F>,
    file: &str,
    calls: &str,
    rows: &[&str],
) -> Result<Vec<u8>, AllocError> {
    let Some(fuses) = Fuses::of(file, calls) else {
        return refused(alloc, "", RefusalKind::BadRow);
    };
    match requests_of(alloc, rows)? {
        Ok(requests) => {
            let asked = Asked::Run(&requests);
            stop_row(alloc, archives, fuses, &requests, asked, asked)
        }
        Err(kind) => refused(alloc, "", kind),
    }
}

fn stop_create<F: ArchiveFiles>(
    alloc: Global,
    file: &str,
    calls: &str,
    society: &str,
) -> Result<Vec<u8>, AllocError> {
    match Fuses::of(file, calls) {
        Some(fuses) => stop_create_row::<F>(alloc, fuses, society),
        None => refused(alloc, "", RefusalKind::BadRow),
    }
}

/// What an archive answers to a request, twice, after statements changed a copy of its tables.
fn spoil<F: ArchiveFiles>(
    alloc: Global,
    archives: &Archives<F>,
    sql: &str,
    fields: &[&str],
) -> Result<Vec<u8>, AllocError> {
    let Some(kept) = &archives.kept else {
        return word(alloc, "none");
    };
    match request_of(alloc, fields)? {
        Ok(request) => spoil_row(alloc, &kept.images, sql, request),
        Err(kind) => refused(alloc, "", kind),
    }
}

fn spoil_row<F: ArchiveFiles>(
    alloc: Global,
    images: &F,
    sql: &str,
    request: Request,
) -> Result<Vec<u8>, AllocError> {
    let row = visit_row(alloc, "spoil", images, sql, Asked::Perform(&request, 2));
    drop(request);
    row
}

/// What is answered where files are adopted in which statements made tables.
fn adopt<F: ArchiveFiles>(alloc: Global, sql: &str) -> Result<Vec<u8>, AllocError> {
    visit_row(alloc, "adopt", &F::empty(alloc), sql, Asked::Nothing)
}

fn visit_row<F: ArchiveFiles>(
    alloc: Global,
    first: &str,
    images: &F,
    sql: &str,
    asked: Asked<'_>,
) -> Result<Vec<u8>, AllocError> {
    let reply = images.visit_altered(alloc, sql, asked)?;
    reply_row(alloc, first, reply)
}

/// A row of what a visit answered, after a word.
fn reply_row(alloc: Global, first: &str, reply: Reply) -> Result<Vec<u8>, AllocError> {
    let words = reply_words(alloc, first, &reply);
    drop(reply);
    words?.into_row()
}

fn reply_words(alloc: Global, first: &str, reply: &Reply) -> Result<Words, AllocError> {
    let mut words = Words::new(alloc, first)?;
    words.say_reply(alloc, reply)?;
    Ok(words)
}

/// What is answered where a file has a text so many times.
fn adopt_bytes<F: ArchiveFiles>(
    alloc: Global,
    text: &str,
    count: &str,
) -> Result<Vec<u8>, AllocError> {
    let Ok(count) = count.parse::<u32>() else {
        return refused(alloc, "", RefusalKind::BadRow);
    };
    let images = F::of_database(alloc, repeated(alloc, text, count)?);
    let visited = images.visit_once(alloc, Fuses::none(), Asked::Nothing);
    drop(images);
    let (reply, _) = visited?;
    reply_row(alloc, "adopt", reply)
}

fn repeated(alloc: Global, text: &str, count: u32) -> Result<Vec<u8>, AllocError> {
    let mut bytes = Vec::new(alloc);
    for _ in 0..count {
        bytes.extend_from_slice(text.as_bytes())?;
    }
    Ok(bytes)
}
