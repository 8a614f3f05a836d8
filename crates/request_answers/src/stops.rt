//! Stops: a file fails from some call on, and what is found when the archive is opened again.

use crate::archives::Archives;
use crate::asked::{Asked, Reply, Told};
use crate::files::{ArchiveFiles, Fuses};
use crate::kept::Kept;
use crate::words::Words;
use archive_core::{Request, step};
use archive_state::State;
use receipts::Token;
use record_text::RefusalKind;
use request_words::{copy, picture, word};
use std::alloc::{AllocError, Global};

/// What is shown of a state before requests, after the first of them, and so on.
#[derive(Drop)]
struct Around {
    pictures: Vec<Vec<u8>>,
}

impl Around {
    fn of(
        alloc: Global,
        state: &State,
        tokens: &[Token],
        requests: &[Request],
    ) -> Result<Around, AllocError> {
        let mut stepped = copy(alloc, state, tokens)?;
        let pictures = pictures_of(alloc, &mut stepped, tokens, requests);
        drop(stepped);
        Ok(Around {
            pictures: pictures?,
        })
    }

    /// Says how many requests are done in a state, the most that it can be: `before`, `after`, or a number of the
    /// first; or `else`.
    fn say(
        &self,
        alloc: Global,
        state: &State,
        tokens: &[Token],
        words: &mut Words,
    ) -> Result<(), AllocError> {
        let shown = picture(alloc, state, tokens)?;
        match self.count_in(&shown) {
            Some(count) => self.say_count(alloc, count, words),
            None => words.say("else"),
        }
    }

    fn say_count(&self, alloc: Global, count: usize, words: &mut Words) -> Result<(), AllocError> {
        if Some(count) == self.pictures.len().checked_sub(1) {
            words.say("after")
        } else if count == 0 {
            words.say("before")
        } else {
            words.say((count as u64).to_string(alloc)?.as_str())
        }
    }

    /// How many requests are done where this is shown.
    fn count_in(&self, shown: &[u8]) -> Option<usize> {
        let mut found = None;
        for i in 0..self.pictures.len() {
            if self.pictures[i].as_slice() == shown {
                found = Some(i);
            }
        }
        found
    }

    /// Opens files again, asks the archive once more, and says what both visits answered and found.
    fn say_visits<F: ArchiveFiles>(
        &self,
        alloc: Global,
        left: F,
        tokens: &[Token],
        again: Asked<'_>,
        words: &mut Words,
    ) -> Result<(), AllocError> {
        let visits = left.visit_twice(alloc, Fuses::none(), Asked::Nothing, again);
        drop(left);
        let (first, second) = visits?.into_replies();
        let said = self.say_found(alloc, first, tokens, words);
        let said_again = self.say_found(alloc, second, tokens, words);
        said?;
        said_again
    }

    /// Says the outcomes of a visit, and how many requests it found done then.
    fn say_found(
        &self,
        alloc: Global,
        reply: Reply,
        tokens: &[Token],
        words: &mut Words,
    ) -> Result<(), AllocError> {
        match &reply {
            Reply::Told(told) => self.say_told(alloc, told, tokens, words),
            _ => words.say_reply(alloc, &reply),
        }
    }

    fn say_told(
        &self,
        alloc: Global,
        told: &Told,
        tokens: &[Token],
        words: &mut Words,
    ) -> Result<(), AllocError> {
        words.say_outcomes(alloc, told)?;
        match &told.state {
            Ok(state) => self.say(alloc, state, tokens, words),
            Err(kind) => words.say_refused(alloc, Some(*kind)),
        }
    }
}

/// What is shown of a state that requests change, before them and after each.
fn pictures_of(
    alloc: Global,
    stepped: &mut State,
    tokens: &[Token],
    requests: &[Request],
) -> Result<Vec<Vec<u8>>, AllocError> {
    let mut pictures = Vec::new(alloc);
    push(&mut pictures, picture(alloc, stepped, tokens))?;
    for request in requests {
        drop(step(alloc, stepped, request));
        push(&mut pictures, picture(alloc, stepped, tokens))?;
    }
    Ok(pictures)
}

fn push(pictures: &mut Vec<Vec<u8>>, shown: Result<Vec<u8>, AllocError>) -> Result<(), AllocError> {
    Ok(pictures.push(shown?)?)
}

/// What requests are asked as, on the archive in files that fail: what is answered; what is found when it is opened
/// again; and what is answered and found when they are asked as `again`.
pub(crate) fn stop_row<F: ArchiveFiles>(
    alloc: Global,
    archives: &mut Archives<F>,
    fuses: Fuses,
    requests: &[Request],
    asked: Asked<'_>,
    again: Asked<'_>,
) -> Result<Vec<u8>, AllocError> {
    for request in requests {
        archives.note(alloc, request)?;
    }
    match &archives.kept {
        Some(kept) => {
            let state = &archives.decided;
            stopped_row(alloc, kept, state, fuses, requests, asked, again)
        }
        None => word(alloc, "none"),
    }
}

fn stopped_row<F: ArchiveFiles>(
    alloc: Global,
    kept: &Kept<F>,
    state: &State,
    fuses: Fuses,
    requests: &[Request],
    asked: Asked<'_>,
    again: Asked<'_>,
) -> Result<Vec<u8>, AllocError> {
    let around = Around::of(alloc, state, &kept.tokens, requests)?;
    let mut words = Words::new(alloc, "stop")?;
    let left = say_stopped(alloc, kept, fuses, asked, &mut words)?;
    around.say_visits(alloc, left, &kept.tokens, again, &mut words)?;
    words.into_row()
}

/// Says what a visit to files that fail answered. What is left in them.
fn say_stopped<F: ArchiveFiles>(
    alloc: Global,
    kept: &Kept<F>,
    fuses: Fuses,
    asked: Asked<'_>,
    words: &mut Words,
) -> Result<F, AllocError> {
    let (reply, left) = kept.images.visit_once(alloc, fuses, asked)?;
    let said = words.say_reply(alloc, &reply);
    drop(reply);
    said?;
    Ok(left)
}

/// The making of an archive in empty files that fail: what it answered; whether the files are found `empty` or with the
/// `new` archive; and what is answered and found when it is made once more.
pub(crate) fn stop_create_row<F: ArchiveFiles>(
    alloc: Global,
    fuses: Fuses,
    society: &str,
) -> Result<Vec<u8>, AllocError> {
    let mut words = Words::new(alloc, "stop")?;
    let left = made_in(alloc, F::empty(alloc), fuses, society, &mut words)?;
    drop(made_in(alloc, left, Fuses::none(), society, &mut words)?);
    words.into_row()
}

/// Makes an archive in files, says what was answered and found, and answers the files that it left.
fn made_in<F: ArchiveFiles>(
    alloc: Global,
    images: F,
    fuses: Fuses,
    society: &str,
    words: &mut Words,
) -> Result<F, AllocError> {
    let made = images.make(alloc, fuses, society);
    drop(images);
    let (made, left) = made?;
    say_made(alloc, made, words)?;
    say_new(alloc, &left, society, words)?;
    Ok(left)
}

/// Says what the making of an archive answered.
pub(crate) fn say_made(
    alloc: Global,
    made: Option<Result<(), RefusalKind>>,
    words: &mut Words,
) -> Result<(), AllocError> {
    match made {
        None => words.say("unopened"),
        Some(made) => words.say_refused(alloc, made.err()),
    }
}

/// Says `empty` where files have no archive, `new` where they have one of this society that holds nothing.
fn say_new<F: ArchiveFiles>(
    alloc: Global,
    images: &F,
    society: &str,
    words: &mut Words,
) -> Result<(), AllocError> {
    let (reply, _) = images.visit_once(alloc, Fuses::none(), Asked::Nothing)?;
    let said = say_new_as(alloc, &reply, society, words);
    drop(reply);
    said
}

fn say_new_as(
    alloc: Global,
    reply: &Reply,
    society: &str,
    words: &mut Words,
) -> Result<(), AllocError> {
    match reply {
        Reply::Unadopted(RefusalKind::NotAnArchive) => words.say("empty"),
        _ if is_new(alloc, reply, society)? => words.say("new"),
        _ => {
            words.say("else")?;
            words.say_reply(alloc, reply)
        }
    }
}

fn is_new(alloc: Global, reply: &Reply, society: &str) -> Result<bool, AllocError> {
    let Reply::Told(told) = reply else {
        return Ok(false);
    };
    let (Ok(state), Ok(text)) = (&told.state, &told.society) else {
        return Ok(false);
    };
    Ok(text.as_str() == society && is_empty(alloc, state)?)
}

/// Whether a state shows what a new one shows.
fn is_empty(alloc: Global, state: &State) -> Result<bool, AllocError> {
    let shown = picture(alloc, state, &[])?;
    let new = State::new(alloc);
    let empty = picture(alloc, &new, &[]);
    drop(new);
    Ok(shown.as_slice() == empty?.as_slice())
}
