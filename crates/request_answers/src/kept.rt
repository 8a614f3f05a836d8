//! An archive in files, of which only the bytes are kept from row to row.

use crate::asked::{Asked, Outcome, Reply, Told};
use crate::files::{ArchiveFiles, Fuses, Visits};
use archive_state::State;
use receipts::Token;
use record_text::{RefusalKind, Text};
use request_words::picture;
use std::alloc::{AllocError, Global};

/// The files of an archive, and the tokens under which it was asked.
#[derive(Drop)]
pub(crate) struct Kept<F: ArchiveFiles> {
    pub(crate) images: F,
    pub(crate) tokens: Vec<Token>,
}

impl<F: ArchiveFiles> Kept<F> {
    /// A new archive of a society in empty files, or the refusal.
    pub(crate) fn create(
        alloc: Global,
        society: &str,
    ) -> Result<Result<Kept<F>, RefusalKind>, AllocError> {
        let (made, images) = F::empty(alloc).make(alloc, Fuses::none(), society)?;
        Ok(match made {
            Some(Ok(())) => Ok(Kept {
                images,
                tokens: Vec::new(alloc),
            }),
            Some(Err(kind)) => Err(kind),
            None => Err(RefusalKind::Storage),
        })
    }

    /// Remembers a token, so that what is kept under it is looked at.
    pub(crate) fn note(&mut self, alloc: Global, token: &Token) -> Result<(), AllocError> {
        Ok(self.tokens.push(token.copy(alloc)?)?)
    }

    /// Asks the archive. Whether its outcomes are these and it then holds this state, also where it is adopted again.
    pub(crate) fn agrees(
        &mut self,
        alloc: Global,
        asked: Asked<'_>,
        wanted: &[Outcome],
        state: &State,
    ) -> Result<bool, AllocError> {
        let shown = picture(alloc, state, &self.tokens)?;
        let (first, second) = self.visit_again(alloc, Fuses::none(), asked, Asked::Nothing)?;
        let first = has_told(alloc, first, wanted, &shown, &self.tokens);
        let second = has_told(alloc, second, &[], &shown, &self.tokens);
        Ok(first? && second?)
    }

    /// Asks the archive in files that may fail. What is left in them is kept.
    pub(crate) fn visit(
        &mut self,
        alloc: Global,
        fuses: Fuses,
        asked: Asked<'_>,
    ) -> Result<Reply, AllocError> {
        let (reply, left) = self.images.visit_once(alloc, fuses, asked)?;
        self.images = left;
        Ok(reply)
    }

    /// The same, and asks it again where it is adopted again.
    pub(crate) fn visit_again(
        &mut self,
        alloc: Global,
        fuses: Fuses,
        asked: Asked<'_>,
        then: Asked<'_>,
    ) -> Result<(Reply, Reply), AllocError> {
        let Visits {
            first,
            second,
            left,
        } = self.images.visit_twice(alloc, fuses, asked, then)?;
        self.images = left;
        Ok((first, second))
    }

    /// The society that the archive says.
    pub(crate) fn society(&self, alloc: Global) -> Result<Result<Text, RefusalKind>, AllocError> {
        let (reply, _) = self
            .images
            .visit_once(alloc, Fuses::none(), Asked::Nothing)?;
        Ok(reply.into_society())
    }
}

/// Whether an archive answered with these outcomes, and showed this.
fn has_told(
    alloc: Global,
    reply: Reply,
    wanted: &[Outcome],
    shown: &[u8],
    tokens: &[Token],
) -> Result<bool, AllocError> {
    match &reply {
        Reply::Told(told) if are_equal(&told.outcomes, wanted) => {
            shows(alloc, told, shown, tokens)
        }
        _ => Ok(false),
    }
}

fn shows(alloc: Global, told: &Told, shown: &[u8], tokens: &[Token]) -> Result<bool, AllocError> {
    match &told.state {
        Ok(state) => Ok(picture(alloc, state, tokens)?.as_slice() == shown),
        Err(_) => Ok(false),
    }
}

fn are_equal(found: &[Outcome], wanted: &[Outcome]) -> bool {
    if found.len() != wanted.len() {
        return false;
    }
    for i in 0..found.len() {
        if !is_equal(found[i], wanted[i]) {
            return false;
        }
    }
    true
}

/// Whether two outcomes are the same answer or the same refusal.
pub(crate) fn is_equal(a: Outcome, b: Outcome) -> bool {
    a.ok() == b.ok() && a.err() == b.err()
}
