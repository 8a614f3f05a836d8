//! Two archives that are asked the same: in one a request is done at once, in the other it is decided and then made. A
//! third in files may stand beside them.

use crate::asked::{Asked, Outcome};
use crate::files::ArchiveFiles;
use crate::kept::{Kept, is_equal};
use archive_core::{Request, apply, decide, step};
use archive_state::{Changes, Numbered, State};
use receipts::Answer;
use record_kinds::{Place, Record};
use record_text::{Refusal, Text};
use request_words::{outcome_row, see, word};
use std::alloc::{AllocError, Global};

/// Two archives in memory, and one in files where it was made.
#[derive(Drop)]
pub struct Archives<F: ArchiveFiles> {
    stepped: State,
    pub(crate) decided: State,
    pub(crate) kept: Option<Kept<F>>,
}

impl<F: ArchiveFiles> Archives<F> {
    /// Empty ones in memory, and none in files.
    pub fn new(alloc: Global) -> Archives<F> {
        Archives {
            stepped: State::new(alloc),
            decided: State::new(alloc),
            kept: None,
        }
    }

    /// The answer of a request, or `differs`.
    pub(crate) fn ask(&mut self, alloc: Global, request: &Request) -> Result<Vec<u8>, AllocError> {
        self.note(alloc, request)?;
        match self.outcome(alloc, request) {
            Some(outcome) if self.agrees(alloc, Asked::Perform(request, 1), &[outcome])? => {
                outcome_row(alloc, request.token.as_str(), outcome)
            }
            _ => word(alloc, "differs"),
        }
    }

    /// The answers of requests, which the archive in files does in one call, or `differs`.
    pub(crate) fn run(
        &mut self,
        alloc: Global,
        requests: &[Request],
    ) -> Result<Vec<u8>, AllocError> {
        let mut outcomes = Vec::new(alloc);
        let mut rows = Vec::new(alloc);
        for request in requests {
            if !self.run_one(alloc, request, &mut outcomes, &mut rows)? {
                return word(alloc, "differs");
            }
        }
        if self.agrees(alloc, Asked::Run(requests), &outcomes)? {
            Ok(rows)
        } else {
            word(alloc, "differs")
        }
    }

    /// Adds the outcome of a request in both archives in memory, and its row. `false`: they differ.
    fn run_one(
        &mut self,
        alloc: Global,
        request: &Request,
        outcomes: &mut Vec<Outcome>,
        rows: &mut Vec<u8>,
    ) -> Result<bool, AllocError> {
        self.note(alloc, request)?;
        let Some(outcome) = self.outcome(alloc, request) else {
            return Ok(false);
        };
        outcomes.push(outcome)?;
        let row = outcome_row(alloc, request.token.as_str(), outcome)?;
        rows.extend_from_slice(row.as_slice())?;
        Ok(true)
    }

    /// The outcome of a request in both archives in memory. `None`: they differ.
    fn outcome(&mut self, alloc: Global, request: &Request) -> Option<Outcome> {
        let stepped = step(alloc, &mut self.stepped, request);
        let decided = decide_and_make(alloc, &mut self.decided, request);
        if is_equal(stepped, decided) {
            Some(decided)
        } else {
            None
        }
    }

    /// Remembers the token of a request, where an archive in files is kept.
    pub(crate) fn note(&mut self, alloc: Global, request: &Request) -> Result<(), AllocError> {
        match &mut self.kept {
            Some(kept) => kept.note(alloc, &request.token),
            None => Ok(()),
        }
    }

    /// Asks the archive in files. Whether its outcomes are these and it then holds what the others hold; so is one that
    /// is not kept.
    pub(crate) fn agrees(
        &mut self,
        alloc: Global,
        asked: Asked<'_>,
        wanted: &[Outcome],
    ) -> Result<bool, AllocError> {
        match &mut self.kept {
            Some(kept) => kept.agrees(alloc, asked, wanted, &self.decided),
            None => Ok(true),
        }
    }

    /// What is seen of both, or `differs`.
    pub(crate) fn see(
        &self,
        alloc: Global,
        asked: &str,
        fields: &[&str],
    ) -> Result<Vec<u8>, AllocError> {
        let stepped = see(alloc, &self.stepped, asked, fields)?;
        let decided = see(alloc, &self.decided, asked, fields)?;
        if stepped.as_slice() == decided.as_slice() {
            Ok(decided)
        } else {
            word(alloc, "differs")
        }
    }

    pub(crate) fn set_next(&mut self, next: u64) {
        self.stepped.set_next(next);
        self.decided.set_next(next);
    }

    /// Puts a place at a number of both. A name that is no text is put nowhere.
    pub(crate) fn put_place(
        &mut self,
        alloc: Global,
        number: u32,
        name: &str,
        parent: Option<u32>,
    ) -> Result<(), AllocError> {
        put_place(alloc, &mut self.stepped, number, name, parent)?;
        put_place(alloc, &mut self.decided, number, name, parent)
    }

    /// Puts places of one name at the numbers from 1 on of both. A name that is no text is put nowhere.
    pub(crate) fn put_places(
        &mut self,
        alloc: Global,
        count: u32,
        name: &str,
    ) -> Result<(), AllocError> {
        let Some(name) = Text::try_new(String::from_str(alloc, name)?) else {
            return Ok(());
        };
        put_places(alloc, &mut self.stepped, count, &name)?;
        put_places(alloc, &mut self.decided, count, &name)
    }
}

/// Puts places of one name at the numbers from 1 on, by one change.
fn put_places(alloc: Global, state: &mut State, count: u32, name: &Text) -> Result<(), AllocError> {
    let mut puts = Vec::new(alloc);
    for i in 0..count {
        puts.push(numbered_place(alloc, i.saturating_add(1), name)?)?;
    }
    let changes = Changes {
        puts,
        removals: Vec::new(alloc),
        next: u64::from(count) + 1,
        answer: Answer { first: 1, count },
        kept: None,
        slip: None,
    };
    apply(alloc, state, changes)?;
    Ok(())
}

fn numbered_place(alloc: Global, number: u32, name: &Text) -> Result<Numbered, AllocError> {
    let place = Place {
        name: name.copy(alloc)?,
        parent: None,
        carried: Vec::new(alloc),
    };
    Ok(Numbered {
        number,
        record: Record::Place(place),
    })
}

fn decide_and_make(alloc: Global, state: &mut State, request: &Request) -> Result<Answer, Refusal> {
    let changes = decide_over(alloc, state, request)?;
    Ok(apply(alloc, state, changes)?)
}

fn decide_over(alloc: Global, state: &State, request: &Request) -> Result<Changes, Refusal> {
    let mut view: &State = state;
    decide(alloc, &mut view, request)
}

fn put_place(
    alloc: Global,
    state: &mut State,
    number: u32,
    name: &str,
    parent: Option<u32>,
) -> Result<(), AllocError> {
    let Some(name) = Text::try_new(String::from_str(alloc, name)?) else {
        return Ok(());
    };
    let place = Place {
        name,
        parent,
        carried: Vec::new(alloc),
    };
    drop(state.put_record(number, Record::Place(place))?);
    Ok(())
}
