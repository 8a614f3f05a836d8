//! What is asked of an archive in files, and what it answered.

use archive_core::Request;
use archive_state::State;
use receipts::Answer;
use record_text::{Refusal, RefusalKind, Text};

pub type Outcome = Result<Answer, Refusal>;

/// What is asked of an archive before its state and its society are read.
#[derive(Clone, Copy)]
pub enum Asked<'a> {
    Nothing,
    /// A request, so many times.
    Perform(&'a Request, u32),
    /// Requests by one call.
    Run(&'a [Request]),
    /// Steps by their names, of the import that is the first of these requests. `perform` is only of the second, `run`
    /// of all.
    Steps(&'a [&'a str], &'a [Request]),
}

/// What became of a visit to an archive.
pub enum Reply {
    /// Its files could not be opened.
    Unopened,
    /// Statements before it failed.
    Unaltered,
    /// It was not adopted, or memory for the outcomes was refused.
    Unadopted(RefusalKind),
    Told(Told),
}

impl Drop for Reply {
    fn drop(self) {
        match self {
            Reply::Unopened => {}
            Reply::Unaltered => {}
            Reply::Unadopted(_) => {}
            Reply::Told(_told) => {}
        }
    }
}

impl Reply {
    /// The society that was read, or why none was.
    pub(crate) fn into_society(self) -> Result<Text, RefusalKind> {
        match self {
            Reply::Told(told) => told.into_society(),
            Reply::Unadopted(kind) => Err(kind),
            Reply::Unopened => Err(RefusalKind::Storage),
            Reply::Unaltered => Err(RefusalKind::Storage),
        }
    }
}

/// What an archive answered.
pub struct Told {
    pub outcomes: Vec<Outcome>,
    pub state: Result<State, RefusalKind>,
    pub society: Result<Text, RefusalKind>,
}

impl Drop for Told {
    fn drop(self) {
        let Told {
            outcomes: _,
            state: _,
            society: _,
        } = self;
    }
}

impl Told {
    fn into_society(self) -> Result<Text, RefusalKind> {
        let Told {
            outcomes: _,
            state: _,
            society,
        } = self;
        society
    }
}
