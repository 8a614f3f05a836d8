//! What became of a session.

use record_text::RefusalKind;
use request_answers::Reply;

/// What became of a session, by its task.
pub(crate) enum Done {
    /// The files could not be opened.
    Unopened,
    Visited(Reply),
    VisitedTwice(Reply, Reply),
    Created(Result<(), RefusalKind>),
    Exported(Result<Vec<u8>, RefusalKind>),
}

impl Drop for Done {
    fn drop(self) {
        match self {
            Done::Unopened => {}
            Done::Visited(_reply) => {}
            Done::VisitedTwice(_first, _second) => {}
            Done::Created(_made) => {}
            Done::Exported(_text) => {}
        }
    }
}

impl Done {
    /// What a visit answered.
    pub(crate) fn into_reply(self) -> Reply {
        match self {
            Done::Visited(reply) => reply,
            _ => Reply::Unopened,
        }
    }

    /// What two visits answered.
    pub(crate) fn into_replies(self) -> (Reply, Reply) {
        match self {
            Done::VisitedTwice(first, second) => (first, second),
            _ => (Reply::Unopened, Reply::Unopened),
        }
    }

    /// What the making of an archive answered. `None`: the files could not be opened.
    pub(crate) fn into_made(self) -> Option<Result<(), RefusalKind>> {
        match self {
            Done::Created(made) => Some(made),
            _ => None,
        }
    }

    /// The text that was exported. 80: the files could not be opened.
    pub(crate) fn into_text(self) -> Result<Vec<u8>, RefusalKind> {
        match self {
            Done::Exported(text) => text,
            _ => Err(RefusalKind::Storage),
        }
    }
}
