//! Rows of words that need no quotes, and what an archive answered in such words.

use crate::asked::{Reply, Told};
use receipts::Answer;
use record_text::RefusalKind;
use std::alloc::{AllocError, Global};

/// A row of words.
#[derive(Drop)]
pub(crate) struct Words {
    line: String,
}

impl Words {
    pub(crate) fn new(alloc: Global, first: &str) -> Result<Words, AllocError> {
        Ok(Words {
            line: String::from_str(alloc, first)?,
        })
    }

    pub(crate) fn say(&mut self, word: &str) -> Result<(), AllocError> {
        self.line.push(',')?;
        self.line.push_str(word)
    }

    /// Says `ok`, or the number of a refusal.
    pub(crate) fn say_refused(
        &mut self,
        alloc: Global,
        refused: Option<RefusalKind>,
    ) -> Result<(), AllocError> {
        match refused {
            None => self.say("ok"),
            Some(kind) => self.say(kind.number().to_string(alloc)?.as_str()),
        }
    }

    /// Says what became of a visit: of one that is known, each outcome, and whether the state and the society were
    /// read.
    pub(crate) fn say_reply(&mut self, alloc: Global, reply: &Reply) -> Result<(), AllocError> {
        match reply {
            Reply::Unopened => self.say("unopened"),
            Reply::Unaltered => self.say("unaltered"),
            Reply::Unadopted(kind) => {
                self.say("unadopted")?;
                self.say_refused(alloc, Some(*kind))
            }
            Reply::Told(told) => self.say_told(alloc, told),
        }
    }

    fn say_told(&mut self, alloc: Global, told: &Told) -> Result<(), AllocError> {
        self.say_outcomes(alloc, told)?;
        self.say_refused(alloc, kind_of(&told.state))?;
        self.say_refused(alloc, kind_of(&told.society))
    }

    /// Says each outcome of a visit.
    pub(crate) fn say_outcomes(&mut self, alloc: Global, told: &Told) -> Result<(), AllocError> {
        for outcome in &told.outcomes {
            match outcome {
                Ok(_) => self.say_refused(alloc, None)?,
                Err(refusal) => self.say_refused(alloc, Some(refusal.kind))?,
            }
        }
        Ok(())
    }

    /// Says what became of a visit: of one that is known, the first number and the count of each answer, or the
    /// number of the refusal.
    pub(crate) fn say_answers(&mut self, alloc: Global, reply: &Reply) -> Result<(), AllocError> {
        let Reply::Told(told) = reply else {
            return self.say_reply(alloc, reply);
        };
        for outcome in &told.outcomes {
            match outcome {
                Ok(answer) => self.say_answer(alloc, *answer)?,
                Err(refusal) => self.say_refused(alloc, Some(refusal.kind))?,
            }
        }
        Ok(())
    }

    fn say_answer(&mut self, alloc: Global, answer: Answer) -> Result<(), AllocError> {
        self.say(answer.first.to_string(alloc)?.as_str())?;
        self.line.push(' ')?;
        self.line.push_str(answer.count.to_string(alloc)?.as_str())
    }

    /// The row.
    pub(crate) fn into_row(mut self) -> Result<Vec<u8>, AllocError> {
        self.line.push('\n')?;
        Ok(self.line.into_bytes())
    }
}

/// Why something was not read.
fn kind_of<T>(read: &Result<T, RefusalKind>) -> Option<RefusalKind> {
    match read {
        Ok(_) => None,
        Err(kind) => Some(*kind),
    }
}
