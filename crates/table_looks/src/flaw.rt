//! What is found where the tables of an archive are not good.

use audit::Fault;
use std::fmt;

/// What is wrong with tables that can be read.
#[derive(Clone, Copy, Debug, PartialEq, Eq)]
pub enum Flaw {
    /// What they mean breaks the rule of a sound archive.
    Rule(Fault),
    /// The record of a number has a date and no span, or a span that is not that of its date.
    Span(u32),
    /// The record of the first number names the second one, and no link says so.
    Link(u32, u32),
    /// The record of a number is not looked for by its name or its key, or is looked for and has none.
    Sought(u32),
}

impl fmt::Display for Flaw {
    /// `record 17: its span is not that of its date`, `record 17: it names 5, without a link`, `record 17: it is not
    /// looked for by what it has`.
    fn fmt<W: fmt::Write>(&self, f: &mut fmt::Formatter<W>) -> fmt::Result {
        match self {
            Flaw::Rule(fault) => write!(f, "{fault}"),
            Flaw::Span(number) => write!(f, "record {number}: its span is not that of its date"),
            Flaw::Link(number, named) => {
                write!(f, "record {number}: it names {named}, without a link")
            }
            Flaw::Sought(number) => {
                write!(f, "record {number}: it is not looked for by what it has")
            }
        }
    }
}
