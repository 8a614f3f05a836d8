//! The words and the options of the commands, as `clap` gets them.

ghost use Rattle.std.specs.Prelude.{◌≡◌, false};
ghost use Rattle.clap.specs.Words.{rule_of};
ghost use Rattle.command_line.specs.Described.{rule_described, with_form};

use clap::builder::ValueParser;
use clap::{Arg, ArgAction};
use std::alloc::Global;

/// A word or an option that a command takes.
pub(crate) struct Word {
    pub(crate) id: &'static str,
    pub(crate) help: &'static str,
    pub(crate) form: Form,
    /// It has to be there.
    pub(crate) needed: bool,
    /// It is a number of those, the least and the greatest among them.
    pub(crate) numbers: Option<(u64, u64)>,
}

/// How a word is given.
pub(crate) enum Form {
    /// At its place.
    Place,
    /// From its place on, one or more.
    Places,
    /// After its name, which is also its id; help calls it so.
    Named(&'static str),
    /// By its name, without a value.
    Flag,
}

/// The most that the number of a record can be.
const MOST_NUMBER: u64 = 4_294_967_295;

pub(crate) const FILE: Word = Word {
    id: "FILE",
    help: "The file of the archive",
    form: Form::Place,
    needed: true,
    numbers: None,
};

pub(crate) const STOP: Word = Word {
    id: "stop",
    help: "End after the answer of the first row that is refused",
    form: Form::Flag,
    needed: false,
    numbers: None,
};

pub(crate) const EXPECT: Word = Word {
    id: "expect",
    help: "End before the first row that would be answered otherwise than in this file",
    form: Form::Named("ANSWERS"),
    needed: false,
    numbers: None,
};

pub(crate) const SOCIETY: Word = Word {
    id: "society",
    help: "The name of the society",
    form: Form::Named("NAME"),
    needed: true,
    numbers: None,
};

/// Whether it gives a number is judged where it is read.
pub(crate) const SOURCE: Word = Word {
    id: "source",
    help: "The number of the register's source, 1 to 4294967295, or @TOKEN",
    form: Form::Named("N"),
    needed: true,
    numbers: None,
};

pub(crate) const TOKEN: Word = Word {
    id: "token",
    help: "The token of the request: 1 to 64 characters from `!` to `~`",
    form: Form::Named("T"),
    needed: true,
    numbers: None,
};

/// The same where it may be left out.
pub(crate) const MAYBE_TOKEN: Word = Word {
    id: "token",
    help: "The token of the request: 1 to 64 characters from `!` to `~`",
    form: Form::Named("T"),
    needed: false,
    numbers: None,
};

pub(crate) const TABLE: Word = Word {
    id: "table",
    help: "The input is a table as a spreadsheet writes it, with a header row",
    form: Form::Flag,
    needed: false,
    numbers: None,
};

pub(crate) const CHECKED: Word = Word {
    id: "check",
    help: "Look a table over, and enter nothing",
    form: Form::Flag,
    needed: false,
    numbers: None,
};

pub(crate) const MAKES: Word = Word {
    id: "make-places",
    help: "Make the places that paths of a table name and FILE does not have",
    form: Form::Flag,
    needed: false,
    numbers: None,
};

/// Whether it is an order is judged where it is read.
pub(crate) const ORDER: Word = Word {
    id: "dates",
    help: "The order of dates like 5/6/1761 in a table: dmy or mdy",
    form: Form::Named("ORDER"),
    needed: false,
    numbers: None,
};

pub(crate) const PROGRESS: Word = Word {
    id: "progress",
    help: "Tell on standard error how many rows are written",
    form: Form::Flag,
    needed: false,
    numbers: None,
};

pub(crate) const REPORT: Word = Word {
    id: "report",
    help: "A new file for what became of the header, the records and the lines",
    form: Form::Named("REPORT"),
    needed: false,
    numbers: None,
};

/// Whether it is a kind of sheet is judged where it is read.
pub(crate) const SHEET_KIND: Word = Word {
    id: "KIND",
    help: "The kind of sheet: person, family, pedigree or register",
    form: Form::Place,
    needed: true,
    numbers: None,
};

pub(crate) const RECORD: Word = Word {
    id: "NO",
    help: "The number of the record, 1 to 4294967295",
    form: Form::Place,
    needed: true,
    numbers: Some((1, MOST_NUMBER)),
};

/// Whether it is a day is judged where it is read, and so is that of the other options with a day.
pub(crate) const TODAY: Word = Word {
    id: "today",
    help: TODAY_HELP,
    form: Form::Named("YYYY-MM-DD"),
    needed: true,
    numbers: None,
};

/// The same where it may be left out.
pub(crate) const MAYBE_TODAY: Word = Word {
    id: "today",
    help: TODAY_HELP,
    form: Form::Named("YYYY-MM-DD"),
    needed: false,
    numbers: None,
};

const TODAY_HELP: &str = "The day of which it is judged what may be shown";

pub(crate) const PUBLIC: Word = Word {
    id: "public",
    help: "Only what may be shown on the day of --today",
    form: Form::Flag,
    needed: false,
    numbers: None,
};

pub(crate) const PLAIN: Word = Word {
    id: "plain",
    help: "For other programs: without tags of our own",
    form: Form::Flag,
    needed: false,
    numbers: None,
};

pub(crate) const GENERATIONS: Word = Word {
    id: "generations",
    help: "The generations of a pedigree, 1 to 12 [default: 4]",
    form: Form::Named("G"),
    needed: false,
    numbers: Some((1, 12)),
};

pub(crate) const PORT: Word = Word {
    id: "port",
    help: "The port, 1 to 65535",
    form: Form::Named("P"),
    needed: true,
    numbers: Some((1, 65535)),
};

pub(crate) const COUNT: Word = Word {
    id: "count",
    help: "How many visitors are answered, 0 to 1000000",
    form: Form::Named("N"),
    needed: true,
    numbers: Some((0, 1_000_000)),
};

pub(crate) const HTML: Word = Word {
    id: "html",
    help: "Give pages of HTML, not of text",
    form: Form::Flag,
    needed: false,
    numbers: None,
};

pub(crate) const HOST: Word = Word {
    id: "host",
    help: "A name that the room may be asked for, as behind a proxy; only with --html",
    form: Form::Named("NAME"),
    needed: false,
    numbers: None,
};

pub(crate) const FIRST_DAY: Word = Word {
    id: "from",
    help: "The first of the days",
    form: Form::Named("YYYY-MM-DD"),
    needed: true,
    numbers: None,
};

pub(crate) const LAST_DAY: Word = Word {
    id: "to",
    help: "The last of the days",
    form: Form::Named("YYYY-MM-DD"),
    needed: true,
    numbers: None,
};

pub(crate) const WORDS: Word = Word {
    id: "words",
    help: "Say after each number what it is, its date and its place",
    form: Form::Flag,
    needed: false,
    numbers: None,
};

/// Whether it is a character set is judged where it is read.
pub(crate) const SET: Word = Word {
    id: "from",
    help: "The character set of the file, one of those below",
    form: Form::Named("SET"),
    needed: false,
    numbers: None,
};

pub(crate) const ALL: Word = Word {
    id: "all",
    help: "Print each faulty line, up to 1000 of them",
    form: Form::Flag,
    needed: false,
    numbers: None,
};

/// Whether it is a kind of records is judged where it is read.
pub(crate) const RECORD_KIND: Word = Word {
    id: "KIND",
    help: RECORD_KIND_HELP,
    form: Form::Place,
    needed: true,
    numbers: None,
};

/// The same as an option.
pub(crate) const OPTION_KIND: Word = Word {
    id: "kind",
    help: RECORD_KIND_HELP,
    form: Form::Named("KIND"),
    needed: false,
    numbers: None,
};

const RECORD_KIND_HELP: &str = "The kind of the records, one of those below";

/// Whether it goes with the kind, and gives a number, is judged where it is read.
pub(crate) const MAYBE_SOURCE: Word = Word {
    id: "source",
    help: "Only the entries of the source of this number, 1 to 4294967295, or @TOKEN",
    form: Form::Named("N"),
    needed: false,
    numbers: None,
};

pub(crate) const AFTER: Word = Word {
    id: "after",
    help: "Only records with a greater number than this, 0 to 4294967295",
    form: Form::Named("NUMBER"),
    needed: false,
    numbers: Some((0, MOST_NUMBER)),
};

pub(crate) const LIMIT: Word = Word {
    id: "limit",
    help: "So many records at most, 1 to 4294967295 [default: all]",
    form: Form::Named("N"),
    needed: false,
    numbers: Some((1, MOST_NUMBER)),
};

/// The same of what is found.
pub(crate) const FOUND_LIMIT: Word = Word {
    id: "limit",
    help: "So many records at most, 1 to 4294967295 [default: 1000]",
    form: Form::Named("N"),
    needed: false,
    numbers: Some((1, MOST_NUMBER)),
};

/// Whether it is a shell is judged where it is read.
pub(crate) const SHELL: Word = Word {
    id: "SHELL",
    help: "The shell: bash or zsh",
    form: Form::Place,
    needed: true,
    numbers: None,
};

pub(crate) const CSV: Word = Word {
    id: "csv",
    help: "Print rows of CSV below a header in place of lines",
    form: Form::Flag,
    needed: false,
    numbers: None,
};

pub(crate) const SEARCH: Word = Word {
    id: "WORD",
    help: "The words, or beginnings of them, that a name has to have",
    form: Form::Places,
    needed: true,
    numbers: None,
};

/// Whether they give numbers is judged where they are read.
pub(crate) const RECORDS: Word = Word {
    id: "NO",
    help: "The numbers of the records, 1 to 4294967295, or @TOKEN",
    form: Form::Places,
    needed: true,
    numbers: None,
};

/// The word as `clap` gets it.
pub(crate) fn arg_of<'a>(alloc: Global, word: &Word) -> Arg<'a>
    ensures rule { rule_of result ≡ rule_described word.now }
    ensures local { result.global ≡ false }
{
    let arg = formed(Arg::new(alloc, word.id), word)
        .help(word.help)
        .required(word.needed);
    match word.numbers {
        Some((least, most)) => arg.value_parser(ValueParser::unsigned(least, most)),
        None => arg,
    }
}

/// An argument, in the form of the word.
fn formed<'a>(arg: Arg<'a>, word: &Word) -> Arg<'a>
    ensures rule { rule_of result ≡ with_form word.now.form word.now.id.now (rule_of arg.entry) }
    ensures local { result.global ≡ arg.entry.global }
{
    match word.form {
        Form::Place => arg.action(ArgAction::Set),
        Form::Places => arg.num_args(1..).action(ArgAction::Append),
        Form::Named(value) => arg.long(word.id).value_name(value).action(ArgAction::Set),
        Form::Flag => arg.long(word.id).action(ArgAction::SetTrue),
    }
}
