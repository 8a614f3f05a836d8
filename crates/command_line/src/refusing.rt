//! Words that the grammar of `clap` takes, and that are refused all the same: the texts say it as `clap` does.

use crate::tasks::Refused;
use std::alloc::{AllocError, Global};

/// The words are refused since no day is read from the one of an option.
pub(crate) fn bad_day(alloc: Global, word: &str, option: &str) -> Refused {
    refused(format!(in alloc;
        "error: invalid value '{word}' for '{option} <YYYY-MM-DD>': no day\n\n{HELP}"
    ))
}

/// The words are refused since that one is none of those that may stand there.
pub(crate) fn no_value(alloc: Global, word: &str, place: &str, values: &str) -> Refused {
    refused(format!(in alloc;
        "error: invalid value '{word}' for '{place}'\n  [possible values: {values}]\n\n{HELP}"
    ))
}

/// The words are refused since a batch of entries lacks its token.
pub(crate) fn no_token(alloc: Global) -> Refused {
    refused(format!(in alloc;
        "error: the following required arguments were not provided:\n  --token <T>\n\n{BATCH_USAGE}\n\n{HELP}"
    ))
}

/// The words are refused since entries are no table, and that option is of tables.
pub(crate) fn no_table(alloc: Global, option: &str) -> Refused {
    refused(format!(in alloc;
        "error: the argument '{option}' cannot be used without '--table'\n\n{TABLE_USAGE}\n\n{HELP}"
    ))
}

/// The words are refused since a table that is to be entered lacks its token.
pub(crate) fn no_table_token(alloc: Global) -> Refused {
    refused(format!(in alloc;
        "error: the following required arguments were not provided:\n  --token <T>\n\n{TABLE_USAGE}\n\n{HELP}"
    ))
}

/// The words are refused since an export lacks that option, which goes with one that is given.
pub(crate) fn lacking(alloc: Global, option: &str) -> Refused {
    refused(format!(in alloc;
        "error: the following required arguments were not provided:\n  {option}\n\n{EXPORT_USAGE}\n\n{HELP}"
    ))
}

/// The words are refused since a room of text is given a name.
pub(crate) fn no_html(alloc: Global) -> Refused {
    refused(format!(in alloc;
        "error: the argument '--host <NAME>' cannot be used without '--html'\n\n{HTML_USAGE}\n\n{HELP}"
    ))
}

/// The words are refused since that one has nothing that is searched for.
pub(crate) fn no_word(alloc: Global, word: &str) -> Refused {
    refused(format!(in alloc;
        "error: invalid value '{word}' for '<WORD>...': no letter and no digit\n\n{HELP}"
    ))
}

/// The words are refused since that one gives no number of a record.
pub(crate) fn no_number(alloc: Global, word: &str, place: &str) -> Refused {
    refused(format!(in alloc;
        "error: invalid value '{word}' for '{place}': neither {NUMBERS} nor @ and a token\n\n{HELP}"
    ))
}

/// The words are refused since a source is given, and the list is not one of entries.
pub(crate) fn no_entries(alloc: Global, kind: &str) -> Refused {
    refused(format!(in alloc;
        "error: the argument '--source <N>' cannot be used with '{kind}'\n\n{HELP}"
    ))
}

/// The words are refused with that text, unless out of memory for it.
fn refused(text: Result<String, AllocError>) -> Refused {
    match text {
        Ok(text) => Refused::Words { text },
        Err(_) => Refused::OutOfMemory,
    }
}

const EXPORT_USAGE: &str = "Usage: parish export [--plain] [--public --today <YYYY-MM-DD>] <FILE>";

const BATCH_USAGE: &str = "Usage: parish entries --source <N> --token <T> <FILE>";

const TABLE_USAGE: &str =
    "Usage: parish entries --table <--check|--token <T>> --source <N> [--make-places] \
     [--dates <ORDER>] [--from <SET>] <FILE>";

const HTML_USAGE: &str =
    "Usage: parish serve --port <P> --count <N> --today <YYYY-MM-DD> --html [--host <NAME>] <FILE>";

const NUMBERS: &str = "a number from 1 to 4294967295";

const HELP: &str = "For more information, try '--help'.\n";
