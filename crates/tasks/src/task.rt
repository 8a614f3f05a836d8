//! What may be asked of an archive that is open.

use archive_output::Sheet;
use character_sets::CharacterSet;
use expected_answers::Expected;
use page_entries::DateOrder;
use receipts::Token;
use record_lists::Listed;
use row_references::NumberWord;

/// How a table is read.
#[derive(Clone, Copy, Debug)]
pub struct TableForm {
    /// The character set of its file, if one is given; the mark of UTF-16 goes before it.
    pub set: Option<CharacterSet>,
    /// The order of a date of three numbers, if one is given.
    pub order: Option<DateOrder>,
    /// Whether the places are made that its paths name and the archive does not have.
    pub makes: bool,
}

/// What is asked of an archive that is open. Days are counted from 1970-01-01, day 0.
#[derive(Debug, Drop)]
pub enum Task {
    /// The requests of the rows of the input, with their answers on the output.
    Apply,
    /// The same of the rows up to the first that is refused.
    ApplyUntilRefused,
    /// The same of the rows before the first that would be answered otherwise than is expected; with `stops` up to the
    /// first that is refused.
    ApplyAsExpected {
        expected: Expected,
        stops: bool,
    },
    /// The rows of the input as register entries of a source, under a token, all of them or none. The source, here and
    /// below, is given by its number or by a token.
    Entries {
        token: Token,
        source: NumberWord,
    },
    /// The table of the input as register entries of a source, under a token, all its rows or none.
    EnterTable {
        token: Token,
        source: NumberWord,
        form: TableForm,
    },
    /// What is wrong or doubtful in the table of the input, whose rows would be register entries of a source, on the
    /// output.
    CheckTable {
        source: NumberWord,
        form: TableForm,
    },
    /// The GEDCOM file of the input, whole or not at all, under a token. With `progress` the faults get how far it is.
    Import {
        token: Token,
        progress: bool,
    },
    /// The whole archive as a GEDCOM file, on the output.
    Export,
    /// What may be shown of the archive on a day as a GEDCOM file, on the output.
    ExportPublic {
        today: i32,
    },
    /// The whole archive without tags of our own as a GEDCOM file, on the output; what is left out, on the faults.
    ExportPlain,
    /// The same of what may be shown of the archive on a day.
    ExportPublicPlain {
        today: i32,
    },
    /// A sheet of what may be shown of the archive on a day, on the output.
    Sheet {
        sheet: Sheet,
        today: i32,
    },
    /// What may be shown of the archive on a day, and the name of its society, as a reading room has it.
    Library {
        today: i32,
    },
    /// Whether the archive is sound, and how many records it has, on the output.
    Audit,
    /// The events and register entries whose date may mean a day from the first to the last, on the output: their
    /// numbers, and with `words` what each is.
    Days {
        first: i32,
        last: i32,
        words: bool,
    },
    /// What is listed, of a source if one is given, as lines or as rows of CSV, on the output.
    List {
        source: Option<NumberWord>,
        listing: Listed,
    },
    /// The records of these numbers, each whole, on the output.
    Show {
        numbers: Vec<NumberWord>,
    },
    /// What a number was before each request that overwrote it, and what it is now, on the output; then rows that put
    /// the last value back.
    History {
        number: u32,
    },
}
