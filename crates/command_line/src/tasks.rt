//! What a command line may ask for, and why it may ask for nothing.

use row_references::NumberWord;
use searching::SearchWords;
use std::alloc::AllocError;

/// What a command line asks for. Days are counted from 1970-01-01, day 0.
#[derive(Debug, Drop)]
pub enum Asked<'a> {
    /// `norm`: the forest of standard input, canonical, on standard output.
    Norm,
    /// `check`: the number of records of standard input's forest, on standard output.
    Check,
    /// `check --all`: the same; where the forest has faults, the faulty lines on standard output.
    CheckAll,
    /// `convert`: the GEDCOM file of standard input in UTF-8, on standard output. It is in the character set of
    /// `--from`, where one is given.
    Convert {
        from: Option<SetName>,
    },
    /// `init`: a new archive of a society in a file.
    Init {
        file: &'a str,
        society: &'a str,
    },
    /// `apply`: the requests of the rows of standard input on the archive in a file, their answers on standard output.
    /// With `stops` up to the first row that is refused; and before the first that would be answered otherwise than in
    /// the file of answers that are expected, where one is given.
    Apply {
        file: &'a str,
        stops: bool,
        answers: Option<&'a str>,
    },
    /// `entries`: the rows of standard input as new register entries of a source of the archive in a file, under a
    /// token. The token may be any word. The source, here and below, is given by its number, or by `@` and a token.
    Entries {
        file: &'a str,
        source: NumberWord,
        token: &'a str,
    },
    /// `entries --table`: the rows of the table of standard input as new register entries of a source of the archive in
    /// a file, under a token, which may be any word.
    EnterTable {
        file: &'a str,
        source: NumberWord,
        form: TableWords,
        token: &'a str,
    },
    /// `entries --table --check`: what is wrong or doubtful in the table of standard input, whose rows would be
    /// register entries of a source of the archive in a file, on standard output.
    CheckTable {
        file: &'a str,
        source: NumberWord,
        form: TableWords,
    },
    /// `import`: the file of standard input taken into the archive in a file, under a token, and its report on standard
    /// output. The token may be any word. With `progress` standard error says how far it is. A longer report goes into
    /// the file `report`, where one is given.
    Import {
        file: &'a str,
        token: &'a str,
        progress: bool,
        report: Option<&'a str>,
    },
    /// `export`: the whole archive in a file as a GEDCOM file, on standard output.
    Export {
        file: &'a str,
    },
    /// `export --public`: what may be shown of the archive in a file on a day, as a GEDCOM file, on standard output.
    ExportPublic {
        file: &'a str,
        today: i32,
    },
    /// `export --plain`: the whole archive without tags of our own, as a GEDCOM file, on standard output.
    ExportPlain {
        file: &'a str,
    },
    /// `export --plain --public`: what may be shown of the archive in a file on a day, without tags of our own, as a
    /// GEDCOM file, on standard output.
    ExportPublicPlain {
        file: &'a str,
        today: i32,
    },
    /// `sheet`: a sheet of the archive in a file as it may be shown on a day, on standard output. A pedigree has so
    /// many generations, 1 to 12; they are 4 where none were given.
    Sheet {
        file: &'a str,
        kind: SheetKind,
        number: u32,
        generations: u32,
        today: i32,
    },
    /// `serve`: what may be shown of the archive in a file on a day, to so many visitors at a port of this machine.
    Serve {
        file: &'a str,
        port: u16,
        count: u32,
        today: i32,
        pages: RoomPages,
    },
    /// `audit`: whether the archive in a file is sound.
    Audit {
        file: &'a str,
    },
    /// `days`: the events and register entries of the archive in a file whose date may mean a day from the first to the
    /// last, on standard output: their numbers, and with `words` what each is.
    Days {
        file: &'a str,
        first: i32,
        last: i32,
        words: bool,
    },
    /// `list`: the records of a kind, or the slips, of the archive in a file after a number, a line each, on standard
    /// output; the entries may be those of a source. There are so many at most; all where that was not given. With
    /// `csv` there are rows of CSV in place of lines, of `find` and `review` too.
    List {
        file: &'a str,
        kind: ListKind,
        source: Option<NumberWord>,
        after: u32,
        limit: Option<u32>,
        csv: bool,
    },
    /// `review`: what is doubtful in the archive in a file, a line each, on standard output.
    Review {
        file: &'a str,
        csv: bool,
    },
    /// `find`: the records, of a kind where one is given, of the archive in a file in one of whose names all words
    /// occur, a line each, on standard output. There are so many at most, 1,000 where that was not given.
    Find {
        file: &'a str,
        words: SearchWords,
        kind: Option<RecordKind>,
        limit: Option<u32>,
        csv: bool,
    },
    /// `show`: the records of these numbers of the archive in a file, each whole, on standard output.
    Show {
        file: &'a str,
        numbers: Vec<NumberWord>,
    },
    /// `history`: what the record of this number was before, as the archive in a file keeps it, and what it is now, on
    /// standard output; then rows that put the last value back.
    History {
        file: &'a str,
        number: u32,
    },
    /// `completions`: what a shell reads to complete words after `parish`, on standard output.
    Completions {
        text: &'a str,
    },
    /// `--help` or `--version`, of the program or of a command: the text for standard output.
    Text {
        text: String,
    },
}

/// The kinds of sheets.
#[derive(Clone, Copy, Debug, PartialEq, Eq)]
pub enum SheetKind {
    /// `person`.
    Person,
    /// `family`.
    Family,
    /// `pedigree`: the ancestors of a person.
    Pedigree,
    /// `register`: the entries of a source.
    Register,
}

/// What is listed.
#[derive(Clone, Copy, Debug)]
pub enum ListKind {
    /// Records of a kind.
    Records(RecordKind),
    /// `slips`: what is stored of merges.
    Slips,
}

/// The kinds of records.
#[derive(Clone, Copy, Debug)]
pub enum RecordKind {
    /// `persons`.
    Persons,
    /// `families`.
    Families,
    /// `events`.
    Events,
    /// `places`.
    Places,
    /// `repositories`.
    Repositories,
    /// `sources`.
    Sources,
    /// `citations`.
    Citations,
    /// `entries`: register entries.
    Entries,
    /// `others`.
    Others,
}

/// The pages of a reading room.
#[derive(Debug, Drop)]
pub enum RoomPages {
    /// Text.
    Plain,
    /// HTML. The room may be asked for by that name, beside those of this machine.
    Html(Option<String>),
}

/// The character sets that a file may be in.
#[derive(Clone, Copy, Debug)]
pub enum SetName {
    /// `utf-8`.
    Utf8,
    /// `utf-16le`: UTF-16 with the lower byte of each unit first.
    Utf16Le,
    /// `utf-16be`: UTF-16 with the higher byte of each unit first.
    Utf16Be,
    /// `1252`: the code page of Windows in western Europe and America.
    Windows1252,
    /// `437`: the first code page of DOS.
    CodePage437,
    /// `850`: the code page of DOS in western Europe.
    CodePage850,
    /// `macintosh`: MacRoman.
    Macintosh,
    /// `ansel`.
    Ansel,
}

/// The orders of a date of three numbers.
#[derive(Clone, Copy, Debug)]
pub enum OrderName {
    /// `dmy`: day, month and year.
    DayFirst,
    /// `mdy`: month, day and year.
    MonthFirst,
}

/// How a table is read.
#[derive(Clone, Copy, Debug)]
pub struct TableWords {
    /// `--from`: the character set of its file, if one is given.
    pub set: Option<SetName>,
    /// `--dates`: the order of dates of three numbers, if one is given.
    pub order: Option<OrderName>,
    /// `--make-places`.
    pub makes: bool,
}

/// Why a command line asks for nothing.
#[derive(Debug, Drop)]
pub enum Refused {
    /// A growth was refused.
    OutOfMemory,
    /// The words were refused: the text for standard error, which says why and where help is.
    Words { text: String },
}

impl From<AllocError> for Refused {
    ghost use Rattle.std.specs.Prelude.{◌≡◌};
    ghost use Rattle.command_line.specs.declared.tasks.Refused.TheVariants.{OutOfMemory};

    ghost from_gives = { λ _ r. r ≡ OutOfMemory };

    fn from(_error: AllocError) -> Refused {
        Refused::OutOfMemory
    }
}
