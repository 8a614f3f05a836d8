//! The commands as `clap` gets them.

ghost use Rattle.std.specs.Prelude.{◌≡◌, IfOk, codes, false, fold, map};
ghost use Rattle.clap.specs.Words.{app_of, shape_of, with_rule, with_subcommand};
ghost use Rattle.clap.specs.declared.builder.command.Command.TheViews.{out-Command};
ghost use Rattle.command_line.specs.Commands.{bare, program};
ghost use Rattle.command_line.specs.Described.{rule_described, shape_described};

use crate::arguments::{
    AFTER, ALL, CHECKED, COUNT, CSV, EXPECT, FILE, FIRST_DAY, FOUND_LIMIT, GENERATIONS, HOST, HTML,
    LAST_DAY, LIMIT, MAKES, MAYBE_SOURCE, MAYBE_TODAY, MAYBE_TOKEN, OPTION_KIND, ORDER, PLAIN,
    PORT, PROGRESS, PUBLIC, RECORD, RECORD_KIND, RECORDS, REPORT, SEARCH, SET, SHEET_KIND, SHELL,
    SOCIETY, SOURCE, STOP, TABLE, TODAY, TOKEN, WORDS, Word, arg_of,
};
use crate::texts_finding::{
    COMPLETIONS_ABOUT, COMPLETIONS_EXAMPLE, FIND_ABOUT, FIND_EXAMPLE, HISTORY_ABOUT,
    HISTORY_EXAMPLE, LIST_ABOUT, LIST_EXAMPLE, REVIEW_ABOUT, REVIEW_EXAMPLE, SHOW_ABOUT,
    SHOW_EXAMPLE,
};
use crate::texts_in::{
    APPLY_ABOUT, APPLY_EXAMPLE, ENTRIES_ABOUT, ENTRIES_EXAMPLE, IMPORT_ABOUT, IMPORT_EXAMPLE,
    INIT_ABOUT, INIT_EXAMPLE,
};
use crate::texts_out::{
    AUDIT_ABOUT, AUDIT_EXAMPLE, CHECK_ABOUT, CHECK_EXAMPLE, CONVERT_ABOUT, CONVERT_EXAMPLE,
    DAYS_ABOUT, DAYS_EXAMPLE, EXPORT_ABOUT, EXPORT_EXAMPLE, NORM_ABOUT, NORM_EXAMPLE, SERVE_ABOUT,
    SERVE_EXAMPLE, SHEET_ABOUT, SHEET_EXAMPLE,
};
use clap::Command;
use std::alloc::{AllocError, Global};

/// The version that `--version` prints.
const VERSION: &str = "0.1.0";

const ABOUT: &str =
    "Keep the archive of a family history society, and read and write its GEDCOM 5.5.1 files";

const STREAMS: &str = "\
FILE is the archive; a log may lie beside it. The GEDCOM file or the rows of
requests come from standard input. Standard output gets the result. Standard
error gets a refusal, as one line: parish: <no.> <Name>, with `at line <n>`
after it if a line of a GEDCOM file is at fault, and `at row <n>` if a row of a
batch is; of `apply` also what is wrong with each refused row, and of
`audit` the record that breaks a rule.

Exit status:
  0  done
  1  a refusal
  2  the words were refused";

/// A command and the words that it takes.
pub(crate) struct CommandRow {
    pub(crate) name: &'static str,
    pub(crate) about: &'static str,
    pub(crate) example: &'static str,
    pub(crate) words: &'static [Word],
}

/// The commands, in the order of the help.
const COMMANDS: [CommandRow; 18] = [
    NORM,
    CHECK,
    CONVERT,
    INIT,
    APPLY,
    ENTRIES,
    IMPORT,
    EXPORT,
    SHEET,
    SERVE,
    AUDIT,
    DAYS,
    LIST,
    FIND,
    SHOW,
    HISTORY,
    REVIEW,
    COMPLETIONS,
];

const NORM: CommandRow = CommandRow {
    name: "norm",
    about: NORM_ABOUT,
    example: NORM_EXAMPLE,
    words: &[],
};

const CHECK: CommandRow = CommandRow {
    name: "check",
    about: CHECK_ABOUT,
    example: CHECK_EXAMPLE,
    words: &[ALL],
};

const CONVERT: CommandRow = CommandRow {
    name: "convert",
    about: CONVERT_ABOUT,
    example: CONVERT_EXAMPLE,
    words: &[SET],
};

const INIT: CommandRow = CommandRow {
    name: "init",
    about: INIT_ABOUT,
    example: INIT_EXAMPLE,
    words: &[FILE, SOCIETY],
};

const APPLY: CommandRow = CommandRow {
    name: "apply",
    about: APPLY_ABOUT,
    example: APPLY_EXAMPLE,
    words: &[FILE, STOP, EXPECT],
};

const ENTRIES: CommandRow = CommandRow {
    name: "entries",
    about: ENTRIES_ABOUT,
    example: ENTRIES_EXAMPLE,
    words: &[FILE, SOURCE, MAYBE_TOKEN, TABLE, CHECKED, MAKES, ORDER, SET],
};

const IMPORT: CommandRow = CommandRow {
    name: "import",
    about: IMPORT_ABOUT,
    example: IMPORT_EXAMPLE,
    words: &[FILE, TOKEN, PROGRESS, REPORT],
};

const EXPORT: CommandRow = CommandRow {
    name: "export",
    about: EXPORT_ABOUT,
    example: EXPORT_EXAMPLE,
    words: &[FILE, PUBLIC, MAYBE_TODAY, PLAIN],
};

const SHEET: CommandRow = CommandRow {
    name: "sheet",
    about: SHEET_ABOUT,
    example: SHEET_EXAMPLE,
    words: &[FILE, SHEET_KIND, RECORD, TODAY, GENERATIONS],
};

const SERVE: CommandRow = CommandRow {
    name: "serve",
    about: SERVE_ABOUT,
    example: SERVE_EXAMPLE,
    words: &[FILE, PORT, COUNT, TODAY, HTML, HOST],
};

const AUDIT: CommandRow = CommandRow {
    name: "audit",
    about: AUDIT_ABOUT,
    example: AUDIT_EXAMPLE,
    words: &[FILE],
};

const DAYS: CommandRow = CommandRow {
    name: "days",
    about: DAYS_ABOUT,
    example: DAYS_EXAMPLE,
    words: &[FILE, FIRST_DAY, LAST_DAY, WORDS],
};

const LIST: CommandRow = CommandRow {
    name: "list",
    about: LIST_ABOUT,
    example: LIST_EXAMPLE,
    words: &[FILE, RECORD_KIND, MAYBE_SOURCE, AFTER, LIMIT, CSV],
};

const FIND: CommandRow = CommandRow {
    name: "find",
    about: FIND_ABOUT,
    example: FIND_EXAMPLE,
    words: &[FILE, SEARCH, OPTION_KIND, FOUND_LIMIT, CSV],
};

const SHOW: CommandRow = CommandRow {
    name: "show",
    about: SHOW_ABOUT,
    example: SHOW_EXAMPLE,
    words: &[FILE, RECORDS],
};

const HISTORY: CommandRow = CommandRow {
    name: "history",
    about: HISTORY_ABOUT,
    example: HISTORY_EXAMPLE,
    words: &[FILE, RECORD],
};

const REVIEW: CommandRow = CommandRow {
    name: "review",
    about: REVIEW_ABOUT,
    example: REVIEW_EXAMPLE,
    words: &[FILE, CSV],
};

const COMPLETIONS: CommandRow = CommandRow {
    name: "completions",
    about: COMPLETIONS_ABOUT,
    example: COMPLETIONS_EXAMPLE,
    words: &[SHELL],
};

/// `parish` and its commands.
pub(crate) fn parish_command<'a>(alloc: Global) -> Result<Command<'a>, AllocError>
    ensures { IfOk result (λ c. app_of c ≡ program) }
{
    with_commands(alloc, bare_command(alloc)?, &COMMANDS)
}

/// `parish` without its commands.
fn bare_command<'a>(alloc: Global) -> Result<Command<'a>, AllocError>
    ensures { IfOk result (λ c. app_of c ≡ bare) }
{
    Ok(
        Command::new(alloc, "parish")
            .bin_name("parish")?
            .version(VERSION)
            .about(ABOUT)
            .after_help(STREAMS)
            .subcommand_required(true)
            .disable_help_subcommand(true),
    )
}

/// A command with these below it.
fn with_commands<'a>(
    alloc: Global,
    command: Command<'a>,
    rows: &[CommandRow],
) -> Result<Command<'a>, AllocError>
    ensures { IfOk result (λ c. app_of c ≡ fold with_subcommand (app_of command.entry) (map shape_described rows.now)) }
{
    let mut command = command;
    for row in rows {
        command = command.subcommand(command_of(alloc, row)?)?;
    }
    Ok(command)
}

/// A command of the table.
fn command_of<'a>(alloc: Global, row: &CommandRow) -> Result<Command<'a>, AllocError>
    ensures shape { IfOk result (λ c. shape_of c ≡ shape_described row.now) }
    ensures local { IfOk result (λ c. (out-Command c).has_globals ≡ false) }
{
    let command = Command::new(alloc, row.name)
        .about(row.about)
        .after_help(row.example);
    with_words(alloc, command, row.words)
}

/// A command that takes these words too.
fn with_words<'a>(
    alloc: Global,
    command: Command<'a>,
    words: &[Word],
) -> Result<Command<'a>, AllocError>
    ensures words { IfOk result (λ c. app_of c ≡ fold with_rule (app_of command.entry) (map rule_described words.now)) }
    ensures local { IfOk result (λ c. (out-Command c).has_globals ≡ (out-Command command.entry).has_globals) }
{
    let mut command = command;
    for word in words {
        command = command.arg(arg_of(alloc, word))?;
    }
    Ok(command)
}
