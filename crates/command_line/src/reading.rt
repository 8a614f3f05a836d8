//! What a command line asks for.

ghost use Rattle.std.specs.Prelude.{
  ◌≡◌,
  ◌⊎◌,
  Err,
  IfOk,
  IfSome,
  IsSome,
  None,
  OnOk,
  Some,
  codes,
  map,
  string_bytes,
  true,
};
ghost use Rattle.clap.specs.Words.{found_of, kind_of, rows_of, subcommand_name_of, subcommand_rows_of};
ghost use Rattle.command_line.specs.Asking.{
  AsksForHelp,
  AsksForWork,
  Asks,
  HasWords,
  IsTaken,
  is_fit,
  is_of_program,
  name_of,
};

use crate::choosing::{completions_asked, convert_asked, find_asked, list_asked, show_asked};
use crate::entering::entries_asked;
use crate::showing::{days_asked, export_asked, serve_asked, sheet_asked};
use crate::subcommands::parish_command;
use crate::tasks::{Asked, Refused};
use crate::words::{given_word, is_yes, number_of, word_of};
use clap::error::ErrorKind;
use clap::{ArgMatches, Error};
use std::alloc::Global;

/// What the words ask for. The first word is the program's own name, and is not looked at.
///
/// `Words` comes where they are no command or one with words that it does not take, and `OutOfMemory` where
/// memory is refused. A text is to be shown only where they ask for help or for the version.
pub fn read_words<'a>(alloc: Global, words: &'a [String]) -> Result<Asked<'a>, Refused>
    ensures asked { IfOk result (Asks (map string_bytes words.now)) }
    ensures taken { IsTaken (map string_bytes words.now) → AsksForWork result }
    ensures shown { IfOk result (λ a. name_of a ≡ None → AsksForHelp (map string_bytes words.now)) }
{
    let command = parish_command(alloc)?;
    match command.try_get_matches_from(words) {
        Ok(found) => command_found(alloc, &found),
        Err(error) => text_shown(alloc, &error),
    }
}

/// The command that was found, by its name. `clap` lets no other name through.
fn command_found<'a>(alloc: Global, found: &ArgMatches<'a>) -> Result<Asked<'a>, Refused>
    ensures asked { IfOk result (λ a. IfSome (name_of a)
        (λ name. subcommand_name_of found.now ≡ Some name)) }
    ensures named { IfOk result (λ a. IsSome (name_of a)) }
    ensures words { IfOk result (HasWords (subcommand_rows_of found.now)) }
    ensures taken { is_of_program (subcommand_rows_of found.now) ≡ true → is_fit (subcommand_rows_of found.now) ≡ true
        → AsksForWork result }
{
    match found.subcommand() {
        Some((name, given)) => command_named(alloc, name, given),
        None => no_such_command(alloc),
    }
}

/// The command of a name, with the words that it was given.
fn command_named<'a>(
    alloc: Global,
    name: &str,
    given: &ArgMatches<'a>,
) -> Result<Asked<'a>, Refused>
    ensures asked { IfOk result (λ a. IfSome (name_of a) (λ n. name.now ≡ n)) }
    ensures named { IfOk result (λ a. IsSome (name_of a)) }
    ensures words { IfOk result (HasWords (Some (name.now, rows_of (found_of given.now)))) }
    ensures taken { is_of_program (Some (name.now, rows_of (found_of given.now))) ≡ true
        → is_fit (Some (name.now, rows_of (found_of given.now))) ≡ true → AsksForWork result }
{
    match name {
        "norm" => Ok(Asked::Norm),
        "check" => Ok(check_asked(given)),
        "convert" => convert_asked(alloc, given),
        "init" => Ok(Asked::Init {
            file: word_of(given, "FILE"),
            society: word_of(given, "society"),
        }),
        "apply" => Ok(Asked::Apply {
            file: word_of(given, "FILE"),
            stops: is_yes(word_of(given, "stop")),
            answers: given_word(given, "expect"),
        }),
        "entries" => entries_asked(alloc, given),
        "import" => Ok(Asked::Import {
            file: word_of(given, "FILE"),
            token: word_of(given, "token"),
            progress: is_yes(word_of(given, "progress")),
            report: given_word(given, "report"),
        }),
        "export" => export_asked(alloc, given),
        "sheet" => sheet_asked(alloc, given),
        "serve" => serve_asked(alloc, given),
        "audit" => Ok(Asked::Audit {
            file: word_of(given, "FILE"),
        }),
        "days" => days_asked(alloc, given),
        "list" => list_asked(alloc, given),
        "review" => Ok(review_asked(given)),
        "find" => find_asked(alloc, given),
        "show" => show_asked(alloc, given),
        "history" => Ok(Asked::History {
            file: word_of(given, "FILE"),
            number: number_of(word_of(given, "NO")),
        }),
        "completions" => completions_asked(alloc, given),
        _ => no_such_command(alloc),
    }
}

/// `review`: what is doubtful.
fn review_asked<'a>(given: &ArgMatches<'a>) -> Asked<'a>
    ensures asked { name_of result ≡ Some (codes "review") }
    ensures words { HasWords (Some (codes "review", rows_of (found_of given.now))) result }
{
    Asked::Review {
        file: word_of(given, "FILE"),
        csv: is_yes(word_of(given, "csv")),
    }
}

/// `check`: the records counted, or with `--all` all that is at fault.
fn check_asked<'a>(given: &ArgMatches<'a>) -> Asked<'a>
    ensures asked { name_of result ≡ Some (codes "check") }
    ensures words { HasWords (Some (codes "check", rows_of (found_of given.now))) result }
{
    if is_yes(word_of(given, "all")) {
        Asked::CheckAll
    } else {
        Asked::Check
    }
}

fn no_such_command<'a>(alloc: Global) -> Result<Asked<'a>, Refused>
    ensures { OnOk result ⊥ }
{
    Err(Refused::Words {
        text: "error: no such command\n".to_string(alloc)?,
    })
}

/// The text of what `clap` calls an error: help, a version or refused words.
fn text_shown<'a>(alloc: Global, error: &Error) -> Result<Asked<'a>, Refused>
    ensures asked { IfOk result (λ a. (name_of a ≡ None) × ((found : _) → HasWords found a)) }
    ensures shown { OnOk result
        ((kind_of error.now ≡ ErrorKind.DisplayHelp) ⊎ (kind_of error.now ≡ ErrorKind.DisplayVersion)) }
    ensures memory { kind_of error.now ≡ ErrorKind.OutOfMemory → result ≡ Err Refused.OutOfMemory }
{
    if error.kind() == ErrorKind::OutOfMemory {
        return Err(Refused::OutOfMemory);
    }
    let text = format!(in alloc; "{error}")?;
    match error.kind() {
        ErrorKind::DisplayHelp | ErrorKind::DisplayVersion => Ok(Asked::Text { text }),
        _ => Err(Refused::Words { text }),
    }
}
