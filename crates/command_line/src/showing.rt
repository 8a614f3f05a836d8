//! The commands that are given a day: an export, a sheet, the reading room, and what may have happened in some days.

ghost use Rattle.std.specs.Prelude.{
  ◌≡◌,
  IfOk,
  MatchResult,
  Some,
  [],
  codes,
  option_map,
  string_bytes,
  true,
  unwrap_or,
  ⊤,
};
ghost use Rattle.clap.specs.Words.{first_of, found_of, rows_of};
ghost use Rattle.command_line.specs.Asking.{AsksForWork, HasPages, HasWords, are_pages_fit, is_fit, name_of};
ghost use Rattle.command_line.specs.declared.tasks.Refused.TheVariants.{OutOfMemory};
ghost use Rattle.command_line.specs.Days.{day_read};

use crate::days::day_of;
use crate::refusing::{bad_day, lacking, no_html, no_value};
use crate::tasks::{Asked, Refused, RoomPages};
use crate::words::{generations_of, given_word, is_yes, kind_named, number_of, port_of, word_of};
use clap::ArgMatches;
use std::alloc::{AllocError, Global};

/// `export`: the whole archive, or where `--public` is given what may be shown of it on a day; with `--plain` without
/// tags of our own. Refused where the day is none, or one is given and `--public` is not.
pub(crate) fn export_asked<'a>(alloc: Global, given: &ArgMatches<'a>) -> Result<Asked<'a>, Refused>
    ensures asked { IfOk result (λ a. name_of a ≡ Some (codes "export")) }
    ensures words { IfOk result (HasWords (Some (codes "export", rows_of (found_of given.now)))) }
    ensures taken { is_fit (Some (codes "export", rows_of (found_of given.now))) ≡ true → AsksForWork result }
{
    let file = word_of(given, "FILE");
    let day = given_word(given, "today");
    let plain = is_yes(word_of(given, "plain"));
    if !is_yes(word_of(given, "public")) {
        return match day {
            None if plain => Ok(Asked::ExportPlain { file }),
            None => Ok(Asked::Export { file }),
            Some(_) => Err(lacking(alloc, "--public")),
        };
    }
    match today_of(given) {
        Some(today) if plain => Ok(Asked::ExportPublicPlain { file, today }),
        Some(today) => Ok(Asked::ExportPublic { file, today }),
        None => Err(no_day(alloc, day)),
    }
}

/// `sheet`: a sheet of a record. Refused where its kind or its day is none.
pub(crate) fn sheet_asked<'a>(alloc: Global, given: &ArgMatches<'a>) -> Result<Asked<'a>, Refused>
    ensures asked { IfOk result (λ a. name_of a ≡ Some (codes "sheet")) }
    ensures words { IfOk result (HasWords (Some (codes "sheet", rows_of (found_of given.now)))) }
    ensures taken { is_fit (Some (codes "sheet", rows_of (found_of given.now))) ≡ true → AsksForWork result }
{
    let Some(kind) = kind_named(word_of(given, "KIND")) else {
        return Err(no_value(alloc, word_of(given, "KIND"), "<KIND>", KINDS));
    };
    match today_of(given) {
        Some(today) => Ok(Asked::Sheet {
            file: word_of(given, "FILE"),
            kind,
            number: number_of(word_of(given, "NO")),
            generations: generations_of(word_of(given, "generations")),
            today,
        }),
        None => Err(no_day(alloc, given_word(given, "today"))),
    }
}

/// `serve`: the reading room. Refused where its day is none, or where it is given a name and has no pages of HTML.
pub(crate) fn serve_asked<'a>(alloc: Global, given: &ArgMatches<'a>) -> Result<Asked<'a>, Refused>
    ensures asked { IfOk result (λ a. name_of a ≡ Some (codes "serve")) }
    ensures words { IfOk result (HasWords (Some (codes "serve", rows_of (found_of given.now)))) }
    ensures taken { is_fit (Some (codes "serve", rows_of (found_of given.now))) ≡ true → AsksForWork result }
{
    let Some(today) = today_of(given) else {
        return Err(no_day(alloc, given_word(given, "today")));
    };
    let pages = pages_asked(alloc, given)?;
    Ok(Asked::Serve {
        file: word_of(given, "FILE"),
        port: port_of(word_of(given, "port")),
        count: number_of(word_of(given, "count")),
        today,
        pages,
    })
}

/// The pages of the reading room. Refused where a name is given for a room of text.
fn pages_asked(alloc: Global, given: &ArgMatches<'_>) -> Result<RoomPages, Refused>
    ensures pages { IfOk result (HasPages (Some (codes "serve", rows_of (found_of given.now)))) }
    ensures taken { are_pages_fit (Some (codes "serve", rows_of (found_of given.now))) ≡ true
        → MatchResult result (λ _. ⊤) (λ refused. refused ≡ OutOfMemory) }
{
    let host = given_word(given, "host");
    if is_yes(word_of(given, "html")) {
        let host = name_copied(alloc, host)?;
        return Ok(RoomPages::Html(host));
    }
    match host {
        None => Ok(RoomPages::Plain),
        Some(_) => Err(no_html(alloc)),
    }
}

/// A name in memory of its own, where one is given.
fn name_copied(alloc: Global, name: Option<&str>) -> Result<Option<String>, AllocError>
    ensures { IfOk result (λ copy. option_map string_bytes copy ≡ option_map (λ w. w.now) name.entry) }
{
    match name {
        None => Ok(None),
        Some(word) => Ok(Some(String::from_str(alloc, word)?)),
    }
}

/// `days`: what may have happened in some days. Refused where the first or the last of them is no day.
pub(crate) fn days_asked<'a>(alloc: Global, given: &ArgMatches<'a>) -> Result<Asked<'a>, Refused>
    ensures asked { IfOk result (λ a. name_of a ≡ Some (codes "days")) }
    ensures words { IfOk result (HasWords (Some (codes "days", rows_of (found_of given.now)))) }
    ensures taken { is_fit (Some (codes "days", rows_of (found_of given.now))) ≡ true → AsksForWork result }
{
    let Some(first) = day_of(word_of(given, "from")) else {
        return Err(bad_day(alloc, word_of(given, "from"), "--from"));
    };
    match day_of(word_of(given, "to")) {
        Some(last) => Ok(Asked::Days {
            file: word_of(given, "FILE"),
            first,
            last,
            words: is_yes(word_of(given, "words")),
        }),
        None => Err(bad_day(alloc, word_of(given, "to"), "--to")),
    }
}

/// The day of `--today`. `None`: no day is read from its word, or it is not given.
fn today_of(given: &ArgMatches<'_>) -> Option<i32>
    ensures { result ≡ day_read (unwrap_or (first_of (codes "today") (rows_of (found_of given.now))) []) }
{
    day_of(word_of(given, "today"))
}

/// The words are refused since no day is read from that of `--today`, or there is none.
fn no_day(alloc: Global, word: Option<&str>) -> Refused {
    match word {
        Some(word) => bad_day(alloc, word, "--today"),
        None => lacking(alloc, "--today <YYYY-MM-DD>"),
    }
}

const KINDS: &str = "person, family, pedigree, register";
