//! Register entries: a batch or a table under a token, or a table that is only looked over.

ghost use Rattle.std.specs.Prelude.{◌≡◌, IfOk, MatchResult, Some, ⊤, codes, option_map, true};
ghost use Rattle.clap.specs.Words.{found_of, rows_of};
ghost use Rattle.command_line.specs.Asking.{
  AsksForWork,
  HasForm,
  HasWords,
  IsMeant,
  is_fit,
  is_form_fit,
  is_meant,
  name_of,
};
ghost use Rattle.command_line.specs.Meanings.{order_named};
ghost use Rattle.command_line.specs.declared.tasks.Refused.TheVariants.{OutOfMemory};

use crate::choosing::{set_given, source_of};
use crate::refusing::{no_table, no_table_token, no_token, no_value};
use crate::tasks::{Asked, OrderName, Refused, TableWords};
use crate::words::{given_word, is_yes, order_named, word_of};
use clap::ArgMatches;
use std::alloc::Global;

/// `entries`: a batch under a token, with `--table` a table under a token, or with `--check` too a table that is looked
/// over. Refused where the word of the source gives no number; where a batch has no token or a word of tables; and
/// where a table that is not checked has no token, or its character set or the order of its dates is none.
pub(crate) fn entries_asked<'a>(alloc: Global, given: &ArgMatches<'a>) -> Result<Asked<'a>, Refused>
    ensures asked { IfOk result (λ a. name_of a ≡ Some (codes "entries")) }
    ensures words { IfOk result (HasWords (Some (codes "entries", rows_of (found_of given.now)))) }
    ensures taken { is_fit (Some (codes "entries", rows_of (found_of given.now))) ≡ true → AsksForWork result }
{
    let is_checked = is_yes(word_of(given, "check"));
    let is_making = is_yes(word_of(given, "make-places"));
    let dates = given_word(given, "dates");
    let from = given_word(given, "from");
    let token = given_word(given, "token");
    let file = word_of(given, "FILE");
    let source = source_of(alloc, word_of(given, "source"))?;
    if is_yes(word_of(given, "table")) {
        let form = form_given(alloc, given)?;
        if is_checked {
            return Ok(Asked::CheckTable { file, source, form });
        }
        let Some(token) = token else {
            return Err(no_table_token(alloc));
        };
        return Ok(Asked::EnterTable {
            file,
            source,
            form,
            token,
        });
    }
    if is_checked {
        return Err(no_table(alloc, "--check"));
    }
    if is_making {
        return Err(no_table(alloc, "--make-places"));
    }
    match (token, dates, from) {
        (Some(token), None, None) => Ok(Asked::Entries {
            file,
            source,
            token,
        }),
        (_, Some(_), _) => Err(no_table(alloc, "--dates <ORDER>")),
        (_, None, Some(_)) => Err(no_table(alloc, "--from <SET>")),
        (None, None, None) => Err(no_token(alloc)),
    }
}

/// How a table is read, by three options. Refused where the word of one of them has no meaning.
fn form_given<'a>(alloc: Global, given: &ArgMatches<'a>) -> Result<TableWords, Refused>
    ensures form { IfOk result (HasForm (Some (codes "entries", rows_of (found_of given.now)))) }
    ensures taken { is_form_fit (Some (codes "entries", rows_of (found_of given.now))) ≡ true
        → MatchResult result (λ _. ⊤) (λ refused. refused ≡ OutOfMemory) }
{
    let order = order_given(alloc, given_word(given, "dates"))?;
    let set = set_given(alloc, given_word(given, "from"))?;
    let makes = is_yes(word_of(given, "make-places"));
    Ok(TableWords { set, order, makes })
}

/// The order of dates of an option. Refused where its word is none.
fn order_given(alloc: Global, word: Option<&str>) -> Result<Option<OrderName>, Refused>
    ensures order { IfOk result (IsMeant order_named (option_map (λ w. w.now) word.entry)) }
    ensures taken { is_meant order_named (option_map (λ w. w.now) word.entry) ≡ true
        → MatchResult result (λ _. ⊤) (λ refused. refused ≡ OutOfMemory) }
{
    let Some(word) = word else {
        return Ok(None);
    };
    match order_named(word) {
        Some(order) => Ok(Some(order)),
        None => Err(no_value(alloc, word, "--dates <ORDER>", "dmy, mdy")),
    }
}
