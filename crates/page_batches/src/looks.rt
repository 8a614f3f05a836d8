//! The places of a page, looked for in an archive.

ghost use Rattle.std.specs.Prelude.{◌≡◌, ◌++◌, ◌∷◌, [], OnOk, Some, map};
ghost use Rattle.archive_state.specs.Looks.{Agrees, CountsFailures, Looked, is_stop};
ghost use Rattle.archive_state.specs.Views.{On};
ghost use Rattle.commands.specs.Fields.{text_of};
ghost use Rattle.page_answers.specs.Answers.{made_first};
ghost use Rattle.page_batches.specs.Looks as looks;

use crate::places::Places;
use archive_state::View;
use command_checks::{Demand, check_demand};
use commands::Field;
use page_entries::{PageEntry, PagePlace};
use receipts::{Receipt, Token};
use record_text::{RefusalKind, Text};
use std::alloc::{AllocError, Global};

/// What an archive has for the places of a page, whose entries would be of a source; nothing where an answer is kept
/// under the token, and then no place is looked for. 50, 51: the number is of no
/// record, or of another than a source. All other refusals are those of the view: 1, 40 or 80.
pub fn places_on<V: View>(
    alloc: Global,
    view: &mut V,
    token: &Token,
    source: u32,
    entries: &[PageEntry],
) -> Result<Places, RefusalKind>
    ensures decides { On V.View view.old view.new
        (λ c. Agrees is_stop result (looks.looks_of c token.now source entries.now)) }
    ensures counts { CountsFailures (V.failed view.old) (V.failed view.new) result }
{
    if view.receipt(alloc, token)?.is_some() {
        return Ok(Places::new(Vec::new(alloc)));
    }
    check_demand(alloc, view, Demand::Source, source)?;
    places_of(alloc, view, entries)
}

/// The places of all entries.
fn places_of<V: View>(
    alloc: Global,
    view: &mut V,
    entries: &[PageEntry],
) -> Result<Places, RefusalKind>
    ensures shows { On V.View view.old view.new
        (λ c. Looked result (λ places. places ≡ map (looks.place_of c) entries.now)) }
    ensures counts { CountsFailures (V.failed view.old) (V.failed view.new) result }
{
    let mut found = Vec::new(alloc);
    'entries: for entry in entries {
        let place = maybe_number(alloc, view, &entry.place)?;
        push(&mut found, place)?;
    }
    Ok(Places::new(found))
}

/// Adds what was found after the others.
pub(crate) fn push(
    all: &mut Vec<Result<Option<u32>, RefusalKind>>,
    found: Result<Option<u32>, RefusalKind>,
) -> Result<(), AllocError>
    ensures { OnOk result (all.new.items ≡ all.old.items ++ found ∷ []) }
{
    all.push(found)?;
    Ok(())
}

/// The number of the place that an entry names, if it names one; or why there is none.
pub(crate) fn maybe_number<V: View>(
    alloc: Global,
    view: &mut V,
    place: &Option<PagePlace>,
) -> Result<Result<Option<u32>, RefusalKind>, RefusalKind>
    ensures shows { On V.View view.old view.new
        (λ c. Looked result (λ found. found ≡ looks.maybe_number c place.now)) }
    ensures counts { CountsFailures (V.failed view.old) (V.failed view.new) result }
{
    match place {
        Some(place) => number_of(alloc, view, place),
        None => Ok(Ok(None)),
    }
}

fn number_of<V: View>(
    alloc: Global,
    view: &mut V,
    place: &PagePlace,
) -> Result<Result<Option<u32>, RefusalKind>, RefusalKind>
    ensures shows { On V.View view.old view.new (λ c. Looked result (λ found. found ≡ looks.number_of c place.now)) }
    ensures counts { CountsFailures (V.failed view.old) (V.failed view.new) result }
{
    match place {
        PagePlace::Number(number) => Ok(Ok(Some(*number))),
        PagePlace::Token(token) => {
            let receipt = view.receipt(alloc, token)?;
            Ok(or_none(first_of(receipt)))
        }
        PagePlace::Path(path) => at_path(alloc, view, path),
    }
}

/// The first number that a request made. `None`: it made none.
fn first_of(receipt: Option<Receipt>) -> Option<u32>
    ensures { result ≡ made_first receipt }
{
    match receipt {
        Some(receipt) if receipt.answer.count > 0 => Some(receipt.answer.first),
        _ => None,
    }
}

fn or_none(number: Option<u32>) -> Result<Option<u32>, RefusalKind>
    ensures { result ≡ looks.or_none number }
{
    match number {
        Some(number) => Ok(Some(number)),
        None => Err(RefusalKind::NoSuch),
    }
}

/// The lowest place of a path.
pub(crate) fn at_path<V: View>(
    alloc: Global,
    view: &mut V,
    path: &Field,
) -> Result<Result<Option<u32>, RefusalKind>, RefusalKind>
    ensures shows { On V.View view.old view.new
        (λ c. Looked result (λ found. found ≡ looks.at_path c (text_of path.now))) }
    ensures counts { CountsFailures (V.failed view.old) (V.failed view.new) result }
{
    match path.text(alloc)? {
        Some(path) => at_text(alloc, view, &path),
        None => Ok(Err(RefusalKind::BadText)),
    }
}

fn at_text<V: View>(
    alloc: Global,
    view: &mut V,
    path: &Text,
) -> Result<Result<Option<u32>, RefusalKind>, RefusalKind>
    ensures shows { On V.View view.old view.new
        (λ c. Looked result (λ found. found ≡ looks.at_path c (Some path.now))) }
    ensures counts { CountsFailures (V.failed view.old) (V.failed view.new) result }
{
    let found = view.place_at(alloc, path)?;
    Ok(or_none(found))
}
