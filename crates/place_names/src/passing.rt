//! Paths that a place, and the places within it, may have.

ghost use Rattle.std.specs.Prelude.{◌≡◌, option_map};
ghost use Rattle.std.specs.List.{list_all, list_any};
ghost use Rattle.archive_state.specs.Looks.{CountsFailures, Looked};
ghost use Rattle.archive_state.specs.Referrers.{referrers};
ghost use Rattle.archive_state.specs.Views.{On};
ghost use Rattle.place_names.specs.Naming as naming;

use crate::within::{is_number, place_within};
use archive_state::View;
use field_rows::{has_part, is_within_limits, path_below};
use record_kinds::{EventPlace, Record};
use record_text::RefusalKind;
use std::alloc::Global;

/// Whether the place of a number may have this path, and those within it the paths that come of it; none goes on for
/// as many steps.
#[cycle(may)]
pub(crate) fn all_may<V: View>(
    alloc: Global,
    view: &mut V,
    number: u32,
    path: &str,
    steps: u32,
) -> Result<bool, RefusalKind>
    ensures shows { On V.View view.old view.new
        (λ c. Looked result (λ may. may ≡ naming.all_may steps c number path.now)) }
    ensures counts { CountsFailures (V.failed view.old) (V.failed view.new) result }
{
    if steps == 0 {
        return Ok(false);
    }
    if !may_have(alloc, view, number, path)? {
        return Ok(false);
    }
    let numbers = view.referrers(alloc, number)?;
    may_within(alloc, view, number, path, steps - 1, &numbers)
}

/// The same of the places within it that have one of these numbers.
#[cycle(may)]
fn may_within<V: View>(
    alloc: Global,
    view: &mut V,
    number: u32,
    path: &str,
    steps: u32,
    numbers: &[u32],
) -> Result<bool, RefusalKind>
    ensures shows { On V.View view.old view.new (λ c. Looked result (λ may. may
        ≡ list_all (naming.may_at steps c number path.now) numbers.now)) }
    ensures counts { CountsFailures (V.failed view.old) (V.failed view.new) result }
{
    'numbers: for k in numbers {
        if !may_at(alloc, view, number, path, steps, *k)? {
            return Ok(false);
        }
    }
    Ok(true)
}

/// The same of one number.
#[cycle(may)]
fn may_at<V: View>(
    alloc: Global,
    view: &mut V,
    number: u32,
    path: &str,
    steps: u32,
    k: u32,
) -> Result<bool, RefusalKind>
    ensures shows { On V.View view.old view.new
        (λ c. Looked result (λ may. may ≡ naming.may_at steps c number path.now k)) }
    ensures counts { CountsFailures (V.failed view.old) (V.failed view.new) result }
{
    match place_within(number, k, view.record_at(alloc, k)?) {
        None => Ok(true),
        Some(place) => {
            let below = path_below(alloc, place.name.as_str(), path)?;
            all_may(alloc, view, k, below.as_str(), steps)
        }
    }
}

/// Whether the place of a number may have this path.
fn may_have<V: View>(
    alloc: Global,
    view: &mut V,
    number: u32,
    path: &str,
) -> Result<bool, RefusalKind>
    ensures shows { On V.View view.old view.new
        (λ c. Looked result (λ may. may ≡ naming.may_have c number path.now)) }
    ensures counts { CountsFailures (V.failed view.old) (V.failed view.new) result }
{
    if !is_within_limits(path) {
        return Ok(false);
    }
    if has_part(path) {
        return Ok(true);
    }
    Ok(!is_place_of_any(alloc, view, number)?)
}

/// Whether an event or an entry has the place of a number.
fn is_place_of_any<V: View>(alloc: Global, view: &mut V, number: u32) -> Result<bool, RefusalKind>
    ensures shows { On V.View view.old view.new
        (λ c. Looked result (λ is. is ≡ list_any (naming.is_at c number) (referrers c number))) }
    ensures counts { CountsFailures (V.failed view.old) (V.failed view.new) result }
{
    let numbers = view.referrers(alloc, number)?;
    is_place_of_one(alloc, view, number, &numbers)
}

/// Whether an event or an entry of these numbers has it.
fn is_place_of_one<V: View>(
    alloc: Global,
    view: &mut V,
    number: u32,
    numbers: &[u32],
) -> Result<bool, RefusalKind>
    ensures shows { On V.View view.old view.new
        (λ c. Looked result (λ is. is ≡ list_any (naming.is_at c number) numbers.now)) }
    ensures counts { CountsFailures (V.failed view.old) (V.failed view.new) result }
{
    'numbers: for k in numbers {
        if is_at(alloc, view, number, *k)? {
            return Ok(true);
        }
    }
    Ok(false)
}

/// Whether an event or an entry of that place stands at number `k`.
fn is_at<V: View>(alloc: Global, view: &mut V, number: u32, k: u32) -> Result<bool, RefusalKind>
    ensures shows { On V.View view.old view.new (λ c. Looked result (λ is. is ≡ naming.is_at c number k)) }
    ensures counts { CountsFailures (V.failed view.old) (V.failed view.new) result }
{
    Ok(is_of(number, view.record_at(alloc, k)?))
}

/// Whether the record is an event or an entry of the place of a number.
fn is_of(number: u32, found: Option<Record>) -> bool
    ensures { result ≡ naming.is_of number found }
{
    match found {
        Some(Record::Event(event)) => is_number(number, number_of(&event.place)),
        Some(Record::Entry(entry)) => is_number(number, entry.place),
        _ => false,
    }
}

fn number_of(place: &Option<EventPlace>) -> Option<u32>
    ensures { result ≡ option_map (λ p. p.place) place.now }
{
    match place {
        Some(at) => Some(at.place),
        None => None,
    }
}
