//! Records that would be read otherwise, if a place has another path.

ghost use Rattle.std.specs.Prelude.{◌≡◌};
ghost use Rattle.std.specs.FinMap as map;
ghost use Rattle.std.specs.List.{list_any};
ghost use Rattle.archive_state.specs.Looks.{CountsFailures, Looked};
ghost use Rattle.archive_state.specs.Views.{On};
ghost use Rattle.place_names.specs.Naming as naming;

use crate::entries::is_entry;
use crate::parents::takes_parent_of;
use crate::within::place_within;
use archive_state::View;
use field_rows::path_below;
use record_kinds::Record;
use record_text::RefusalKind;
use std::alloc::Global;

/// Whether a record that names the place of a number, or one within it, would be read otherwise, if it has this path.
#[cycle(reads)]
pub(crate) fn any_reads<V: View>(
    alloc: Global,
    view: &mut V,
    number: u32,
    path: &str,
    steps: u32,
) -> Result<bool, RefusalKind>
    ensures shows { On V.View view.old view.new
        (λ c. Looked result (λ is. is ≡ naming.any_reads steps c number path.now)) }
    ensures counts { CountsFailures (V.failed view.old) (V.failed view.new) result }
{
    if steps == 0 {
        return Ok(false);
    }
    let numbers = view.referrers(alloc, number)?;
    one_reads(alloc, view, number, path, steps - 1, &numbers)
}

/// The same of the records of these numbers, and of the places within those of them that are within it.
#[cycle(reads)]
fn one_reads<V: View>(
    alloc: Global,
    view: &mut V,
    number: u32,
    path: &str,
    steps: u32,
    numbers: &[u32],
) -> Result<bool, RefusalKind>
    ensures shows { On V.View view.old view.new (λ c. Looked result (λ is. is
        ≡ list_any (naming.reads_at steps c number path.now) numbers.now)) }
    ensures counts { CountsFailures (V.failed view.old) (V.failed view.new) result }
{
    'numbers: for k in numbers {
        if reads_at(alloc, view, number, path, steps, *k)? {
            return Ok(true);
        }
    }
    Ok(false)
}

/// The same of one number.
#[cycle(reads)]
fn reads_at<V: View>(
    alloc: Global,
    view: &mut V,
    number: u32,
    path: &str,
    steps: u32,
    k: u32,
) -> Result<bool, RefusalKind>
    ensures shows { On V.View view.old view.new
        (λ c. Looked result (λ is. is ≡ naming.reads_at steps c number path.now k)) }
    ensures counts { CountsFailures (V.failed view.old) (V.failed view.new) result }
{
    if reads_anew(alloc, view, number, path, k)? {
        return Ok(true);
    }
    match place_within(number, k, view.record_at(alloc, k)?) {
        None => Ok(false),
        Some(place) => {
            let below = path_below(alloc, place.name.as_str(), path)?;
            any_reads(alloc, view, k, below.as_str(), steps)
        }
    }
}

/// Whether the record of number `k` would be read otherwise.
fn reads_anew<V: View>(
    alloc: Global,
    view: &mut V,
    number: u32,
    path: &str,
    k: u32,
) -> Result<bool, RefusalKind>
    ensures shows { On V.View view.old view.new (λ c. Looked result (λ is. is
        ≡ naming.reads_anew c number path.now k (map.get c.records k))) }
    ensures counts { CountsFailures (V.failed view.old) (V.failed view.new) result }
{
    match view.record_at(alloc, k)? {
        Some(Record::Place(place)) => Ok(number < k && takes_parent_of(number, path, &place)),
        Some(Record::Other(other)) => is_entry(alloc, view, number, path, &other),
        _ => Ok(false),
    }
}
