//! Carried lines of a place that would be that of its parent.

ghost use Rattle.std.specs.Prelude.{◌≡◌};
ghost use Rattle.std.specs.List.{list_any};
ghost use Rattle.archive_state.specs.Known.{known_before};
ghost use Rattle.archive_state.specs.Looks.{CountsFailures, Looked};
ghost use Rattle.archive_state.specs.Views.{On};
ghost use Rattle.place_names.specs.Naming as naming;

use archive_state::View;
use command_checks::check_path;
use field_rows::{is_below_within_limits, is_childless, is_text, number_of};
use record_kinds::Place;
use record_text::RefusalKind;
use std::alloc::Global;
use stored_lines::Carried;

/// Whether a carried line of the place of a number would be that of its parent.
pub(crate) fn takes_parent<V: View>(
    alloc: Global,
    view: &mut V,
    number: u32,
    place: &Place,
) -> Result<bool, RefusalKind>
    ensures shows { On V.View view.old view.new
        (λ c. Looked result (λ takes. takes ≡ naming.takes_parent (known_before c.records number).path place.now)) }
    ensures counts { CountsFailures (V.failed view.old) (V.failed view.new) result }
{
    match place.parent {
        Some(_) => Ok(false),
        None => has_parent(alloc, view, number, place.name.as_str(), &place.carried),
    }
}

/// Whether one of the lines names a place before a number that may be above one of that name.
fn has_parent<V: View>(
    alloc: Global,
    view: &mut V,
    number: u32,
    name: &str,
    lines: &[Carried],
) -> Result<bool, RefusalKind>
    ensures shows { On V.View view.old view.new (λ c. Looked result (λ has. has
        ≡ list_any (naming.is_parent (known_before c.records number).path name.now) lines.now)) }
    ensures counts { CountsFailures (V.failed view.old) (V.failed view.new) result }
{
    'lines: for line in lines {
        if is_parent(alloc, view, number, name, line)? {
            return Ok(true);
        }
    }
    Ok(false)
}

/// Whether the line does.
fn is_parent<V: View>(
    alloc: Global,
    view: &mut V,
    number: u32,
    name: &str,
    line: &Carried,
) -> Result<bool, RefusalKind>
    ensures shows { On V.View view.old view.new (λ c. Looked result (λ is. is
        ≡ naming.is_parent (known_before c.records number).path name.now line.now)) }
    ensures counts { CountsFailures (V.failed view.old) (V.failed view.new) result }
{
    if line.tag.as_str() != "_LOC" || !is_childless(line) || is_text(line) {
        return Ok(false);
    }
    let parent = number_of(line);
    if parent >= number {
        return Ok(false);
    }
    match check_path(alloc, view, name, Some(parent)) {
        Ok(()) => Ok(true),
        Err(RefusalKind::BadText) => Ok(false),
        Err(e) => Err(e),
    }
}

/// Whether a carried line would be that of the place's parent, if of all paths only that of a number is known.
pub(crate) fn takes_parent_of(number: u32, path: &str, place: &Place) -> bool
    ensures { result ≡ naming.takes_parent (naming.path_only number path.now) place.now }
{
    match place.parent {
        Some(_) => false,
        None => has_parent_of(number, path, place.name.as_str(), &place.carried),
    }
}

fn has_parent_of(number: u32, path: &str, name: &str, lines: &[Carried]) -> bool
    ensures { result ≡ list_any (naming.is_parent (naming.path_only number path.now) name.now) lines.now }
{
    lines
        .iter()
        .any(|line| is_parent_of(number, path, name, line))
}

fn is_parent_of(number: u32, path: &str, name: &str, line: &Carried) -> bool
    ensures { result ≡ naming.is_parent (naming.path_only number path.now) name.now line.now }
{
    line.tag.as_str() == "_LOC"
        && is_childless(line)
        && !is_text(line)
        && number_of(line) == number
        && is_below_within_limits(name, path)
}
