//! One field of a record put right.

ghost use Rattle.std.specs.Prelude.{IfOk};
ghost use Rattle.archive_state.specs.Looks.{Agrees, CountsFailures, is_stop};
ghost use Rattle.archive_state.specs.Views.{On};
ghost use Rattle.command_checks.specs.Applied.{Plans};
ghost use Rattle.command_checks.specs.Exact.{IsExact};
ghost use Rattle.place_names.specs.Steps as steps;

use crate::parents::takes_parent;
use crate::passing::all_may;
use crate::paths::path_at;
use crate::reading::any_reads;
use archive_state::{Changes, View};
use command_checks::check_path;
use commands::GivenCorrection;
use field_changes::{changed_record, correct_tag, put_changed};
use field_rows::path_below;
use record_changes::kept_if;
use record_kinds::{Place, Record};
use record_text::RefusalKind;
use std::alloc::Global;

/// A path has at most 32 parts.
const MOST_STEPS: u32 = 32;

/// A field of the record of a number gets another value. Refused, in this order: words that are no text (58); a number
/// that names nothing or another kind of record (50, 51); a field that the record has not (64); what the field forbids,
/// and of a place's name also what paths forbid (58); lines that would be read otherwise afterwards (66); a tag or role
/// that is not of the kind (62); the key of another entry (60).
pub fn correct<V: View>(
    alloc: Global,
    view: &mut V,
    number: u32,
    given: &GivenCorrection,
) -> Result<Changes, RefusalKind>
    ensures decides { On V.View view.old view.new (λ c. Plans c result (steps.correct c number given.now)) }
    ensures exact { On V.View view.old view.new (λ c. IfOk result (IsExact c)) }
    ensures counts { CountsFailures (V.failed view.old) (V.failed view.new) result }
{
    let after = corrected_record(alloc, view, number, given)?;
    let check = check_paths(alloc, view, number, &after);
    let after = kept_if(after, check)?;
    put_changed(alloc, view, number, after)
}

fn corrected_record<V: View>(
    alloc: Global,
    view: &mut V,
    number: u32,
    given: &GivenCorrection,
) -> Result<Record, RefusalKind>
    ensures decides { On V.View view.old view.new
        (λ c. Agrees is_stop result (steps.corrected_record c number given.now)) }
    ensures counts { CountsFailures (V.failed view.old) (V.failed view.new) result }
{
    match given {
        GivenCorrection::Tag(words) => correct_tag(alloc, view, number, words),
        GivenCorrection::Value(value) => changed_record(alloc, view, number, value),
    }
}

/// That the record, if it is a place, may have its name, with the paths that it gives (58, 66).
fn check_paths<V: View>(
    alloc: Global,
    view: &mut V,
    number: u32,
    after: &Record,
) -> Result<(), RefusalKind>
    ensures decides { On V.View view.old view.new
        (λ c. Agrees is_stop result (steps.paths_pass c number after.now)) }
    ensures counts { CountsFailures (V.failed view.old) (V.failed view.new) result }
{
    match after {
        Record::Place(place) => check_name(alloc, view, number, place),
        _ => Ok(()),
    }
}

fn check_name<V: View>(
    alloc: Global,
    view: &mut V,
    number: u32,
    place: &Place,
) -> Result<(), RefusalKind>
    ensures decides { On V.View view.old view.new
        (λ c. Agrees is_stop result (steps.name_passes c number place.now)) }
    ensures counts { CountsFailures (V.failed view.old) (V.failed view.new) result }
{
    check_path(alloc, view, place.name.as_str(), place.parent)?;
    match place.parent {
        None => check_path_of(alloc, view, number, place, place.name.as_str()),
        Some(parent) => match path_at(alloc, view, parent)? {
            None => Err(RefusalKind::BadText),
            Some(above) => {
                let path = path_below(alloc, place.name.as_str(), above.as_str())?;
                check_path_of(alloc, view, number, place, path.as_str())
            }
        },
    }
}

/// That the place may have this path, which is within the limits.
fn check_path_of<V: View>(
    alloc: Global,
    view: &mut V,
    number: u32,
    place: &Place,
    path: &str,
) -> Result<(), RefusalKind>
    ensures decides { On V.View view.old view.new
        (λ c. Agrees is_stop result (steps.with_path_passes c number place.now path.now)) }
    ensures counts { CountsFailures (V.failed view.old) (V.failed view.new) result }
{
    if !all_may(alloc, view, number, path, MOST_STEPS)? {
        return Err(RefusalKind::BadText);
    }
    if takes_parent(alloc, view, number, place)? {
        return Err(RefusalKind::StillCarried);
    }
    if any_reads(alloc, view, number, path, MOST_STEPS)? {
        return Err(RefusalKind::StillCarried);
    }
    Ok(())
}
