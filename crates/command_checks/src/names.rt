//! The name of a new place, and its path.

ghost use Rattle.std.specs.Prelude.{◌≡◌, IfErr, false};
ghost use Rattle.archive_state.specs.Looks.{Agrees, CountsFailures, is_failure, is_stop};
ghost use Rattle.archive_state.specs.Views.{On};
ghost use Rattle.command_checks.specs.Checks as checks;

use crate::looks::text_in;
use crate::normal::is_normal;
use crate::paths::is_path_fit;
use archive_state::View;
use commands::Field;
use record_text::{RefusalKind, Text};
use std::alloc::Global;

/// The name of a place that a field is: a text that is not empty, and normal (else `BadText`).
pub fn place_name_in(alloc: Global, field: &Field) -> Result<Text, RefusalKind>
    ensures decides { Agrees is_stop result (checks.place_name_in field.now) }
    ensures memory { IfErr result (λ e. is_failure e ≡ false) }
{
    place_name(text_in(alloc, field)?)
}

#[tactic(auto, using(crate::proofs::PlaceNames::no_name, crate::proofs::PlaceNames::is_name, crate::proofs::PlaceNames::is_not_normal))]
fn place_name(text: Text) -> Result<Text, RefusalKind>
    ensures { result ≡ checks.place_name text }
{
    if text.as_str().is_empty() {
        return Err(RefusalKind::BadText);
    }
    if is_normal(text.as_str()) {
        Ok(text)
    } else {
        Err(RefusalKind::BadText)
    }
}

/// That the path of a new place of that name, within another one or none, is within the limits (else `BadText`).
pub fn check_path<V: View>(
    alloc: Global,
    view: &mut V,
    name: &str,
    parent: Option<u32>,
) -> Result<(), RefusalKind>
    ensures decides { On V.View view.old view.new (λ c. Agrees is_stop result (checks.path_fits c name.now parent)) }
    ensures counts { CountsFailures (V.failed view.old) (V.failed view.new) result }
{
    if is_path_fit(alloc, view, name, parent)? {
        Ok(())
    } else {
        Err(RefusalKind::BadText)
    }
}
