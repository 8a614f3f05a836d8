//! The command that makes a place.

ghost use Rattle.std.specs.Prelude.{◌≡◌, IfOk};
ghost use Rattle.archive_state.specs.Looks.{CountsFailures};
ghost use Rattle.archive_state.specs.Views.{On};
ghost use Rattle.command_checks.specs.Applied.{Plans};
ghost use Rattle.command_checks.specs.Exact.{IsExact};
ghost use Rattle.archive_steps.specs.Steps as steps;

use crate::making::{creates, kept_if};
use archive_state::{Changes, View};
use command_checks::{Demand, check_optional, check_path, place_name_in};
use commands::Field;
use record_kinds::{Place, Record};
use record_text::{RefusalKind, Text};
use std::alloc::Global;

/// A new place, within another one or none.
pub(crate) fn new_place<V: View>(
    alloc: Global,
    view: &mut V,
    name: &Field,
    parent: Option<u32>,
) -> Result<Changes, RefusalKind>
    ensures decides { On V.View view.old view.new (λ c. Plans c result (steps.new_place c name.now parent)) }
    ensures exact { On V.View view.old view.new (λ c. IfOk result (IsExact c)) }
    ensures counts { CountsFailures (V.failed view.old) (V.failed view.new) result }
{
    let name = place_name_in(alloc, name)?;
    let name = kept_if(name, check_optional(alloc, view, Demand::Place, parent))?;
    let is_fit = check_path(alloc, view, name.as_str(), parent);
    let name = kept_if(name, is_fit)?;
    creates(
        alloc,
        view,
        Record::Place(place_within(alloc, name, parent)),
    )
}

fn place_within(alloc: Global, name: Text, parent: Option<u32>) -> Place
    ensures { result ≡ steps.place_within name parent }
{
    Place {
        name,
        parent,
        carried: Vec::new(alloc),
    }
}
