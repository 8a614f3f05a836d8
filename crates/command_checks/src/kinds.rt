//! Looks whether the record of a number is of the kind that a command demands there.

ghost use Rattle.std.specs.Prelude.{◌≡◌};
ghost use Rattle.archive_state.specs.Links.{is_wanted};
ghost use Rattle.archive_state.specs.Looks.{Agrees, CountsFailures, is_stop};
ghost use Rattle.archive_state.specs.Views.{On};
ghost use Rattle.command_checks.specs.Checks as checks;
ghost use Rattle.command_checks.specs.declared.kinds.Demand.TheVariants as demand;

use archive_state::View;
use record_kinds::Record;
use record_text::RefusalKind;
use std::alloc::Global;

/// What a number of a command has to name.
#[derive(Clone, Copy)]
pub enum Demand {
    Place,
    Repo,
    Source,
    /// What a citation may be of: a person, a family or an event.
    Cited,
}

/// That a record of the kind that is demanded stands at the number.
pub fn check_demand<V: View>(
    alloc: Global,
    view: &mut V,
    demand: Demand,
    number: u32,
) -> Result<(), RefusalKind>
    ensures decides { On V.View view.old view.new (λ c. Agrees is_stop result (checks.demanded_at c demand number)) }
    ensures counts { CountsFailures (V.failed view.old) (V.failed view.new) result }
{
    demanded_in(demand, view.record_at(alloc, number)?)
}

/// The same, where a number is given.
pub fn check_optional<V: View>(
    alloc: Global,
    view: &mut V,
    demand: Demand,
    number: Option<u32>,
) -> Result<(), RefusalKind>
    ensures decides { On V.View view.old view.new
        (λ c. Agrees is_stop result (checks.passed (checks.each (checks.demanded_at c demand) number))) }
    ensures counts { CountsFailures (V.failed view.old) (V.failed view.new) result }
{
    let Some(number) = number else {
        return Ok(());
    };
    check_demand(alloc, view, demand, number)
}

fn demanded_in(demand: Demand, found: Option<Record>) -> Result<(), RefusalKind>
    ensures { result ≡ checks.demanded_in demand found }
{
    let Some(record) = found else {
        return Err(RefusalKind::NoSuch);
    };
    let is_one = is_demanded(demand, &record);
    drop(record);
    if is_one {
        Ok(())
    } else {
        Err(RefusalKind::WrongKind)
    }
}

fn is_demanded(demand: Demand, value: &Record) -> bool
    ensures { result ≡ is_wanted (checks.wanted_of demand) value.now }
{
    match (demand, value) {
        (Demand::Place, Record::Place(_)) => true,
        (Demand::Repo, Record::Repo(_)) => true,
        (Demand::Source, Record::Source(_)) => true,
        (Demand::Cited, Record::Person(_) | Record::Family(_) | Record::Event(_)) => true,
        _ => false,
    }
}
