//! The sides of a whole file.

ghost use Rattle.std.specs.Prelude.{◌≡◌, ◌++◌, IfOk, OnOk};
ghost use Rattle.std.specs.List.{flat_map};
ghost use Rattle.file_records.specs.Members.{doubled_in};
ghost use Rattle.file_records.specs.Taken as taken;

use crate::members::members_of_all;
use crate::sides::{Side, sides_of_all};
use import_definitions::Roots;
use receipts::ReportLine;
use std::alloc::{AllocError, Global};

/// The sides of all persons, in the order of the file. Reported are the lines of families that name a person again,
/// and then the lines of persons that do not count.
#[tactic(auto, unfolding(crate::specs::Taken::sides, crate::specs::Taken::said_of_sides))]
pub fn sides_of(
    alloc: Global,
    roots: &Roots<'_>,
    report: &mut Vec<ReportLine>,
) -> Result<Vec<Side>, AllocError>
    ensures sides { IfOk result (λ all. all.items ≡ taken.sides roots.now) }
    ensures report { OnOk result (report.new.items ≡ report.old.items
        ++ (flat_map (doubled_in roots.now) roots.now ++ taken.said_of_sides roots.now)) }
{
    let members = members_of_all(alloc, roots, report)?;
    sides_of_all(alloc, roots, &members, report)
}
