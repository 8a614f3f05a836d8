//! What a command of one row changes.

ghost use Rattle.std.specs.Prelude.{IfOk};
ghost use Rattle.archive_state.specs.Looks.{CountsFailures};
ghost use Rattle.archive_state.specs.Views.{On};
ghost use Rattle.command_checks.specs.Applied.{Plans};
ghost use Rattle.command_checks.specs.Exact.{IsExact};
ghost use Rattle.archive_steps.specs.Steps.{row_step};

use crate::entries::{link_mention, new_entry, unlink_mention};
use crate::events::{add_participant, amend_event, new_event};
use crate::families::{add_child, new_family};
use crate::persons::{add_name, new_person, set_sex};
use crate::places::new_place;
use crate::removal::remove_record;
use crate::sources::{new_citation, new_repo, new_source};
use archive_state::{Changes, View};
use commands::RowCommand;
use member_changes::{partner, unchild, unparticipant, unpartner};
use merging::decide_merge::merge;
use merging::decide_undo::undo;
use place_names::correct;
use record_text::RefusalKind;
use std::alloc::Global;

/// What a command of one row changes.
pub fn decide_row<V: View>(
    alloc: Global,
    view: &mut V,
    row: &RowCommand,
) -> Result<Changes, RefusalKind>
    ensures decides { On V.View view.old view.new (λ c. Plans c result (row_step c row.now)) }
    ensures exact { On V.View view.old view.new (λ c. IfOk result (IsExact c)) }
    ensures counts { CountsFailures (V.failed view.old) (V.failed view.new) result }
{
    match row {
        RowCommand::Person { name, sex } => new_person(alloc, view, name, *sex),
        RowCommand::Name { person, name } => add_name(alloc, view, *person, name),
        RowCommand::Sex { person, sex } => set_sex(alloc, view, *person, *sex),
        RowCommand::Family { husband, wife } => new_family(alloc, view, *husband, *wife),
        RowCommand::Child { family, person } => add_child(alloc, view, *family, *person),
        RowCommand::Event {
            owner,
            tag,
            value,
            date,
            place,
        } => new_event(alloc, view, *owner, tag, value, date, *place),
        RowCommand::Amend {
            event,
            value,
            date,
            place,
        } => amend_event(alloc, view, *event, value, date, *place),
        RowCommand::Participant {
            event,
            person,
            role,
        } => add_participant(alloc, view, *event, *person, role),
        RowCommand::Place { name, parent } => new_place(alloc, view, name, *parent),
        RowCommand::Repo { name } => new_repo(alloc, view, name),
        RowCommand::Source {
            title,
            author,
            publisher,
            repo,
            call_number,
        } => new_source(alloc, view, title, author, publisher, *repo, call_number),
        RowCommand::Citation {
            owner,
            source,
            page,
            quality,
        } => new_citation(alloc, view, *owner, *source, page, *quality),
        RowCommand::Entry { source, entry } => new_entry(alloc, view, *source, entry),
        RowCommand::Link {
            entry,
            mention,
            person,
            reason,
        } => link_mention(alloc, view, *entry, *mention, *person, reason),
        RowCommand::Unlink { entry, mention } => unlink_mention(alloc, view, *entry, *mention),
        RowCommand::Merge { keep, gone } => merge(alloc, view, *keep, *gone),
        RowCommand::Undo { slip } => undo(alloc, view, *slip),
        RowCommand::Remove { number } => remove_record(alloc, view, *number),
        RowCommand::Partner {
            family,
            partnership,
            person,
        } => partner(alloc, view, *family, *partnership, *person),
        RowCommand::Unpartner { family, person } => unpartner(alloc, view, *family, *person),
        RowCommand::Unchild { family, person } => unchild(alloc, view, *family, *person),
        RowCommand::Unparticipant { event, place } => unparticipant(alloc, view, *event, *place),
        RowCommand::Correct { number, given } => correct(alloc, view, *number, given),
    }
}
