//! What an event adds: who took part.

ghost use Rattle.std.specs.Prelude.{◌≡◌, ◌++◌, IfErr, IfOk, OnOk, map, option_copied, string_bytes};
ghost use Rattle.std.specs.List.{flat_map};
ghost use Rattle.record_kinds.specs.Model as model;
ghost use Rattle.plain_export.specs.Added as adding;
ghost use Rattle.plain_export.specs.Firsts.{persons_of};
ghost use Rattle.plain_export.specs.Fitting.{AddedFit, Fails, Fits, LinesFit};

use crate::added::{Added, add};
use crate::kept::kept_lines;
use crate::lines::{line, put_line, words_line};
use crate::one_line::words_in_line;
use crate::words::{event_words, relation_words, with_words};
use archive_state::State;
use record_kinds::{Event, Participant, Partner, Record};
use record_text::RefusalKind;
use sheet_lines::display_of;
use std::alloc::{AllocError, Global};
use stored_lines::{Carried, Value};

/// A person by the first name, as it is displayed; `?` without one.
fn shown(alloc: Global, found: Option<&Record>) -> Result<String, AllocError>
    ensures { IfOk result (λ s. string_bytes s ≡ adding.shown (option_copied found.entry)) }
{
    match found {
        Some(Record::Person(person)) => display_of(alloc, person),
        _ => String::from_str(alloc, "?"),
    }
}

/// The note below an event of who took part.
fn note_of(alloc: Global, state: &State, participant: &Participant) -> Result<Carried, RefusalKind>
    ensures made { IfOk result (λ c. c ≡ adding.note_of state.now.records participant.now) }
    ensures refused { IfErr result (λ e. Fails e (Fits (adding.note_of state.now.records participant.now))) }
{
    let name = shown(alloc, state.record(participant.person))?;
    let words = with_words(alloc, name.as_str(), participant.role.as_str())?;
    words_line(alloc, "NOTE", words)
}

/// What stands below the association with a participant.
fn below_association(
    alloc: Global,
    state: &State,
    event: &Event,
    participant: &Participant,
) -> Result<Vec<Carried>, RefusalKind>
    ensures made { IfOk result (λ made. made.items
        ≡ adding.below_association state.now.records event.now participant.now) }
    ensures refused { IfErr result (λ e. Fails e
        (LinesFit (adding.below_association state.now.records event.now participant.now))) }
{
    let mut below = Vec::new(alloc);
    let relation = relation_words(alloc, participant.role.as_str())?;
    let relation = words_in_line(alloc, relation.as_str())?;
    put_line(&mut below, words_line(alloc, "RELA", relation)?)?;
    let words = event_words(alloc, event)?;
    put_line(&mut below, words_line(alloc, "NOTE", words)?)?;
    let mut kept = kept_lines(alloc, state, &participant.carried)?;
    below.append(&mut kept)?;
    Ok(below)
}

/// The association with a participant, below a person whose event it is.
fn association(
    alloc: Global,
    state: &State,
    event: &Event,
    participant: &Participant,
) -> Result<Carried, RefusalKind>
    ensures made { IfOk result (λ c. c ≡ adding.association state.now.records event.now participant.now) }
    ensures refused { IfErr result
        (λ e. Fails e (Fits (adding.association state.now.records event.now participant.now))) }
{
    let below = below_association(alloc, state, event, participant)?;
    line(alloc, "ASSO", Value::Ref(participant.person), below)
}

/// Adds the notes of an event.
fn add_notes(
    alloc: Global,
    state: &State,
    number: u32,
    participants: &[Participant],
    added: &mut Vec<Added>,
) -> Result<(), RefusalKind>
    ensures made { OnOk result (added.new.items ≡ added.old.items
        ++ map (λ (p : model.Participant). adding.add number (adding.note_of state.now.records p)) participants.now) }
    ensures refused { IfErr result (λ e. Fails e (AddedFit
        (map (λ (p : model.Participant). adding.add number (adding.note_of state.now.records p)) participants.now))) }
{
    'participants: for participant in participants {
        add(added, number, note_of(alloc, state, participant)?)?;
    }
    Ok(())
}

/// Adds the associations of a person whose event it is.
fn add_associations(
    alloc: Global,
    state: &State,
    event: &Event,
    person: u32,
    added: &mut Vec<Added>,
) -> Result<(), RefusalKind>
    ensures made { OnOk result (added.new.items ≡ added.old.items
        ++ adding.associations state.now.records event.now person) }
    ensures refused { IfErr result
        (λ e. Fails e (AddedFit (adding.associations state.now.records event.now person))) }
{
    'participants: for participant in &event.participants {
        add(
            added,
            person,
            association(alloc, state, event, participant)?,
        )?;
    }
    Ok(())
}

/// Adds the associations of the partners of a family whose event it is.
fn add_to_partners(
    alloc: Global,
    state: &State,
    event: &Event,
    partners: &[Partner],
    added: &mut Vec<Added>,
) -> Result<(), RefusalKind>
    ensures made { OnOk result (added.new.items ≡ added.old.items
        ++ flat_map (adding.associations state.now.records event.now)
        (map (λ (p : model.Partner). p.person) partners.now)) }
    ensures refused { IfErr result (λ e. Fails e (AddedFit
        (flat_map (adding.associations state.now.records event.now)
        (map (λ (p : model.Partner). p.person) partners.now)))) }
{
    'partners: for partner in partners {
        add_associations(alloc, state, event, partner.person, added)?;
    }
    Ok(())
}

/// Adds the associations of those whose event it is.
fn add_to_owner(
    alloc: Global,
    state: &State,
    event: &Event,
    owner: Option<&Record>,
    added: &mut Vec<Added>,
) -> Result<(), RefusalKind>
    ensures made { OnOk result (added.new.items ≡ added.old.items
        ++ flat_map (adding.associations state.now.records event.now)
        (persons_of event.now.owner (option_copied owner.entry))) }
    ensures refused { IfErr result (λ e. Fails e (AddedFit
        (flat_map (adding.associations state.now.records event.now)
        (persons_of event.now.owner (option_copied owner.entry))))) }
{
    match owner {
        Some(Record::Person(_)) => add_associations(alloc, state, event, event.owner, added),
        Some(Record::Family(family)) => {
            add_to_partners(alloc, state, event, &family.partners, added)
        }
        _ => Ok(()),
    }
}

/// Adds what an event adds.
pub(crate) fn add_event(
    alloc: Global,
    state: &State,
    number: u32,
    event: &Event,
    added: &mut Vec<Added>,
) -> Result<(), RefusalKind>
    ensures made { OnOk result (added.new.items ≡ added.old.items
        ++ adding.added_by_event state.now.records number event.now) }
    ensures refused { IfErr result
        (λ e. Fails e (AddedFit (adding.added_by_event state.now.records number event.now))) }
{
    add_notes(alloc, state, number, &event.participants, added)?;
    add_to_owner(alloc, state, event, state.record(event.owner), added)
}
