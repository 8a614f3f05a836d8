//! What is shown of an event or a citation with the record that it is of.

ghost use Rattle.std.specs.Prelude.{◌≡◌, ◌++◌, OnOk, codes, string_bytes};
ghost use Rattle.std.specs.List.{flat_map};
ghost use Rattle.archive_state.specs.Looks.{CountsFailures, Looked};
ghost use Rattle.archive_state.specs.Views.{On};
ghost use Rattle.showing.specs.Details as details;

use crate::fields::push_text;
use crate::numbers::push_at;
use archive_state::View;
use record_fields::Quality;
use record_kinds::{Citation, Event, EventPlace, Participant, Record};
use record_text::RefusalKind;
use std::alloc::{AllocError, Global};

/// Of what stands at a number what is shown with the record that it is of: nothing but of an event and a citation.
pub(crate) fn push_details<V: View>(
    alloc: Global,
    view: &mut V,
    out: &mut String,
    owner: u32,
    found: &Option<Record>,
) -> Result<(), RefusalKind>
    ensures shows { On V.View view.old view.new (λ c. Looked result (λ _. string_bytes out.new
        ≡ string_bytes out.old ++ details.details c.records owner «found».now)) }
    ensures counts { CountsFailures (V.failed view.old) (V.failed view.new) result }
{
    match found {
        None => Ok(()),
        Some(record) => push_of(alloc, view, out, owner, record),
    }
}

fn push_of<V: View>(
    alloc: Global,
    view: &mut V,
    out: &mut String,
    owner: u32,
    record: &Record,
) -> Result<(), RefusalKind>
    ensures shows { On V.View view.old view.new (λ c. Looked result (λ _. string_bytes out.new
        ≡ string_bytes out.old ++ details.record_details c.records owner «record».now)) }
    ensures counts { CountsFailures (V.failed view.old) (V.failed view.new) result }
{
    match record {
        Record::Event(event) => push_event(alloc, view, out, owner, event),
        Record::Citation(citation) => push_citation(alloc, view, out, owner, citation),
        _ => Ok(()),
    }
}

fn push_event<V: View>(
    alloc: Global,
    view: &mut V,
    out: &mut String,
    owner: u32,
    event: &Event,
) -> Result<(), RefusalKind>
    ensures shows { On V.View view.old view.new (λ c. Looked result (λ _. string_bytes out.new
        ≡ string_bytes out.old ++ details.event_details c.records owner event.now)) }
    ensures counts { CountsFailures (V.failed view.old) (V.failed view.new) result }
{
    if event.owner == owner {
        push_own(alloc, view, out, event)
    } else {
        Ok(())
    }
}

/// The value, the place and the participants.
fn push_own<V: View>(
    alloc: Global,
    view: &mut V,
    out: &mut String,
    event: &Event,
) -> Result<(), RefusalKind>
    ensures shows { On V.View view.old view.new (λ c. Looked result (λ _. string_bytes out.new
        ≡ string_bytes out.old ++ details.own_details c.records event.now)) }
    ensures counts { CountsFailures (V.failed view.old) (V.failed view.new) result }
{
    push_value(out, event.value.as_str())?;
    push_place(alloc, view, out, &event.place)?;
    push_participants(alloc, view, out, &event.participants)
}

fn push_value(out: &mut String, value: &str) -> Result<(), AllocError>
    ensures { OnOk result (string_bytes out.new ≡ string_bytes out.old ++ details.value_detail value.now) }
{
    if value.is_empty() {
        Ok(())
    } else {
        push_text(out, "  value", value)
    }
}

fn push_place<V: View>(
    alloc: Global,
    view: &mut V,
    out: &mut String,
    place: &Option<EventPlace>,
) -> Result<(), RefusalKind>
    ensures shows { On V.View view.old view.new (λ c. Looked result (λ _. string_bytes out.new
        ≡ string_bytes out.old ++ details.place_detail c.records place.now)) }
    ensures counts { CountsFailures (V.failed view.old) (V.failed view.new) result }
{
    match place {
        None => Ok(()),
        Some(place) => push_at(alloc, view, out, "  place: ", place.place),
    }
}

fn push_participants<V: View>(
    alloc: Global,
    view: &mut V,
    out: &mut String,
    participants: &[Participant],
) -> Result<(), RefusalKind>
    ensures shows { On V.View view.old view.new (λ c. Looked result (λ _. string_bytes out.new
        ≡ string_bytes out.old ++ flat_map (details.participant_detail c.records) participants.now)) }
    ensures counts { CountsFailures (V.failed view.old) (V.failed view.new) result }
{
    'each: for participant in participants {
        push_participant(alloc, view, out, participant)?;
    }
    Ok(())
}

fn push_participant<V: View>(
    alloc: Global,
    view: &mut V,
    out: &mut String,
    participant: &Participant,
) -> Result<(), RefusalKind>
    ensures shows { On V.View view.old view.new (λ c. Looked result (λ _. string_bytes out.new
        ≡ string_bytes out.old ++ details.participant_detail c.records participant.now)) }
    ensures counts { CountsFailures (V.failed view.old) (V.failed view.new) result }
{
    push_at(alloc, view, out, "  with: ", participant.person)?;
    Ok(push_text(out, "  role", participant.role.as_str())?)
}

fn push_citation<V: View>(
    alloc: Global,
    view: &mut V,
    out: &mut String,
    owner: u32,
    citation: &Citation,
) -> Result<(), RefusalKind>
    ensures shows { On V.View view.old view.new (λ c. Looked result (λ _. string_bytes out.new
        ≡ string_bytes out.old ++ details.citation_details c.records owner citation.now)) }
    ensures counts { CountsFailures (V.failed view.old) (V.failed view.new) result }
{
    if citation.owner == owner {
        push_source(alloc, view, out, citation)
    } else {
        Ok(())
    }
}

/// The source and the quality.
fn push_source<V: View>(
    alloc: Global,
    view: &mut V,
    out: &mut String,
    citation: &Citation,
) -> Result<(), RefusalKind>
    ensures shows { On V.View view.old view.new (λ c. Looked result (λ _. string_bytes out.new ≡ string_bytes out.old
        ++ (details.line_at (codes "  source: ") c.records citation.now.source
        ++ details.quality_detail citation.now.quality))) }
    ensures counts { CountsFailures (V.failed view.old) (V.failed view.new) result }
{
    push_at(alloc, view, out, "  source: ", citation.source)?;
    Ok(push_quality(out, citation.quality)?)
}

fn push_quality(out: &mut String, quality: Option<Quality>) -> Result<(), AllocError>
    ensures { OnOk result (string_bytes out.new ≡ string_bytes out.old ++ details.quality_detail quality) }
{
    match quality {
        None => Ok(()),
        Some(quality) => push_text(out, "  quality", quality.as_str()),
    }
}
