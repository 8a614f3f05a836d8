//! Citations and events.

ghost use Rattle.std.specs.Prelude.{
  ◌≡◌,
  ◌++◌,
  ◌≤◌,
  ◌∷◌,
  [],
  map,
  option_map,
  codes,
  OnOk,
  string_bytes,
};
ghost use Rattle.stored_lines.specs.declared.carried.Value.TheVariants as value;
ghost use Rattle.record_fields.specs.Dated.{date_text};
ghost use Rattle.record_fields.specs.Words.{quality_word};
ghost use Rattle.record_shapes.specs.Shapes.{
  citation_line,
  event_place_line,
  event_place_lines,
  line,
  loc_line,
  participant_line,
  role_lines,
  text_lines,
};
ghost use Rattle.node_writing.specs.Pages.{page};
ghost use Rattle.node_writing.specs.Parts.{event_head};

use crate::lines::{push_carried, push_maybe, push_pointer, push_words};
use crate::named::Named;
use record_fields::{Date, Quality};
use record_kinds::{Citation, Event, EventPlace, Participant};
use std::alloc::{AllocError, Global};

/// Appends the line of a quality, where there is one.
fn push_quality<N: Named>(
    alloc: Global,
    out: &mut String,
    index: &N,
    level: u8,
    quality: Option<Quality>,
) -> Result<(), AllocError>
    requires { level ≤ 254 }
    ensures { OnOk result (string_bytes out.new ≡ string_bytes out.old
        ++ page (N.names index.now) level (text_lines (codes "QUAY") (option_map quality_word quality))) }
{
    match quality {
        Some(quality) => push_words(alloc, out, index, level, "QUAY", quality.as_str()),
        None => Ok(()),
    }
}

/// Appends the line of a date, where there is one.
pub(crate) fn push_date<N: Named>(
    alloc: Global,
    out: &mut String,
    index: &N,
    level: u8,
    date: &Option<Date>,
) -> Result<(), AllocError>
    requires { level ≤ 254 }
    ensures { OnOk result (string_bytes out.new ≡ string_bytes out.old
        ++ page (N.names index.now) level (text_lines (codes "DATE") (option_map date_text date.now))) }
{
    match date {
        Some(date) => push_words(alloc, out, index, level, "DATE", date.as_str()),
        None => Ok(()),
    }
}

/// Appends a citation, its line at that level: 1 below a person or a family, and 2 below an event (GEDCOM 5.5.1,
/// chapter 2, SOURCE_CITATION).
pub fn push_citation<N: Named>(
    alloc: Global,
    out: &mut String,
    index: &N,
    level: u8,
    citation: &Citation,
) -> Result<(), AllocError>
    requires { level ≤ 98 }
    ensures { OnOk result (string_bytes out.new ≡ string_bytes out.old
        ++ page (N.names index.now) level (citation_line citation.now ∷ [])) }
{
    push_pointer(alloc, out, index, level, "SOUR", citation.source)?;
    push_maybe(alloc, out, index, level + 1, "PAGE", &citation.page)?;
    push_quality(alloc, out, index, level + 1, citation.quality)?;
    push_carried(alloc, out, index, level + 1, &citation.carried)
}

/// Appends the line of a place: its path, and below it the line that names it.
pub(crate) fn push_place_line<N: Named>(
    alloc: Global,
    out: &mut String,
    index: &N,
    level: u8,
    place: u32,
) -> Result<(), AllocError>
    requires { level ≤ 253 }
    ensures { OnOk result (string_bytes out.new ≡ string_bytes out.old ++ page (N.names index.now) level
        (line (codes "PLAC") (value.Text ((N.around index.now).path place)) (loc_line place ∷ []) ∷ [])) }
{
    let path = index.path(alloc, place)?;
    push_words(alloc, out, index, level, "PLAC", path.as_str())?;
    push_pointer(alloc, out, index, level + 1, "_LOC", place)
}

/// Appends the place of an event.
fn push_event_place_line<N: Named>(
    alloc: Global,
    out: &mut String,
    index: &N,
    place: &EventPlace,
) -> Result<(), AllocError>
    ensures { OnOk result (string_bytes out.new ≡ string_bytes out.old
        ++ page (N.names index.now) 2 (event_place_line (N.around index.now) place.now ∷ [])) }
{
    push_place_line(alloc, out, index, 2, place.place)?;
    push_carried(alloc, out, index, 3, &place.carried)
}

/// Appends the place of an event, where there is one.
fn push_event_place<N: Named>(
    alloc: Global,
    out: &mut String,
    index: &N,
    place: &Option<EventPlace>,
) -> Result<(), AllocError>
    ensures { OnOk result (string_bytes out.new ≡ string_bytes out.old
        ++ page (N.names index.now) 2 (event_place_lines (N.around index.now) place.now)) }
{
    match place {
        Some(place) => push_event_place_line(alloc, out, index, place),
        None => Ok(()),
    }
}

/// Appends the line of a role; an empty one has none.
fn push_role<N: Named>(
    alloc: Global,
    out: &mut String,
    index: &N,
    role: &str,
) -> Result<(), AllocError>
    ensures { OnOk result (string_bytes out.new ≡ string_bytes out.old
        ++ page (N.names index.now) 3 (role_lines role.now)) }
{
    if role.is_empty() {
        return Ok(());
    }
    push_words(alloc, out, index, 3, "_ROLE", role)
}

/// Appends who took part in an event.
fn push_participant<N: Named>(
    alloc: Global,
    out: &mut String,
    index: &N,
    participant: &Participant,
) -> Result<(), AllocError>
    ensures { OnOk result (string_bytes out.new ≡ string_bytes out.old
        ++ page (N.names index.now) 2 (participant_line participant.now ∷ [])) }
{
    push_pointer(alloc, out, index, 2, "_PART", participant.person)?;
    push_role(alloc, out, index, participant.role.as_str())?;
    push_carried(alloc, out, index, 3, &participant.carried)
}

/// Appends all who took part in an event.
fn push_participants<N: Named>(
    alloc: Global,
    out: &mut String,
    index: &N,
    participants: &[Participant],
) -> Result<(), AllocError>
    ensures { OnOk result (string_bytes out.new ≡ string_bytes out.old
        ++ page (N.names index.now) 2 (map participant_line participants.now)) }
{
    'participants: for participant in participants {
        push_participant(alloc, out, index, participant)?;
    }
    Ok(())
}

/// Appends an event at level 1 up to its citations (GEDCOM 5.5.1, chapter 2, EVENT_DETAIL). What is carried by the
/// event stands after these, at level 2.
pub fn push_event<N: Named>(
    alloc: Global,
    out: &mut String,
    index: &N,
    event: &Event,
) -> Result<(), AllocError>
    ensures { OnOk result (string_bytes out.new ≡ string_bytes out.old
        ++ page (N.names index.now) 1 (event_head (N.around index.now) event.now ∷ [])) }
{
    push_words(
        alloc,
        out,
        index,
        1,
        event.tag.as_str(),
        event.value.as_str(),
    )?;
    push_date(alloc, out, index, 2, &event.date)?;
    push_event_place(alloc, out, index, &event.place)?;
    push_participants(alloc, out, index, &event.participants)
}
