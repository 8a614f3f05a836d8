//! The lines of events and citations.

ghost use Rattle.std.specs.Prelude.{◌≡◌, ◌++◌, IfOk, OnOk, string_bytes};
ghost use Rattle.sheet_lines.specs.Lines as lines;

use crate::words::push_printed;
use record_fields::{Date, Quality};
use record_kinds::{Citation, Event, Participant};
use record_text::Text;
use std::alloc::{AllocError, Global};

/// Appends the line of an event: its tag, and after it the value, the date and the path of the place, as far as they
/// are there.
pub fn push_event_line(out: &mut String, event: &Event, path: &str) -> Result<(), AllocError>
    ensures { OnOk result (string_bytes out.new ≡ string_bytes out.old ++ lines.event_line path.now event.now) }
{
    out.push_str(event.tag.as_str())?;
    let mark = push_part(out, ": ", event.value.as_str())?;
    let mark = push_part(out, mark, date_text(&event.date))?;
    push_part(out, mark, path)?;
    out.push_str("\n")
}

/// The text of a date; empty without one.
fn date_text(date: &Option<Date>) -> &str
    ensures { result.now ≡ lines.date_text date.now }
{
    match date {
        Some(date) => date.as_str(),
        None => "",
    }
}

/// Appends a part after the mark, where it is not empty, and answers the mark of the next.
fn push_part(out: &mut String, mark: &'static str, part: &str) -> Result<&'static str, AllocError>
    ensures text { OnOk result (string_bytes out.new ≡ string_bytes out.old ++ lines.part_behind mark.now part.now) }
    ensures next { IfOk result (λ next. next.now ≡ lines.mark_behind mark.now part.now) }
{
    if part.is_empty() {
        return Ok(mark);
    }
    out.push_str(mark)?;
    push_printed(out, part)?;
    Ok("; ")
}

/// Appends who took part in an event, with the role where there is one.
pub fn push_participant(
    out: &mut String,
    participant: &Participant,
    shown: &str,
) -> Result<(), AllocError>
    ensures { OnOk result (string_bytes out.new ≡ string_bytes out.old
        ++ lines.participant_line shown.now participant.now) }
{
    let person = participant.person;
    write!(out, "  with {person} {shown}")?;
    push_role(out, participant.role.as_str())?;
    out.push_str("\n")
}

/// Appends a role, where it is not empty.
fn push_role(out: &mut String, role: &str) -> Result<(), AllocError>
    ensures { OnOk result (string_bytes out.new ≡ string_bytes out.old ++ lines.role_words role.now) }
{
    if role.is_empty() {
        return Ok(());
    }
    out.push_str(" (")?;
    push_printed(out, role)?;
    out.push_str(")")
}

/// Appends a citation after the word for its source.
pub fn push_citation(out: &mut String, word: &str, citation: &Citation) -> Result<(), AllocError>
    ensures { OnOk result (string_bytes out.new ≡ string_bytes out.old
        ++ lines.citation_line word.now citation.now) }
{
    let source = citation.source;
    write!(out, "{word}{source}")?;
    push_page(out, &citation.page)?;
    push_quality(out, citation.quality)?;
    out.push_str("\n")
}

/// Appends the page of a citation, where there is one.
fn push_page(out: &mut String, page: &Option<Text>) -> Result<(), AllocError>
    ensures { OnOk result (string_bytes out.new ≡ string_bytes out.old ++ lines.page_words page.now) }
{
    match page {
        None => Ok(()),
        Some(page) => {
            out.push_str(", page ")?;
            push_printed(out, page.as_str())
        }
    }
}

/// Appends the quality of a citation, where there is one.
fn push_quality(out: &mut String, quality: Option<Quality>) -> Result<(), AllocError>
    ensures { OnOk result (string_bytes out.new ≡ string_bytes out.old ++ lines.quality_words quality) }
{
    match quality {
        None => Ok(()),
        Some(quality) => {
            let digit = quality.as_str();
            write!(out, ", quality {digit}")
        }
    }
}
