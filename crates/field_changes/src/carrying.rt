//! Carried lines that would be read as a field.

ghost use Rattle.std.specs.Prelude.{◌≡◌, ◌&&◌, codes, IfOk, not};
ghost use Rattle.std.specs.List.{list_any};
ghost use Rattle.record_shapes.specs.Forms as forms;
ghost use Rattle.record_shapes.specs.Forms.{is_some};
ghost use Rattle.record_shapes.specs.Paths as paths;
ghost use Rattle.field_changes.specs.Carrying as carrying;

use field_rows::{
    has_part, is_bare, is_text, is_within_limits, made_normal, quality_of, sex_of, text_of,
};
use record_kinds::{Citation, Event, Holding, Record, Source};
use std::alloc::{AllocError, Global};
use stored_lines::Carried;

/// Whether a carried line of the record would be read as a field that the record has not.
pub(crate) fn is_still_carried(alloc: Global, value: &Record) -> Result<bool, AllocError>
    ensures { IfOk result (λ is. is ≡ carrying.still_carried value.now) }
{
    match value {
        Record::Person(person) => Ok(is_missed(&person.sex, has_sex(&person.carried))),
        Record::Event(event) => event_still_carries(alloc, event),
        Record::Source(source) => Ok(source_still_carries(source)),
        Record::Citation(citation) => Ok(citation_still_carries(citation)),
        _ => Ok(false),
    }
}

/// Whether the field is not there, and a line of it is carried.
fn is_missed<T>(field: &Option<T>, is_carried: bool) -> bool
    ensures { result ≡ (not (is_some field.now) && is_carried) }
{
    match field {
        None => is_carried,
        Some(_) => false,
    }
}

fn event_still_carries(alloc: Global, event: &Event) -> Result<bool, AllocError>
    ensures { IfOk result (λ is. is ≡ carrying.event_still_carries event.now) }
{
    let is_placed = has_place(alloc, &event.carried)?;
    let has_date = is_missed(&event.date, has_date(&event.carried));
    Ok(has_date || is_missed(&event.place, is_placed))
}

fn source_still_carries(source: &Source) -> bool
    ensures { result ≡ carrying.source_still_carries source.now }
{
    let has_author = is_missed(&source.author, has_author(&source.carried));
    let has_publisher = is_missed(&source.publisher, has_publisher(&source.carried));
    has_author || (has_publisher || holdings_still_carry(&source.holdings))
}

fn holdings_still_carry(holdings: &[Holding]) -> bool
    ensures { result ≡ list_any carrying.holding_still_carries holdings.now }
{
    holdings
        .iter()
        .any(|holding| holding_still_carries(holding))
}

fn holding_still_carries(holding: &Holding) -> bool
    ensures { result ≡ carrying.holding_still_carries holding.now }
{
    is_missed(&holding.call_number, has_call_number(&holding.carried))
}

fn citation_still_carries(citation: &Citation) -> bool
    ensures { result ≡ carrying.citation_still_carries citation.now }
{
    let has_page = is_missed(&citation.page, has_page(&citation.carried));
    has_page || is_missed(&citation.quality, has_quality(&citation.carried))
}

fn has_sex(lines: &[Carried]) -> bool
    ensures { result ≡ list_any carrying.is_sex lines.now }
{
    lines.iter().any(|line| is_sex(line))
}

fn has_date(lines: &[Carried]) -> bool
    ensures { result ≡ list_any carrying.is_date lines.now }
{
    lines.iter().any(|line| is_date(line))
}

fn has_author(lines: &[Carried]) -> bool
    ensures { result ≡ list_any carrying.is_author lines.now }
{
    lines.iter().any(|line| is_author(line))
}

fn has_publisher(lines: &[Carried]) -> bool
    ensures { result ≡ list_any carrying.is_publisher lines.now }
{
    lines.iter().any(|line| is_publisher(line))
}

fn has_call_number(lines: &[Carried]) -> bool
    ensures { result ≡ list_any carrying.is_call_number lines.now }
{
    lines.iter().any(|line| is_call_number(line))
}

fn has_page(lines: &[Carried]) -> bool
    ensures { result ≡ list_any carrying.is_page lines.now }
{
    lines.iter().any(|line| is_page(line))
}

fn has_quality(lines: &[Carried]) -> bool
    ensures { result ≡ list_any carrying.is_quality lines.now }
{
    lines.iter().any(|line| is_quality(line))
}

/// Whether one of the lines is that of a place.
#[tactic(auto, using(crate::proofs::Walk::found, crate::proofs::Walk::none_more, crate::proofs::Walk::none))]
fn has_place(alloc: Global, lines: &[Carried]) -> Result<bool, AllocError>
    ensures { IfOk result (λ has. has ≡ list_any carrying.is_place lines.now) }
{
    'lines: for line in lines {
        if is_place(alloc, line)? {
            return Ok(true);
        }
    }
    Ok(false)
}

/// Whether the line is a text that is the path of a place.
fn is_place(alloc: Global, line: &Carried) -> Result<bool, AllocError>
    ensures { IfOk result (λ is. is ≡ carrying.is_place line.now) }
{
    if !is_tagged(line, "PLAC") || !is_text(line) {
        return Ok(false);
    }
    let path = made_normal(alloc, text_of(line))?;
    Ok(is_within_limits(path.as_str()) && has_part(path.as_str()))
}

fn is_sex(line: &Carried) -> bool
    ensures { result ≡ carrying.is_sex line.now }
{
    is_tagged(line, "SEX") && is_bare(line) && sex_of(line).is_some()
}

fn is_date(line: &Carried) -> bool
    ensures { result ≡ carrying.is_date line.now }
{
    is_tagged(line, "DATE") && is_bare(line)
}

fn is_author(line: &Carried) -> bool
    ensures { result ≡ carrying.is_author line.now }
{
    is_tagged(line, "AUTH") && is_bare(line)
}

fn is_publisher(line: &Carried) -> bool
    ensures { result ≡ carrying.is_publisher line.now }
{
    is_tagged(line, "PUBL") && is_bare(line)
}

fn is_call_number(line: &Carried) -> bool
    ensures { result ≡ carrying.is_call_number line.now }
{
    is_tagged(line, "CALN") && is_bare(line)
}

fn is_page(line: &Carried) -> bool
    ensures { result ≡ carrying.is_page line.now }
{
    is_tagged(line, "PAGE") && is_bare(line)
}

fn is_quality(line: &Carried) -> bool
    ensures { result ≡ carrying.is_quality line.now }
{
    is_tagged(line, "QUAY") && is_bare(line) && quality_of(line).is_some()
}

/// Whether the line has that tag.
fn is_tagged(line: &Carried, tag: &str) -> bool
    ensures { result ≡ forms.tagged tag.now line.now }
{
    line.tag.as_str() == tag
}
