//! Corrections of sources and citations.

ghost use Rattle.std.specs.Prelude.{◌≡◌, IfOk, None, OnOk, drop};
ghost use Rattle.corrections.specs.Corrections as corrections;
ghost use Rattle.corrections.specs.Lists.{changed_at};
ghost use Rattle.corrections.specs.declared.correction.Correction.TheVariants as value;

use crate::correction::Correction;
use crate::field::TextField;
use record_kinds::{Citation, Holding, Source};
use record_text::{RefusalKind, Text};
use std::alloc::{AllocError, Global};

/// A source with another value of a field.
pub(crate) fn source_with(
    alloc: Global,
    source: Source,
    correction: Correction,
) -> Result<Result<Source, RefusalKind>, AllocError>
    ensures { IfOk result (λ outcome. outcome ≡ corrections.source_with correction source) }
{
    match correction {
        Correction::Repository(Some(repo)) => {
            let mut source = source;
            set_repo(alloc, &mut source.holdings, repo)?;
            Ok(Ok(source))
        }
        Correction::Repository(None) => Ok(without_repo(source)),
        Correction::Text(field, text) => Ok(source_text(source, field, text)),
        _ => Ok(Err(RefusalKind::NoSuchField)),
    }
}

/// Another first repository, with the same call number and carried lines; the only one if there is none.
fn set_repo(alloc: Global, holdings: &mut Vec<Holding>, repo: u32) -> Result<(), AllocError>
    ensures { OnOk result (holdings.new.items ≡ corrections.held_at repo holdings.old.items) }
{
    if holdings.is_empty() {
        holdings.push(Holding {
            repo,
            call_number: None,
            carried: Vec::new(alloc),
        })?;
    } else {
        holdings[0].repo = repo;
    }
    Ok(())
}

/// A source without its first repository, which has no call number.
fn without_repo(source: Source) -> Result<Source, RefusalKind>
    ensures { result ≡ corrections.source_with (value.Repository None) source }
{
    if first_is_called(&source.holdings) {
        return Err(RefusalKind::BadText);
    }
    let mut source = source;
    remove_first(&mut source.holdings);
    Ok(source)
}

/// Whether the first repository has a call number.
fn first_is_called(holdings: &Vec<Holding>) -> bool
    ensures { result ≡ corrections.first_is_called holdings.now.items }
{
    match holdings.first() {
        Some(holding) => holding.call_number.is_some(),
        None => false,
    }
}

fn remove_first(holdings: &mut Vec<Holding>)
    ensures { holdings.new.items ≡ drop 1 holdings.old.items }
{
    if !holdings.is_empty() {
        drop(holdings.remove(0));
    }
}

/// A source with another text of a field.
fn source_text(source: Source, field: TextField, text: Text) -> Result<Source, RefusalKind>
    ensures { result ≡ corrections.source_with (value.Text field text) source }
{
    let mut source = source;
    match field {
        TextField::Title => source.title = Some(text),
        TextField::Author => source.author = or_none(text),
        TextField::Publisher => source.publisher = or_none(text),
        TextField::CallNumber => {
            if !text.as_str().is_empty() && source.holdings.is_empty() {
                return Err(RefusalKind::BadText);
            }
            call_first(&mut source.holdings, or_none(text));
        }
        _ => return Err(RefusalKind::NoSuchField),
    }
    Ok(source)
}

/// Another call number in the first repository, if there is one.
fn call_first(holdings: &mut Vec<Holding>, number: Option<Text>)
    ensures { holdings.new.items ≡ changed_at 0 (corrections.called number) holdings.old.items }
{
    if !holdings.is_empty() {
        holdings[0].call_number = number;
    }
}

/// The text, or none if it is empty.
fn or_none(text: Text) -> Option<Text>
    ensures { result ≡ corrections.or_none text }
{
    if text.as_str().is_empty() {
        None
    } else {
        Some(text)
    }
}

/// A citation with another value of a field.
pub(crate) fn citation_with(
    citation: Citation,
    correction: Correction,
) -> Result<Citation, RefusalKind>
    ensures { result ≡ corrections.citation_with correction citation }
{
    let mut citation = citation;
    match correction {
        Correction::Text(TextField::Page, text) => citation.page = or_none(text),
        Correction::Quality(quality) => citation.quality = quality,
        _ => return Err(RefusalKind::NoSuchField),
    }
    Ok(citation)
}
