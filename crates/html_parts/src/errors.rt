//! Pages that say what went wrong.

ghost use Rattle.std.specs.Prelude.{◌≡◌, ◌++◌, IfOk, OnOk, string_bytes};
ghost use Rattle.html_parts.specs.Errors as errors;
ghost use Rattle.html_parts.specs.Errors.{error_parts, error_words, home_parts, phrase_of};
ghost use Rattle.html_parts.specs.Frame.{frame_parts};
ghost use Rattle.html_parts.specs.Parts.{page_bytes};

use crate::frame::framed;
use crate::parts::Parts;
use crate::route::Route;
use html_text::Element;
use http::StatusCode;
use std::alloc::{AllocError, Global};

/// The page of a status that refuses: what happened, in words, and a link to the first page.
pub fn error_page(alloc: Global, society: &str, status: StatusCode) -> Result<String, AllocError>
    ensures { IfOk result (λ s. string_bytes s
        ≡ page_bytes (frame_parts society.now (phrase_of status) (error_parts status))) }
{
    let mut main = Parts::new(alloc);
    push_error(alloc, &mut main, status)?;
    framed(alloc, society, phrase(status), main)
}

#[tactic(auto, unfolding(crate::specs::Errors::error_parts))]
fn push_error(alloc: Global, out: &mut Parts, status: StatusCode) -> Result<(), AllocError>
    ensures { OnOk result (out.new ≡ out.old ++ error_parts status) }
{
    out.element(alloc, Element::H1, phrase(status))?;
    out.element(alloc, Element::P, words_of(status))?;
    push_home(alloc, out)
}

fn push_home(alloc: Global, out: &mut Parts) -> Result<(), AllocError>
    ensures { OnOk result (out.new ≡ out.old ++ home_parts) }
{
    out.start(Element::P)?;
    out.link(alloc, Route::Home, home_words())?;
    out.end(Element::P)
}

#[tactic(auto, unfolding(crate::specs::Errors::home_words))]
fn home_words() -> &'static str
    ensures { result.now ≡ errors.home_words }
{
    "To the first page"
}

/// The canonical phrase of a status.
#[tactic(auto, unfolding(crate::specs::Errors::phrase_of))]
fn phrase(status: StatusCode) -> &'static str
    ensures { result.now ≡ phrase_of status }
{
    status.canonical_reason().unwrap_or("")
}

#[tactic(auto, unfolding(crate::specs::Errors::error_words))]
fn words_of(status: StatusCode) -> &'static str
    ensures { result.now ≡ error_words status }
{
    if status == StatusCode::NOT_FOUND {
        "There is no such page, or nothing is shown of what it would be of."
    } else if status == StatusCode::METHOD_NOT_ALLOWED {
        "This room only shows pages: it takes no other request than GET and HEAD."
    } else if status == StatusCode::REQUEST_HEADER_FIELDS_TOO_LARGE {
        "The head of the request is too large."
    } else {
        "The request is none that this room understands."
    }
}
