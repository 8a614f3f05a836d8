//! What each page has around its own parts.

ghost use Rattle.std.specs.Prelude.{◌≡◌, ◌++◌, IfOk, OnOk, string_bytes};
ghost use Rattle.html_parts.specs.Frame as frames;
ghost use Rattle.html_parts.specs.Parts.{page_bytes};

use crate::part::Part;
use crate::parts::Parts;
use crate::route::Route;
use html_text::Element;
use std::alloc::{AllocError, Global};

/// The bytes of a page with that title and those parts.
pub fn framed(alloc: Global, society: &str, title: &str, main: Parts) -> Result<String, AllocError>
    ensures { IfOk result
        (λ s. string_bytes s ≡ page_bytes (frames.frame_parts society.now title.now main)) }
{
    let mut page = Parts::new(alloc);
    push_front(alloc, &mut page, society, title)?;
    page.append(main)?;
    push_end(&mut page)?;
    page.write(alloc)
}

fn push_front(alloc: Global, out: &mut Parts, society: &str, title: &str) -> Result<(), AllocError>
    ensures { OnOk result (out.new ≡ out.old ++ frames.front_parts society.now title.now) }
{
    push_head(alloc, out, society, title)?;
    out.start(Element::Body)?;
    push_nav(alloc, out, society)?;
    out.start(Element::Main)
}

fn push_head(alloc: Global, out: &mut Parts, society: &str, title: &str) -> Result<(), AllocError>
    ensures { OnOk result (out.new ≡ out.old ++ frames.head_parts society.now title.now) }
{
    out.push(Part::Language)?;
    out.start(Element::Head)?;
    out.push(Part::Charset)?;
    out.push(Part::Viewport)?;
    push_title(alloc, out, society, title)?;
    out.push(Part::Stylesheet)?;
    out.end(Element::Head)
}

fn push_title(alloc: Global, out: &mut Parts, society: &str, title: &str) -> Result<(), AllocError>
    ensures { OnOk result (out.new ≡ out.old ++ frames.title_parts society.now title.now) }
{
    out.start(Element::Title)?;
    out.words(alloc, title)?;
    out.words(alloc, " - ")?;
    out.words(alloc, society)?;
    out.end(Element::Title)
}

fn push_nav(alloc: Global, out: &mut Parts, society: &str) -> Result<(), AllocError>
    ensures { OnOk result (out.new ≡ out.old ++ frames.nav_parts society.now) }
{
    out.start(Element::Nav)?;
    out.link(alloc, Route::Home, society)?;
    out.end(Element::Nav)
}

fn push_end(out: &mut Parts) -> Result<(), AllocError>
    ensures { OnOk result (out.new ≡ out.old ++ frames.end_parts) }
{
    out.end(Element::Main)?;
    out.end(Element::Body)?;
    out.end(Element::Html)
}
