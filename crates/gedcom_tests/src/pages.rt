//! A page of HTML. The character references are those of the HTML Living Standard, section 13.5.

use html_text::{Attribute, Element, Name, Page, VoidElement};
use std::alloc::{AllocError, Global};

fn attribute(alloc: Global, name: Name, value: &str) -> Result<Vec<Attribute>, AllocError> {
    let value = String::from_str(alloc, value)?;
    let mut attributes = Vec::new(alloc);
    attributes.push(Attribute { name, value })?;
    Ok(attributes)
}

fn page(alloc: Global) -> Result<String, AllocError> {
    let mut page = Page::new(alloc)?;
    page.start(
        Element::A,
        &attribute(alloc, Name::Href, "/surname?name=\"O'Neil\"&page=2")?,
    )?;
    page.text("1 < 2 & \"3\" > '2'\u{1B}\u{202E}\n")?;
    page.void(VoidElement::Br, &[])?;
    page.end(Element::A)?;
    Ok(page.into_string())
}

#[test]
fn no_text_of_a_page_is_markup(rt: HostRuntime) {
    let wanted =
        "<!DOCTYPE html>\n<a href=\"/surname?name=&quot;O&#39;Neil&quot;&amp;page=2\">1 &lt; 2 &amp; &quot;3&quot; \
        &gt; &#39;2&#39;  \n<br></a>";
    match page(rt.alloc()) {
        Ok(text) => assert!(rt; text.as_str() == wanted),
        Err(_) => assert!(rt; false),
    }
}
