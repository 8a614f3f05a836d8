//! The text of a page of HTML 5 (HTML Living Standard, section 13.1), in which no text of a caller can be markup.
//!
//! - `page`: a `Page` grows by start tags, end tags and texts, and by nothing else, so whoever writes one cannot write
//!   a text that is not escaped.
//! - `names`: the elements and attributes that pages have.
//! - `laws`: outside of tags a page has the escaped texts and nothing else; an escaped text has no character of markup.
//!
//! It is no template engine, and it does not check that elements are nested as the standard wants.
//!
//! ```text
//! let mut page = Page::new(alloc)?;
//! page.start(Element::P, &[])?;
//! page.text("Tom & Ann")?;
//! page.end(Element::P)?;
//! assert_eq!(page.as_str(), "<!DOCTYPE html>\n<p>Tom &amp; Ann</p>");
//! ```
#![tactic(auto)]

pub mod laws;
mod names;
mod page;

pub use names::{Element, Name, VoidElement};
pub use page::{Attribute, Page};
