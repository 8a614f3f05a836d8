//! The parts of a page.

use crate::class::Class;
use crate::route::Route;
use crate::words::Words;
use html_text::Element;

/// A tag of a page, or a text.
#[derive(Debug, Drop)]
pub enum Part {
    /// The start of a page in English.
    Language,
    /// That it is in UTF-8.
    Charset,
    /// That it fits the screen.
    Viewport,
    /// Where its style sheet is.
    Stylesheet,
    /// The start tag of an element.
    Start(Element),
    /// The start tag of an element with a look of its own.
    Styled(Element, Class),
    /// The start tag of a link.
    Link(Route),
    /// The start tag of the form of a search.
    Form,
    /// The field of that form, with what is searched for.
    Field(Words),
    /// The end tag of an element.
    End(Element),
    /// A text.
    Words(Words),
}
