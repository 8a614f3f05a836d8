//! What a page of the reading room for browsers is made of: a list of parts, its frame, its error pages and its style.
//!
//! - `class`, `part`, `route`, `words`: what stands in a page: tags, texts, and links, each to a route of the room.
//! - `parts`, `writing`: a page as the list of its parts, and the bytes of that list, which `html_text` writes.
//! - `errors`, `frame`, `style`: what each page has around its own parts, pages that say what went wrong, and the style
//!   sheet.
//! - `laws`: what holds of the bytes of each page, whoever made its parts.
//!
//! Callers may rely on: the bytes of a page are those of its parts, one after another; a link goes to a route; no text
//! and no address is markup. An `AllocError` comes only where memory was refused.
#![tactic(auto)]

mod class;
mod errors;
mod frame;
pub mod laws;
mod part;
mod parts;
mod route;
mod style;
mod words;
mod writing;

pub use class::Class;
pub use errors::error_page;
pub use frame::framed;
pub use part::Part;
pub use parts::Parts;
pub use route::Route;
pub use style::style_sheet;
pub use words::Words;
