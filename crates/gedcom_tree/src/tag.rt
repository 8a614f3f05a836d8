//! The tag of a node.

ghost use Rattle.std.specs.Prelude.{◌≡◌, IfOk};

use arrayvec::ArrayString;
use std::alloc::{AllocError, Global};
use std::marker::Model;

/// The most bytes of a tag that lie in the node itself. Usual tags have 3 or 4, and those of other programs mostly no
/// more than 8.
const SHORT: usize = 8;

/// Where the bytes of a tag lie.
#[derive(Debug, Drop)]
enum Place {
    /// In the node.
    Short(ArrayString<SHORT>),
    /// In memory of their own.
    Long(Box<String>),
}

/// The tag of a node. One of at most 8 bytes takes no memory of its own. Contracts see it as its bytes.
#[derive(Debug, Drop)]
pub struct Tag {
    place: Place,
}

impl Model for Tag {
    ghost use Rattle.std.specs.Prelude.{List, ℕ};
    ghost use Rattle.gedcom_tree.specs.Tags.{placed};

    ghost Value = { List ℕ };

    ghost view = { λ t. placed t.place };
}

impl Tag {
    /// A tag of these characters.
    pub(crate) fn new(alloc: Global, text: &str) -> Result<Tag, AllocError>
        ensures { IfOk result (λ t. t ≡ text.now) }
    {
        let place = match ArrayString::from(text) {
            Ok(short) => Place::Short(short),
            Err(_) => Place::Long(Box::new(alloc, String::from_str(alloc, text)?)?),
        };
        Ok(Tag { place })
    }

    /// The characters of the tag.
    pub fn as_str(&self) -> &str
        ensures { result.now ≡ self.now }
    {
        match &self.place {
            Place::Short(text) => text.as_str(),
            Place::Long(text) => text.as_str(),
        }
    }
}
