//! Fields of a request that are words.

ghost use Rattle.std.specs.Prelude.{◌≡◌, IfOk, string_bytes};
ghost use Rattle.commands.specs.Fields.{text_of};

use record_text::Text;
use std::alloc::{AllocError, Global};
use std::marker::Model;

/// The words of a field, whether they are a text of the archive or not. Contracts see them as their bytes.
#[derive(Debug, Drop)]
pub struct Field {
    string: String,
}

impl Model for Field {
    ghost use Rattle.std.specs.Prelude.{List, ℕ, string_bytes};

    ghost Value = { List ℕ };

    ghost view = { λ a. string_bytes a.string };
}

impl Field {
    /// The string as a field. Takes no memory.
    pub fn new(string: String) -> Field
        ensures { result ≡ string_bytes string }
    {
        Field { string }
    }

    /// The words of the field.
    pub fn as_str(&self) -> &str
        ensures { result.now ≡ self.now }
    {
        self.string.as_str()
    }

    /// The text that the words are. `None`: they are none. Refused only if out of memory.
    pub fn text(&self, alloc: Global) -> Result<Option<Text>, AllocError>
        ensures { IfOk result (λ found. found ≡ text_of self.now) }
    {
        let words = String::from_str(alloc, self.as_str())?;
        Ok(Text::try_new(words))
    }
}

/// The fields of one row. Contracts see it as the list of their bytes.
#[derive(Debug, Drop)]
pub struct FieldRow {
    fields: Vec<Field>,
}

impl Model for FieldRow {
    ghost use Rattle.std.specs.Prelude.{List, ℕ};

    ghost Value = { List (List ℕ) };

    ghost view = { λ a. a.fields.items };
}

impl FieldRow {
    /// The fields as a row. Takes no memory.
    pub fn new(fields: Vec<Field>) -> FieldRow
        ensures { result ≡ fields.items }
    {
        FieldRow { fields }
    }

    /// The fields of the row, in their order.
    pub fn fields(&self) -> &[Field]
        ensures { result.now ≡ self.now }
    {
        self.fields.as_slice()
    }
}
