//! The classes that the style sheet knows.

ghost use Rattle.std.specs.Prelude.{◌≡◌};
ghost use Rattle.html_parts.specs.Parts.{class_word};

/// How an element looks.
#[derive(Clone, Copy, Debug, PartialEq, Eq)]
pub enum Class {
    /// What is said beside the subject, as the number of a record.
    Note,
    /// The way to the pages before and after.
    Pages,
    /// A text whose line ends are seen, as a transcription.
    Text,
    /// A list of boxes, each with those that belong to it below it.
    Tree,
}

impl Class {
    /// The word of the class in a tag and in the style sheet.
    pub fn as_str(self) -> &'static str
        ensures { result.now ≡ class_word self }
    {
        match self {
            Class::Note => "note",
            Class::Pages => "pages",
            Class::Text => "text",
            Class::Tree => "tree",
        }
    }
}
