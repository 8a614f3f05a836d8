//! The words of kinds and fields on stored lines.

ghost use Rattle.std.specs.Prelude.{◌≡◌, IfOk};
ghost use Rattle.records.specs.Stored.{word, branch as branch_of};

use record_text::{Tag, Text};
use std::alloc::{AllocError, Global};
use stored_lines::Branch;

/// A kind or a field, as a stored line has it in place of a tag.
#[derive(Clone, Copy)]
pub enum Field {
    /// The first line of a place.
    Place,
    /// The first line of a repository.
    Repo,
    /// The first line of a source, or the source of a citation.
    Source,
    /// The first line of a person.
    Person,
    /// The first line of a family.
    Family,
    /// The first line of a citation.
    Citation,
    /// The first line of an event.
    Event,
    /// The author of a source.
    Author,
    /// The publisher of a source.
    Publisher,
    /// Where a source is kept.
    Holding,
    /// The quality of a citation.
    Quality,
    /// A name of a person.
    Name,
    /// The sex of a person.
    Sex,
    /// A partner in a family.
    Partner,
    /// A child in a family.
    Child,
    /// When and where an event was.
    Date,
    /// Who took part in an event.
    Participant,
    /// The first line of a register entry.
    Entry,
    /// By what an entry is found, and the number of its source.
    Key,
    /// The page of an entry.
    Page,
    /// The number of an entry on its page.
    Item,
    /// What stands in the register.
    Text,
    /// Who is named in an entry.
    Mention,
    /// As what somebody is named.
    Role,
    /// Why a mention is of a person.
    Reason,
    /// The first line of another record.
    Other,
    /// What stands above the carried lines of a person's side of a membership.
    Side,
    /// What stands above the carried lines of a part.
    Carried,
}

impl Field {
    /// The word.
    pub(crate) fn as_str(self) -> &'static str
        ensures { result.now ≡ word self }
    {
        match self {
            Field::Place => "place",
            Field::Repo => "repo",
            Field::Source => "source",
            Field::Person => "person",
            Field::Family => "family",
            Field::Citation => "citation",
            Field::Author => "author",
            Field::Publisher => "publisher",
            Field::Holding => "holding",
            Field::Quality => "quality",
            Field::Name => "name",
            Field::Sex => "sex",
            Field::Partner => "partner",
            Field::Child => "child",
            Field::Event => "event",
            Field::Date => "date",
            Field::Participant => "participant",
            Field::Entry => "entry",
            Field::Key => "key",
            Field::Page => "page",
            Field::Item => "item",
            Field::Text => "text",
            Field::Mention => "mention",
            Field::Role => "role",
            Field::Reason => "reason",
            Field::Other => "other",
            Field::Side => "side",
            Field::Carried => "carried",
        }
    }

    /// The word as a tag.
    #[tactic(auto, using(crate::proofs::Fields::word_is_tag))]
    pub(crate) fn tag(self, alloc: Global) -> Result<Tag, AllocError>
        ensures { IfOk result (λ t. t ≡ word self) }
    {
        Tag::of_word(alloc, self.as_str())
    }
    /// A line with the word, and those below it.
    pub(crate) fn branch(
        self,
        alloc: Global,
        text: Option<Text>,
        target: Option<u32>,
        below: Vec<Branch>,
    ) -> Result<Branch, AllocError>
        ensures { IfOk result (λ b. b ≡ branch_of self text target below.items) }
    {
        Ok(Branch {
            tag: self.tag(alloc)?,
            text,
            target,
            children: below,
        })
    }
}
