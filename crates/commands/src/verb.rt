//! The verbs of commands.

ghost use Rattle.std.specs.Prelude.{◌≡◌};
ghost use Rattle.commands.specs.Verbs.{verb_of, verb_word};

/// What a command does.
#[derive(Clone, Copy, Debug, PartialEq, Eq)]
pub enum Verb {
    /// A new person.
    Person,
    /// A further name of a person.
    Name,
    /// The sex of a person.
    Sex,
    /// A new family.
    Family,
    /// A further child of a family.
    Child,
    /// A new event.
    Event,
    /// Another value, date or place of an event.
    Amend,
    /// A further participant of an event.
    Participant,
    /// A new place.
    Place,
    /// A new repository.
    Repo,
    /// A new source.
    Source,
    /// A new citation.
    Citation,
    /// A new register entry.
    Entry,
    /// A mention of an entry is of a person.
    Link,
    /// A mention of an entry is of no person.
    Unlink,
    /// Two persons become one.
    Merge,
    /// A merge is undone.
    Undo,
    /// A record is removed.
    Remove,
    /// A further partner of a family.
    Partner,
    /// A person is no partner of a family any more.
    Unpartner,
    /// A person is no child of a family any more.
    Unchild,
    /// A participant is removed from an event.
    Unparticipant,
    /// A field of a record gets another value.
    Correct,
}

impl Verb {
    /// The word of the verb, as it stands in a row.
    pub fn as_str(self) -> &'static str
        ensures { result.now ≡ verb_word self }
    {
        match self {
            Verb::Person => "person",
            Verb::Name => "name",
            Verb::Sex => "sex",
            Verb::Family => "family",
            Verb::Child => "child",
            Verb::Event => "event",
            Verb::Amend => "amend",
            Verb::Participant => "participant",
            Verb::Place => "place",
            Verb::Repo => "repo",
            Verb::Source => "source",
            Verb::Citation => "citation",
            Verb::Entry => "entry",
            Verb::Link => "link",
            Verb::Unlink => "unlink",
            Verb::Merge => "merge",
            Verb::Undo => "undo",
            Verb::Remove => "remove",
            Verb::Partner => "partner",
            Verb::Unpartner => "unpartner",
            Verb::Unchild => "unchild",
            Verb::Unparticipant => "unparticipant",
            Verb::Correct => "correct",
        }
    }

    /// The verb of a word. `None`: it is that of none.
    #[tactic(auto, unfolding(crate::specs::Verbs::verb_of))]
    pub fn from_word(word: &str) -> Option<Verb>
        ensures { result ≡ verb_of word.now }
    {
        match word {
            "person" => Some(Verb::Person),
            "name" => Some(Verb::Name),
            "sex" => Some(Verb::Sex),
            "family" => Some(Verb::Family),
            "child" => Some(Verb::Child),
            "event" => Some(Verb::Event),
            "amend" => Some(Verb::Amend),
            "participant" => Some(Verb::Participant),
            "place" => Some(Verb::Place),
            "repo" => Some(Verb::Repo),
            "source" => Some(Verb::Source),
            "citation" => Some(Verb::Citation),
            "entry" => Some(Verb::Entry),
            "link" => Some(Verb::Link),
            "unlink" => Some(Verb::Unlink),
            "merge" => Some(Verb::Merge),
            "undo" => Some(Verb::Undo),
            "remove" => Some(Verb::Remove),
            "partner" => Some(Verb::Partner),
            "unpartner" => Some(Verb::Unpartner),
            "unchild" => Some(Verb::Unchild),
            "unparticipant" => Some(Verb::Unparticipant),
            "correct" => Some(Verb::Correct),
            _ => None,
        }
    }
}
