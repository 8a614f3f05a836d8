//! The words that pages have whatever the records are.

ghost use Rattle.std.specs.Prelude.{◌≡◌};
ghost use Rattle.html_pages.specs.Labels.{label_word};

/// A heading of a section, or a word before a record.
#[derive(Clone, Copy)]
pub(crate) enum Label {
    Child,
    Children,
    /// The register entries that name a person.
    Entries,
    Events,
    Family,
    Names,
    /// The families where a person is a partner.
    OwnFamilies,
    /// The families where a person is a child.
    Parents,
    Partners,
    Pedigree,
    Person,
    Sources,
}

impl Label {
    #[tactic(auto, unfolding(crate::specs::Labels::label_word))]
    pub(crate) fn as_str(self) -> &'static str
        ensures { result.now ≡ label_word self }
    {
        match self {
            Label::Child => "Child: ",
            Label::Children => "Children",
            Label::Entries => "Register entries",
            Label::Events => "Events",
            Label::Family => "Family ",
            Label::Names => "Names",
            Label::OwnFamilies => "Partners and children",
            Label::Parents => "Parents and siblings",
            Label::Partners => "Partners",
            Label::Pedigree => "Pedigree",
            Label::Person => "Person ",
            Label::Sources => "Sources",
        }
    }
}
