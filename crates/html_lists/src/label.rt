//! The words that these pages have whatever the records are.

ghost use Rattle.std.specs.Prelude.{◌≡◌};
ghost use Rattle.html_lists.specs.Labels.{label_word};

/// A heading, or a word before a number.
#[derive(Clone, Copy)]
pub(crate) enum Label {
    /// How many entries a register has.
    Entries,
    Families,
    /// How many records are found.
    Found,
    /// The title of the first page.
    Home,
    Persons,
    Register,
    Registers,
    Search,
    /// How many registers there are.
    Sources,
    Surnames,
}

impl Label {
    #[tactic(auto, unfolding(crate::specs::Labels::label_word))]
    pub(crate) fn as_str(self) -> &'static str
        ensures { result.now ≡ label_word self }
    {
        match self {
            Label::Entries => ". Entries: ",
            Label::Families => "Families: ",
            Label::Found => "Found: ",
            Label::Home => "Reading room",
            Label::Persons => "Persons: ",
            Label::Register => "Register ",
            Label::Registers => "Registers",
            Label::Search => "Search",
            Label::Sources => "Registers: ",
            Label::Surnames => "Surnames",
        }
    }
}
