//! The kinds of register entries, the roles of mentions, and the word of each.

ghost use Rattle.std.specs.Prelude.{◌≡◌, ◌≢◌, MatchOption};
ghost use Rattle.record_fields.specs.Words.{entry_kind_word, role_word, entry_kind_of, role_of};
ghost use Rattle.record_fields.specs.declared.entry_words.EntryKind.{EntryKind};
ghost use Rattle.record_fields.specs.declared.entry_words.Role.{Role};

/// What an entry records.
#[derive(Clone, Copy, Debug, PartialEq, Eq)]
pub enum EntryKind {
    Baptism,
    Marriage,
    Burial,
}

impl EntryKind {
    /// The word of the kind: `BAPTISM`, `MARRIAGE` or `BURIAL`.
    pub fn as_str(self) -> &'static str
        ensures { result.now ≡ entry_kind_word self }
    {
        match self {
            EntryKind::Baptism => "BAPTISM",
            EntryKind::Marriage => "MARRIAGE",
            EntryKind::Burial => "BURIAL",
        }
    }

    /// The kind whose word it is. `None`: it is the word of none.
    #[tactic(auto, using(crate::proofs::Worded::entry_kind_exact))]
    pub fn from_word(word: &str) -> Option<EntryKind>
        ensures { MatchOption result ((k : EntryKind) → word.now ≢ entry_kind_word k)
            (λ k. word.now ≡ entry_kind_word k) }
    {
        EntryKind::of_word(word)
    }

    fn of_word(word: &str) -> Option<EntryKind>
        ensures { result ≡ entry_kind_of word.now }
    {
        match word {
            "BAPTISM" => Some(EntryKind::Baptism),
            "MARRIAGE" => Some(EntryKind::Marriage),
            "BURIAL" => Some(EntryKind::Burial),
            _ => None,
        }
    }
}

/// As what somebody is named in an entry.
#[derive(Clone, Copy, Debug, PartialEq, Eq)]
pub enum Role {
    /// Who is baptised.
    Child,
    /// The father of the child or of who is buried.
    Father,
    /// The mother of the child or of who is buried.
    Mother,
    Godparent,
    Groom,
    Bride,
    FatherOfGroom,
    FatherOfBride,
    Witness,
    /// Who is buried.
    Buried,
    /// The husband or wife of who is buried.
    Spouse,
}

impl Role {
    /// The word of the role.
    pub fn as_str(self) -> &'static str
        ensures { result.now ≡ role_word self }
    {
        match self {
            Role::Child => "child",
            Role::Father => "father",
            Role::Mother => "mother",
            Role::Godparent => "godparent",
            Role::Groom => "groom",
            Role::Bride => "bride",
            Role::FatherOfGroom => "father-of-groom",
            Role::FatherOfBride => "father-of-bride",
            Role::Witness => "witness",
            Role::Buried => "buried",
            Role::Spouse => "spouse",
        }
    }

    /// The role whose word it is. `None`: it is the word of none.
    #[tactic(auto, using(crate::proofs::Worded::role_exact))]
    pub fn from_word(word: &str) -> Option<Role>
        ensures { MatchOption result ((r : Role) → word.now ≢ role_word r) (λ r. word.now ≡ role_word r) }
    {
        Role::of_word(word)
    }

    fn of_word(word: &str) -> Option<Role>
        ensures { result ≡ role_of word.now }
    {
        match word {
            "child" => Some(Role::Child),
            "father" => Some(Role::Father),
            "mother" => Some(Role::Mother),
            "godparent" => Some(Role::Godparent),
            "groom" => Some(Role::Groom),
            "bride" => Some(Role::Bride),
            "father-of-groom" => Some(Role::FatherOfGroom),
            "father-of-bride" => Some(Role::FatherOfBride),
            "witness" => Some(Role::Witness),
            "buried" => Some(Role::Buried),
            "spouse" => Some(Role::Spouse),
            _ => None,
        }
    }
}
