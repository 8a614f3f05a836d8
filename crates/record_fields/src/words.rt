//! Fields that have one of a few values, and the word of each.

ghost use Rattle.std.specs.Prelude.{◌≡◌, ◌≢◌, MatchOption};
ghost use Rattle.record_fields.specs.Words.{
  quality_word,
  sex_word,
  partnership_word,
  quality_of,
  sex_of,
  partnership_of,
};
ghost use Rattle.record_fields.specs.declared.words.Quality.{Quality};
ghost use Rattle.record_fields.specs.declared.words.Sex.{Sex};
ghost use Rattle.record_fields.specs.declared.words.Partnership.{Partnership};

/// How far a source can be trusted: GEDCOM 5.5.1, chapter 2, CERTAINTY_ASSESSMENT.
#[derive(Clone, Copy, Debug, PartialEq, Eq)]
pub enum Quality {
    /// Unreliable evidence or estimated data.
    Unreliable,
    /// Evidence of questionable reliability.
    Questionable,
    /// Secondary evidence, officially recorded some time after the event.
    Secondary,
    /// Direct and primary evidence.
    Primary,
}

impl Quality {
    /// The digit of the quality, 0 to 3.
    pub fn as_str(self) -> &'static str
        ensures { result.now ≡ quality_word self }
    {
        match self {
            Quality::Unreliable => "0",
            Quality::Questionable => "1",
            Quality::Secondary => "2",
            Quality::Primary => "3",
        }
    }

    /// The quality of a digit. `None`: it is the word of none.
    #[tactic(auto, using(crate::proofs::Worded::quality_exact))]
    pub fn from_word(word: &str) -> Option<Quality>
        ensures { MatchOption result ((q : Quality) → word.now ≢ quality_word q) (λ q. word.now ≡ quality_word q) }
    {
        Quality::of_word(word)
    }

    fn of_word(word: &str) -> Option<Quality>
        ensures { result ≡ quality_of word.now }
    {
        match word {
            "0" => Some(Quality::Unreliable),
            "1" => Some(Quality::Questionable),
            "2" => Some(Quality::Secondary),
            "3" => Some(Quality::Primary),
            _ => None,
        }
    }
}

/// The sex of a person: GEDCOM 5.5.1, chapter 2, SEX_VALUE.
#[derive(Clone, Copy, Debug, PartialEq, Eq)]
pub enum Sex {
    Male,
    Female,
    /// It was asked for and could not be found out.
    Unknown,
}

impl Sex {
    /// The letter of the sex: `M`, `F` or `U`.
    pub fn as_str(self) -> &'static str
        ensures { result.now ≡ sex_word self }
    {
        match self {
            Sex::Male => "M",
            Sex::Female => "F",
            Sex::Unknown => "U",
        }
    }

    /// The sex of a letter. `None`: it is the word of none.
    #[tactic(auto, using(crate::proofs::Worded::sex_exact))]
    pub fn from_word(word: &str) -> Option<Sex>
        ensures { MatchOption result ((s : Sex) → word.now ≢ sex_word s) (λ s. word.now ≡ sex_word s) }
    {
        Sex::of_word(word)
    }

    fn of_word(word: &str) -> Option<Sex>
        ensures { result ≡ sex_of word.now }
    {
        match word {
            "M" => Some(Sex::Male),
            "F" => Some(Sex::Female),
            "U" => Some(Sex::Unknown),
            _ => None,
        }
    }
}

/// As what a person is a partner in a family: the lines HUSB and WIFE of GEDCOM 5.5.1, chapter 2.
#[derive(Clone, Copy, Debug, PartialEq, Eq)]
pub enum Partnership {
    Husband,
    Wife,
}

impl Partnership {
    /// The word of the partnership: `husband` or `wife`.
    pub fn as_str(self) -> &'static str
        ensures { result.now ≡ partnership_word self }
    {
        match self {
            Partnership::Husband => "husband",
            Partnership::Wife => "wife",
        }
    }

    /// The partnership of a word. `None`: it is the word of none.
    #[tactic(auto, using(crate::proofs::Worded::partnership_exact))]
    pub fn from_word(word: &str) -> Option<Partnership>
        ensures { MatchOption result ((p : Partnership) → word.now ≢ partnership_word p)
            (λ p. word.now ≡ partnership_word p) }
    {
        Partnership::of_word(word)
    }

    fn of_word(word: &str) -> Option<Partnership>
        ensures { result ≡ partnership_of word.now }
    {
        match word {
            "husband" => Some(Partnership::Husband),
            "wife" => Some(Partnership::Wife),
            _ => None,
        }
    }
}
