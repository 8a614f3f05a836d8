//! The tags of events.

ghost use Rattle.std.specs.Prelude.{◌≡◌};
ghost use Rattle.std.specs.List.{list_any};
ghost use Rattle.std.specs.Str.{bytes_eq};
ghost use Rattle.record_shapes.specs.Tags.{person_tags, family_tags};

/// The tags of the events of persons: GEDCOM 5.5.1, chapter 2.
const PERSON_TAGS: [&str; 37] = [
    "BIRT", "CHR", "BAPM", "DEAT", "BURI", "CREM", "ADOP", "BARM", "BASM", "BLES", "CHRA", "CONF",
    "FCOM", "ORDN", "NATU", "EMIG", "IMMI", "CENS", "PROB", "WILL", "GRAD", "RETI", "EVEN", "CAST",
    "DSCR", "EDUC", "IDNO", "NATI", "NCHI", "NMR", "OCCU", "PROP", "RELI", "RESI", "SSN", "TITL",
    "FACT",
];

/// The tags of the events of families: GEDCOM 5.5.1, chapter 2.
const FAMILY_TAGS: [&str; 12] = [
    "ANUL", "CENS", "DIV", "DIVF", "ENGA", "MARB", "MARC", "MARR", "MARL", "MARS", "RESI", "EVEN",
];

/// Whether persons have events of that tag.
pub fn is_person_tag(word: &str) -> bool
    ensures { result ≡ list_any (bytes_eq word.now) person_tags }
{
    is_one_of(word, &PERSON_TAGS)
}

/// Whether families have events of that tag.
pub fn is_family_tag(word: &str) -> bool
    ensures { result ≡ list_any (bytes_eq word.now) family_tags }
{
    is_one_of(word, &FAMILY_TAGS)
}

fn is_one_of(word: &str, tags: &[&str]) -> bool
    ensures { result ≡ list_any (λ tag. bytes_eq word.now tag.now) tags.now }
{
    tags.iter().any(|tag| word == *tag)
}
