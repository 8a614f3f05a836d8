//! The head of a line: its level and its tag, and where its value begins.

ghost use Rattle.std.specs.Prelude.{◌≡◌, ◌≤◌, ◌+◌, ◌-◌, ◌*◌, ◌<◌, IfSome, Some, None, length, option_map};
ghost use Rattle.std.specs.List.{prefix_len, list_all};
ghost use Rattle.std.specs.Str.{bytes_eq};
ghost use Rattle.character_sets.specs.Heads.{
  after as after_of,
  closed as closed_of,
  head_of,
  in_class,
  is_digit as is_digit_of,
  level_of,
  past_name as past_name_of,
  spaced as spaced_of,
  tag_of as tag_in,
  tagged as tagged_of,
  value_of,
};

/// The tags that matter here. A few programs write HEADER for HEAD and CHARACTER for CHAR.
#[derive(Clone, Copy, Debug, PartialEq, Eq)]
pub enum KnownTag {
    Head,
    Char,
    Conc,
    Cont,
    Other,
}

/// A kind of units.
#[derive(Clone, Copy)]
pub(crate) enum Class {
    /// Spaces and tabs.
    White,
    /// Spaces.
    Space,
    /// Tabs.
    Tab,
    /// Letters, digits and underscores.
    Word,
    /// All but `@`.
    NotAt,
}

/// What a line begins with.
#[derive(Clone, Copy, Debug, PartialEq, Eq)]
pub struct LineHead {
    /// From 0 to 99.
    pub level: u16,
    pub tag: KnownTag,
    /// How many units stand before the tag.
    pub tag_at: usize,
    /// How many units stand before the value.
    pub value_at: usize,
    /// Whether a space parts the tag and the value.
    pub is_parted: bool,
}

impl Class {
    ghost use Rattle.std.specs.List.{prefix_len};
    ghost use Rattle.character_sets.specs.Heads.{in_class};

    fn has(self, unit: u16) -> bool
        ensures { result ≡ in_class self unit }
    {
        match self {
            Class::White => unit == 32 || unit == 9,
            Class::Space => unit == 32,
            Class::Tab => unit == 9,
            Class::Word => {
                is_digit(unit)
                    || (65 <= unit && unit <= 90)
                    || unit == 95
                    || (97 <= unit && unit <= 122)
            }
            Class::NotAt => unit != 64,
        }
    }

    /// How many units at the front are of the class.
    pub(crate) fn len_in(self, units: &[u16]) -> usize
        ensures count { result ≡ prefix_len (in_class self) units.now }
        ensures within { result ≤ length units.now }
    {
        units.iter().take_while(|unit| self.has(**unit)).count()
    }

    /// Whether all units are of the class.
    pub(crate) fn has_all(self, units: &[u16]) -> bool
        ensures { result ≡ list_all (in_class self) units.now }
    {
        units.iter().all(|unit| self.has(*unit))
    }

    /// What comes after the units at the front that are of the class.
    pub(crate) fn after(self, units: &[u16]) -> &[u16]
        ensures { result.now ≡ after_of self units.now }
    {
        &units[self.len_in(units)..]
    }
}

/// Units without the spaces and tabs at the front.
pub fn past_white(units: &[u16]) -> &[u16]
    ensures { result.now ≡ after_of Class.White units.now }
{
    Class::White.after(units)
}

fn is_digit(unit: u16) -> bool
    ensures { result ≡ is_digit_of unit }
{
    48 <= unit && unit <= 57
}

/// What a line begins with. `None`: it has no level, no tag, or another character after its tag.
#[tactic(auto, unfolding(crate::specs::Heads::head_of))]
pub fn line_head(line: &[u16]) -> Option<LineHead>
    ensures is { result ≡ head_of line.now }
    ensures within { IfSome result (λ h. (h.tag_at ≤ length line.now) × (h.value_at ≤ length line.now)) }
{
    let (level, rest) = level(Class::White.after(line))?;
    let rest = spaced(rest)?;
    let rest = past_name(rest)?;
    tagged(level, line.len(), rest)
}

/// The level, and what comes after it.
fn level(units: &[u16]) -> Option<(u16, &[u16])>
    ensures { option_map (λ x. (x.0, x.1.now)) result ≡ level_of units.now }
{
    match units {
        [a, b, more @ ..] if is_digit(*a) && is_digit(*b) => Some((
            10 * (*a - 48) + (*b - 48),
            more,
        )),
        [a, more @ ..] if is_digit(*a) => Some((*a - 48, more)),
        _ => None,
    }
}

/// What comes after one space or more.
fn spaced(units: &[u16]) -> Option<&[u16]>
    ensures { option_map (λ x. x.now) result ≡ spaced_of units.now }
{
    match units {
        [32, more @ ..] => Some(Class::Space.after(more)),
        _ => None,
    }
}

/// What comes after a cross reference and spaces, if there is one.
fn past_name(units: &[u16]) -> Option<&[u16]>
    ensures { option_map (λ x. x.now) result ≡ past_name_of units.now }
{
    match units {
        [64, more @ ..] => closed(Class::NotAt.after(more)),
        _ => Some(units),
    }
}

fn closed(units: &[u16]) -> Option<&[u16]>
    ensures { option_map (λ x. x.now) result ≡ closed_of units.now }
{
    match units {
        [_, more @ ..] => spaced(more),
        [] => None,
    }
}

/// The head of a line of `total` units, of which these are left before the tag.
fn tagged(level: u16, total: usize, units: &[u16]) -> Option<LineHead>
    ensures is { result ≡ tagged_of level total units.now }
    ensures within { IfSome result (λ h. (h.tag_at ≤ total) × (h.value_at ≤ total)) }
{
    let count = Class::Word.len_in(units);
    if count == 0 {
        return None;
    }
    let (is_parted, value) = value(&units[count..])?;
    Some(LineHead {
        level,
        tag: tag(&units[..count]),
        tag_at: total.saturating_sub(units.len()),
        value_at: total.saturating_sub(value.len()),
        is_parted,
    })
}

/// Whether a space comes after the tag, and the value.
fn value(units: &[u16]) -> Option<(bool, &[u16])>
    ensures { option_map (λ x. (x.0, x.1.now)) result ≡ value_of units.now }
{
    match units {
        [32, more @ ..] => Some((true, more)),
        _ if Class::Tab.has_all(units) => Some((false, &units[units.len()..])),
        _ => None,
    }
}

fn tag(word: &[u16]) -> KnownTag
    ensures { result ≡ tag_in word.now }
{
    if is_word(word, &HEAD) || is_word(word, &HEADER) {
        KnownTag::Head
    } else if is_word(word, &CHAR) || is_word(word, &CHARACTER) {
        KnownTag::Char
    } else if is_word(word, &CONC) {
        KnownTag::Conc
    } else if is_word(word, &CONT) {
        KnownTag::Cont
    } else {
        KnownTag::Other
    }
}

/// The words of the tags, as units.
const HEAD: [u16; 4] = [72, 69, 65, 68];

const HEADER: [u16; 6] = [72, 69, 65, 68, 69, 82];

const CHAR: [u16; 4] = [67, 72, 65, 82];

const CHARACTER: [u16; 9] = [67, 72, 65, 82, 65, 67, 84, 69, 82];

const CONC: [u16; 4] = [67, 79, 78, 67];

const CONT: [u16; 4] = [67, 79, 78, 84];

fn is_word(units: &[u16], word: &[u16]) -> bool
    ensures { result ≡ bytes_eq units.now word.now }
{
    units == word
}
