//! What a line is to the lines that may stand below it.

ghost use Rattle.std.specs.Prelude.{◌≡◌, ◌+◌, ◌-◌, ◌≤◌, [], length};
ghost use Rattle.gedcom_line.specs.Escape.{unescaped, past_pair};
ghost use Rattle.gedcom_line.specs.Split.{char_count};
ghost use Rattle.gedcom_line.specs.Reading.{parts, is_continuation as continuation_test};
ghost use Rattle.gedcom_rules.specs.Continuing.{adds};
ghost use Rattle.gedcom_rules.specs.Rules.{
  role_of as role_of_tag,
  standing as standing_of,
  is_continued as continued_test,
};
ghost use Rattle.gedcom_rules.specs.Judging.{continue_at};
ghost use Rattle.gedcom_rules.specs.Views.{standing_view};

use gedcom_line::{LineRef, Value};

/// The most bytes of a text.
const MAX_TEXT: usize = 1_048_576;

/// What the rules of a file know a tag by.
#[derive(Clone, Copy, Debug, PartialEq, Eq)]
pub(crate) enum Role {
    /// CONC or CONT.
    Continuation,
    /// CHAR, which in the header names the character set.
    Charset,
    /// GEDC.
    Gedcom,
    /// VERS, which below GEDC of the header names the version.
    Version,
    Other,
}

/// The role of a tag.
pub(crate) fn role_of(tag: &str) -> Role
    ensures { result ≡ role_of_tag tag.now }
{
    match tag {
        "CONC" | "CONT" => Role::Continuation,
        "CHAR" => Role::Charset,
        "GEDC" => Role::Gedcom,
        "VERS" => Role::Version,
        _ => Role::Other,
    }
}

/// How many bytes the text of a value has: of a pair of `@` one counts.
pub(crate) fn text_len(raw: &str) -> usize
    ensures value { result ≡ length (unescaped raw.now) }
    ensures bound { result ≤ length raw.now }
{
    if !raw.as_bytes().contains(&b'@') {
        return raw.len();
    }
    let mut len = 0usize;
    let mut is_second = false;
    for byte in raw.as_bytes() {
        if is_second && *byte == b'@' {
            is_second = false;
        } else {
            len += 1;
            is_second = *byte == b'@';
        }
    }
    len
}

/// How many bytes a continuation adds to a text: CONT a line break and its value, CONC its value.
pub(crate) fn added_len(line: &LineRef<'_>) -> usize
    ensures { result ≡ length (adds (parts line.now)) }
{
    let value = text_len(line.raw);
    if line.tag == "CONT" { value + 1 } else { value }
}

/// A line below which further lines may stand.
#[derive(Clone, Copy, Debug)]
pub(crate) struct Standing {
    pub(crate) role: Role,
    /// Whether its value is a text.
    pub(crate) is_text: bool,
    /// How many bytes the text may still get.
    pub(crate) room: usize,
}

impl Standing {
    /// Only the line.
    pub(crate) fn of_line(line: &LineRef<'_>) -> Self
        ensures { standing_view result ≡ standing_of (parts line.now) [] }
    {
        Standing {
            role: role_of(line.tag),
            is_text: match line.value() {
                Value::Text(_) => true,
                Value::Pointer(_) => false,
            },
            room: MAX_TEXT.saturating_sub(text_len(line.raw)),
        }
    }

    /// The same with a continuation more, which adds so many bytes.
    pub(crate) fn continued(self, more: usize) -> Self
        ensures { standing_view result ≡ record { role = self.role; text = self.is_text; room = self.room - more } }
    {
        Standing {
            role: self.role,
            is_text: self.is_text,
            room: self.room.saturating_sub(more),
        }
    }
}
