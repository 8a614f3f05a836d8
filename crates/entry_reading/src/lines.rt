//! Lines by their tags.

ghost use Rattle.std.specs.Prelude.{◌≡◌, option_map};
ghost use Rattle.record_text.specs.Text.{IsPlain};
ghost use Rattle.record_shapes.specs.Forms as forms;
ghost use Rattle.record_shapes.specs.Entries as entries;

use field_rows::{number_of, text_of};
use stored_lines::Carried;

/// Whether the line has that tag.
pub(crate) fn is_tagged(line: &Carried, tag: &str) -> bool
    ensures { result ≡ forms.tagged tag.now line.now }
{
    line.tag.as_str() == tag
}

/// The lines below a line.
#[tactic(auto, using(field_rows::proofs::Bare::below_is))]
pub(crate) fn below(line: &Carried) -> &[Carried]
    ensures { result.now ≡ forms.below line.now }
{
    line.children.as_slice()
}

/// The first line of a tag.
pub(crate) fn first_of<'a>(lines: &'a [Carried], tag: &str) -> Option<&'a Carried>
    ensures { option_map (λ t. t.now) result ≡ entries.line_at tag.now lines.now }
{
    let mut rest = lines;
    while let Some((line, more)) = rest.split_first() {
        if is_tagged(line, tag) {
            return Some(line);
        }
        rest = more;
    }
    None
}

/// The text of the first line of a tag; none where there is no such line.
pub(crate) fn text_at<'a>(lines: &'a [Carried], tag: &str) -> &'a str
    ensures same { result.now ≡ entries.text_on (entries.line_at tag.now lines.now) }
    ensures plain { IsPlain result.now }
{
    match first_of(lines, tag) {
        Some(line) => text_of(line),
        None => "",
    }
}

/// The number on the first line of a tag; 0 where there is no such line.
pub(crate) fn number_at(lines: &[Carried], tag: &str) -> u32
    ensures { result ≡ entries.number_on (entries.line_at tag.now lines.now) }
{
    match first_of(lines, tag) {
        Some(line) => number_of(line),
        None => 0,
    }
}
