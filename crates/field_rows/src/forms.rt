//! What a line is by itself.

ghost use Rattle.std.specs.Prelude.{◌≡◌};
ghost use Rattle.record_text.specs.Text.{IsPlain};
ghost use Rattle.record_shapes.specs.Forms as forms;

use record_text::{Tag, Text};
use std::alloc::Global;
use stored_lines::{Carried, Value};

/// A text, with lines below it or none.
pub fn is_text(line: &Carried) -> bool
    ensures { result ≡ forms.is_text line.now }
{
    match &line.value {
        Value::Text(_) => true,
        Value::Ref(_) => false,
    }
}

/// No line is below it.
#[tactic(auto, using(crate::proofs::Bare::childless_is))]
pub fn is_childless(line: &Carried) -> bool
    ensures { result ≡ forms.is_childless line.now }
{
    line.children.is_empty()
}

/// A text, and no line below it.
pub fn is_bare(line: &Carried) -> bool
    ensures { result ≡ forms.is_bare line.now }
{
    is_text(line) && is_childless(line)
}

/// The text of a line; of a pointer none.
pub fn text_of(line: &Carried) -> &str
    ensures same { result.now ≡ forms.text_of line.now }
    ensures plain { IsPlain result.now }
{
    match &line.value {
        Value::Text(text) => text.as_str(),
        Value::Ref(_) => "",
    }
}

/// The number that a pointer names; of a text 0.
pub fn number_of(line: &Carried) -> u32
    ensures { result ≡ forms.number_of line.now }
{
    match &line.value {
        Value::Text(_) => 0,
        Value::Ref(number) => *number,
    }
}

/// The text of a line, which is taken apart; of a pointer none.
pub fn into_text(alloc: Global, line: Carried) -> Text
    ensures { result ≡ forms.text_of line }
{
    let Carried {
        tag: _,
        value,
        children: _,
    } = line;
    match value {
        Value::Text(text) => text,
        Value::Ref(_) => Text::empty(alloc),
    }
}

/// The lines below a line, which is taken apart.
#[tactic(auto, using(crate::proofs::Bare::below_is))]
pub fn into_below(line: Carried) -> Vec<Carried>
    ensures { result.items ≡ forms.below line }
{
    let Carried {
        tag: _,
        value: _,
        children,
    } = line;
    children
}

/// A line taken apart: its tag, its text, which of a pointer is empty, and the lines below it.
#[derive(Drop)]
pub struct LineParts {
    pub tag: Tag,
    pub text: Text,
    pub below: Vec<Carried>,
}

/// The parts of a line.
#[tactic(auto, using(crate::proofs::Bare::below_is))]
pub fn take_apart(alloc: Global, line: Carried) -> LineParts
    ensures tag { result.tag ≡ forms.tag_of line }
    ensures text { result.text ≡ forms.text_of line }
    ensures below { result.below.items ≡ forms.below line }
{
    let Carried {
        tag,
        value,
        children,
    } = line;
    LineParts {
        tag,
        text: text_in(alloc, value),
        below: children,
    }
}

/// The text that a value is; of a pointer none.
fn text_in(alloc: Global, value: Value) -> Text
    ensures { result ≡ forms.text_in value }
{
    match value {
        Value::Text(text) => text,
        Value::Ref(_) => Text::empty(alloc),
    }
}
