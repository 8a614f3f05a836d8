//! What the type of a line says of its values.

ghost use Rattle.std.specs.Prelude.{IfSome};
ghost use Rattle.record_text.specs.Text.{IsText};
ghost use Rattle.packed_rows.specs.Packed.{IsTypedLine, IsU32};

use record_text::Text;
use stored_lines::StoredLine;

/// Does nothing: it tells a proof that the values of a line are those of its type.
pub(crate) fn tell_types(line: &StoredLine)
    ensures { IsTypedLine line.now }
{
    let _depth = line.depth;
    let _tag = line.tag.as_str();
    tell_text(&line.text);
    tell_number(line.target);
}

fn tell_text(text: &Option<Text>)
    ensures { IfSome text.now IsText }
{
    if let Some(text) = text {
        let _ = text.as_str();
    }
}

fn tell_number(number: Option<u32>)
    ensures { IfSome number IsU32 }
{
    if let Some(number) = number {
        let _ = number;
    }
}
