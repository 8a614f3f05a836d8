//! The header, and the first line of each record.

ghost use Rattle.std.specs.Prelude.{◌≡◌, ◌++◌, ◌≤◌, ◌∷◌, [], OnOk, string_bytes};
ghost use Rattle.gedcom_line.specs.Value.{Text};
ghost use Rattle.record_shapes.specs.Shapes.{line};
ghost use Rattle.stored_lines.specs.declared.carried.Value.TheVariants as value;
ghost use Rattle.node_writing.specs.Header.{file_head, form_lines, header, leaf, submitter};
ghost use Rattle.node_writing.specs.Pages.{nodes_text, record_page};

use crate::named::Named;
use gedcom_line::write_line;
use gedcom_tree::push_text;
use std::alloc::{AllocError, Global};
use stored_lines::Value;

/// Appends the first line of the record of a number, with its cross reference, a tag and a text.
pub fn push_head<N: Named>(
    alloc: Global,
    out: &mut String,
    index: &N,
    number: u32,
    tag: &str,
    text: &str,
) -> Result<(), AllocError>
    ensures { OnOk result (string_bytes out.new ≡ string_bytes out.old
        ++ record_page (N.names index.now) number (line tag.now (value.Text text.now) [])) }
{
    let name = index.name(alloc, number)?;
    push_text(alloc, out, 0, Some(name.as_str()), tag, text)
}

/// Appends the first line of a record of no other kind.
pub fn push_other_head<N: Named>(
    alloc: Global,
    out: &mut String,
    index: &N,
    number: u32,
    tag: &str,
    value: &Value,
) -> Result<(), AllocError>
    ensures { OnOk result (string_bytes out.new ≡ string_bytes out.old
        ++ record_page (N.names index.now) number (line tag.now value.now [])) }
{
    match value {
        Value::Text(text) => push_head(alloc, out, index, number, tag, text.as_str()),
        Value::Ref(named) => {
            let name = index.name(alloc, number)?;
            let pointer = index.name(alloc, *named)?;
            write_line(out, 0, Some(name.as_str()), tag, pointer.as_str())
        }
    }
}

/// Appends a node with a text and no cross reference.
fn push_leaf(
    alloc: Global,
    out: &mut String,
    level: u8,
    tag: &str,
    text: &str,
) -> Result<(), AllocError>
    requires { level ≤ 254 }
    ensures { OnOk result (string_bytes out.new ≡ string_bytes out.old
        ++ nodes_text level (leaf tag.now (Text text.now) ∷ [])) }
{
    push_text(alloc, out, level, None, tag, text)
}

/// Appends which form of GEDCOM the file has, and in which characters.
fn push_form(alloc: Global, out: &mut String) -> Result<(), AllocError>
    ensures { OnOk result (string_bytes out.new ≡ string_bytes out.old ++ nodes_text 1 form_lines) }
{
    push_leaf(alloc, out, 1, "GEDC", "")?;
    push_leaf(alloc, out, 2, "VERS", "5.5.1")?;
    push_leaf(alloc, out, 2, "FORM", "LINEAGE-LINKED")?;
    push_leaf(alloc, out, 1, "CHAR", "UTF-8")
}

/// Appends the header.
fn push_file_head(alloc: Global, out: &mut String) -> Result<(), AllocError>
    ensures { OnOk result (string_bytes out.new ≡ string_bytes out.old ++ nodes_text 0 (file_head ∷ [])) }
{
    push_leaf(alloc, out, 0, "HEAD", "")?;
    push_leaf(alloc, out, 1, "SOUR", "PARISH")?;
    write_line(out, 1, None, "SUBM", "@SOCIETY@")?;
    push_form(alloc, out)
}

/// Appends the society as the one that submits the file.
fn push_submitter(alloc: Global, out: &mut String, society: &str) -> Result<(), AllocError>
    ensures { OnOk result (string_bytes out.new ≡ string_bytes out.old
        ++ nodes_text 0 (submitter society.now ∷ [])) }
{
    push_text(alloc, out, 0, Some("@SOCIETY@"), "SUBM", "")?;
    push_leaf(alloc, out, 1, "NAME", society)
}

/// Appends the header, and the society as the one that submits the file (GEDCOM 5.5.1, chapter 2, HEADER and
/// SUBMITTER_RECORD).
pub fn push_header(alloc: Global, out: &mut String, society: &str) -> Result<(), AllocError>
    ensures { OnOk result (string_bytes out.new ≡ string_bytes out.old ++ nodes_text 0 (header society.now)) }
{
    push_file_head(alloc, out)?;
    push_submitter(alloc, out, society)
}
