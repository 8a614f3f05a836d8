//! The text of a forest.

ghost use Rattle.std.specs.Prelude.{
  ◌≡◌,
  ◌⊎◌,
  ◌++◌,
  ◌+◌,
  ◌<◌,
  ◌≤◌,
  ◌∷◌,
  [],
  true,
  OnOk,
  OnErr,
  IfErr,
  string_bytes,
  option_map,
  map,
  length,
};
ghost use Rattle.std.specs.List.{flat_map, list_all};
ghost use Rattle.std.specs.Io.KnownBytes.{Appends};
ghost use Rattle.gedcom_line.specs.Escape.{escaped};
ghost use Rattle.gedcom_line.specs.Value.{Text};
ghost use Rattle.gedcom_line.specs.Split.{part, canonical, is_short};
ghost use Rattle.gedcom_tree.specs.Forest.{part_line, mark_tag as tag_of_mark};
ghost use Rattle.gedcom_tree.specs.Text.{line_text, node_text, text, trailer, IsLow};
ghost use Rattle.gedcom_tree.specs.Flat.{flat, flats, said};
ghost use Rattle.devices.specs.Devices.{Rose, AppendsBeginning};
ghost use Rattle.gedcom_tree.specs.Streams.{Handed, NotWritten};
ghost use Rattle.gedcom_rules.specs.Views.{fault_view};

use crate::forest::Forest;
use crate::node::{Node, NodeValue};
use devices::{Device, TransferError, write_bytes};
use gedcom_line::{Mark, TextPart, escape, split_text, write_line};
use gedcom_rules::{TreeFault, TreeKind};
use std::alloc::{AllocError, Global};
use std::io::Write;

/// So many bytes of text are put together before the writer gets them.
const BUFFER: usize = 65_536;

/// A text of so many bytes has as it is written at most the characters of one line.
const SHORT: usize = 100;

/// The same of a text without `@`, which is written as it is.
const PLAIN: usize = 200;

/// The tag of a continuation.
fn mark_tag(mark: Mark) -> &'static str
    ensures { result.now ≡ tag_of_mark mark }
{
    match mark {
        Mark::Conc => "CONC",
        Mark::Cont => "CONT",
    }
}

/// Appends a line whose value is the text, without a copy where no `@` is to be doubled.
fn push_part(
    alloc: Global,
    out: &mut String,
    level: u8,
    xref: Option<&str>,
    tag: &str,
    value: &str,
) -> Result<(), AllocError>
    ensures { OnOk result (string_bytes out.new ≡ string_bytes out.old ++ line_text (record {
      level = level;
      xref = option_map (λ s. s.now) xref.entry;
      tag = tag.now;
      raw = escaped value.now;
    })) }
{
    if !value.as_bytes().contains(&b'@') {
        return write_line(out, level, xref, tag, value);
    }
    let raw = escape(alloc, value)?;
    write_line(out, level, xref, tag, &raw)
}

/// Whether the text has so few bytes that its characters have room on one line, without counting these.
fn is_few(text: &str) -> bool
    ensures { result ≡ true → is_short text.now ≡ true }
{
    if text.len() <= SHORT {
        return true;
    }
    text.len() <= PLAIN && !text.as_bytes().contains(&b'@')
}

/// Whether the text stands on one line: few bytes, and no LF.
fn is_one_part(text: &str) -> bool
    ensures { result ≡ true → canonical text.now ≡ record { mark = Mark.Cont; text = text.now } ∷ [] }
{
    is_few(text) && !text.as_bytes().contains(&b'\n')
}

/// Appends the continuations.
fn push_more(
    alloc: Global,
    out: &mut String,
    level: u8,
    more: &[TextPart<'_>],
) -> Result<(), AllocError>
    ensures { OnOk result (string_bytes out.new
        ≡ string_bytes out.old ++ flat_map line_text (map (part_line level) (map part more.now))) }
{
    for piece in more {
        push_part(alloc, out, level, None, mark_tag(piece.mark), piece.text)?;
    }
    Ok(())
}

/// Appends a line with a text, and its continuations, one level deeper. The text is escaped here, and cut where a line
/// would be too long.
pub fn push_text(
    alloc: Global,
    out: &mut String,
    level: u8,
    xref: Option<&str>,
    tag: &str,
    value: &str,
) -> Result<(), AllocError>
    requires { level ≤ 254 }
    ensures { OnOk result (string_bytes out.new ≡ string_bytes out.old ++ node_text (record {
      line = 0;
      level = level;
      xref = option_map (λ s. s.now) xref.entry;
      tag = tag.now;
      value = Text value.now;
    })) }
{
    if is_one_part(value) {
        return push_part(alloc, out, level, xref, tag, value);
    }
    let parts = split_text(alloc, value)?;
    match parts.as_slice() {
        [first, more @ ..] => {
            push_part(alloc, out, level, xref, tag, first.text)?;
            push_more(alloc, out, level + 1, more)
        }
        [] => push_part(alloc, out, level, xref, tag, ""),
    }
}

/// Appends the node's line with its continuations.
fn push_own(alloc: Global, out: &mut String, level: u8, node: &Node) -> Result<(), AllocError>
    requires { level ≤ 98 }
    ensures { OnOk result (string_bytes out.new ≡ string_bytes out.old ++ node_text (said level node.now)) }
{
    match &node.value {
        NodeValue::Text(value) => {
            push_text(
                alloc,
                out,
                level,
                node.xref.as_deref(),
                node.tag.as_str(),
                value,
            )
        }
        NodeValue::Pointer(name) => {
            write_line(out, level, node.xref.as_deref(), node.tag.as_str(), name)
        }
    }
}

/// Appends a node of level 0 to 98 and all below it, as they stand in the one text of a forest.
pub fn push_node(alloc: Global, out: &mut String, level: u8, node: &Node) -> Result<(), AllocError>
    requires { IsLow (flat node.now level) }
    ensures { OnOk result (string_bytes out.new
        ≡ string_bytes out.old ++ flat_map node_text (flat node.now level)) }
{
    push_own(alloc, out, level, node)?;
    for child in &node.children {
        push_node(alloc, out, level + 1, child)?;
    }
    Ok(())
}

/// Hands the buffer to the writer, and empties it.
fn hand_over<W: Write + Device>(
    writer: &mut W,
    before: u64,
    out: &mut String,
) -> Result<(), TreeFault>
    ensures ok { OnOk result (Appends (W.contents writer.old) (W.contents writer.new) (string_bytes out.old)
        × (string_bytes out.new ≡ [])) }
    ensures err { IfErr result (λ f. NotWritten (Rose before (W.failed writer.new)) (fault_view f)
        × AppendsBeginning (W.contents writer.old) (W.contents writer.new) (string_bytes out.old)) }
{
    let handed = write_bytes(writer, before, out.as_bytes());
    out.clear();
    match handed {
        Ok(()) => Ok(()),
        Err(TransferError::OutOfMemory) => Err(TreeFault {
            kind: TreeKind::OutOfMemory,
            at: None,
        }),
        Err(TransferError::Failed) => Err(TreeFault {
            kind: TreeKind::WriteFailed,
            at: None,
        }),
    }
}

/// Adds a node to the buffer, and hands it over where it is full.
fn put_node<W: Write + Device>(
    alloc: Global,
    writer: &mut W,
    before: u64,
    out: &mut String,
    node: &Node,
) -> Result<(), TreeFault>
    requires { IsLow (flat node.now 0) }
    ensures ok { OnOk result (Handed (W.contents writer.old) (W.contents writer.new)
        (string_bytes out.old ++ flat_map node_text (flat node.now 0)) (string_bytes out.new)) }
    ensures err { IfErr result (λ f. NotWritten (Rose before (W.failed writer.new)) (fault_view f)
        × AppendsBeginning (W.contents writer.old) (W.contents writer.new)
        (string_bytes out.old ++ flat_map node_text (flat node.now 0))) }
{
    if push_node(alloc, out, 0, node).is_err() {
        return Err(TreeFault {
            kind: TreeKind::OutOfMemory,
            at: None,
        });
    }
    if out.len() < BUFFER {
        return Ok(());
    }
    hand_over(writer, before, out)
}

/// Writes the nodes of level 0 with all below them, and the trailer.
fn write_nodes<W: Write + Device>(
    alloc: Global,
    nodes: &[Node],
    writer: &mut W,
    before: u64,
) -> Result<(), TreeFault>
    requires { IsLow (flats 0 nodes.now) }
    ensures ok { OnOk result (Appends (W.contents writer.old) (W.contents writer.new)
        (flat_map node_text (flats 0 nodes.now) ++ line_text trailer)) }
    ensures err { IfErr result (λ f. NotWritten (Rose before (W.failed writer.new)) (fault_view f)
        × AppendsBeginning (W.contents writer.old) (W.contents writer.new)
        (flat_map node_text (flats 0 nodes.now) ++ line_text trailer)) }
{
    let mut out = String::new(alloc);
    for node in nodes {
        match put_node(alloc, writer, before, &mut out, node) {
            Ok(()) => {}
            Err(fault) => return Err(fault),
        }
    }
    match write_line(&mut out, 0, None, "TRLR", "") {
        Ok(()) => hand_over(writer, before, &mut out),
        Err(_) => Err(TreeFault {
            kind: TreeKind::OutOfMemory,
            at: None,
        }),
    }
}

/// Writes the one text of the forest: its lines in canonical form, and the trailer.
///
/// The only faults are `OutOfMemory`, where memory for what is to be written is refused, and `WriteFailed`, which
/// comes only where the writer's count of failures has risen in this call.
pub fn write_forest<W: Write + Device>(
    alloc: Global,
    forest: &Forest,
    writer: &mut W,
) -> Result<(), TreeFault>
    ensures written { OnOk result (Appends (W.contents writer.old) (W.contents writer.new) (text forest.now)) }

    // At a fault a beginning of the text was written.
    ensures begun { OnErr result (AppendsBeginning (W.contents writer.old) (W.contents writer.new) (text forest.now)) }
    ensures fault { IfErr result (λ f. NotWritten (Rose (W.failed writer.old) (W.failed writer.new)) (fault_view f)) }
{
    let before = writer.failures();
    write_nodes(alloc, forest.nodes(), writer, before)
}
