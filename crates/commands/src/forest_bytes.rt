//! The bytes of an import: `import`, LF, and the canonical text of its forest; and their digest.

ghost use Rattle.std.specs.Prelude.{◌≡◌, ◌++◌, ℕ, IfOk, List, OnOk, string_bytes};
ghost use Rattle.std.specs.List.{flat_map};
ghost use Rattle.sha2.specs.Hashers.{Holds256};
ghost use Rattle.gedcom_tree.specs.Flat.{flats};
ghost use Rattle.gedcom_tree.specs.Text.{IsLow, line_text, node_text, trailer};
ghost use Rattle.commands.specs.Bytes.{bytes_of, digest_of};
ghost use Rattle.commands.specs.declared.command.Command.TheVariants as command;

use gedcom_tree::{Forest, Node, push_node};
use sha2::{Digest, Sha256};
use std::alloc::{AllocError, Global};

/// The line that ends a text.
const TRAILER: &str = "0 TRLR\n";

/// The bytes of the command that imports a forest.
pub(crate) fn forest_bytes(alloc: Global, forest: &Forest) -> Result<Vec<u8>, AllocError>
    ensures { IfOk result (λ bytes. bytes.items ≡ bytes_of (command.Import forest.now)) }
{
    let mut out = String::from_str(alloc, "import\n")?;
    push_nodes(alloc, &mut out, forest.nodes())?;
    Ok(out.into_bytes())
}

/// Appends the lines of nodes of level 0 with all below them, and the trailer.
fn push_nodes(alloc: Global, out: &mut String, nodes: &[Node]) -> Result<(), AllocError>
    requires { IsLow (flats 0 nodes.now) }
    ensures { OnOk result (string_bytes out.new
        ≡ string_bytes out.old ++ (flat_map node_text (flats 0 nodes.now) ++ line_text trailer)) }
{
    for node in nodes {
        push_node(alloc, out, 0, node)?;
    }
    out.push_str(TRAILER)?;
    Ok(())
}

/// The digest of the command that imports a forest, as `command_digest` answers it, of a forest that need not be part
/// of a command. The text of one record is put together at a time. Refused only if out of memory.
pub fn forest_digest(alloc: Global, forest: &Forest) -> Result<[u8; 32], AllocError>
    ensures { IfOk result (λ digest. digest ≡ digest_of (command.Import forest.now)) }
{
    let mut hasher = Sha256::new();
    hasher.update(b"import\n");
    feed_nodes(alloc, &mut hasher, forest.nodes())?;
    Ok(hasher.finalize())
}

/// Feeds the lines of nodes of level 0 with all below them, and the trailer.
fn feed_nodes(alloc: Global, hasher: &mut Sha256, nodes: &[Node]) -> Result<(), AllocError>
    requires { IsLow (flats 0 nodes.now) }
    ensures { OnOk result ((m : List ℕ) → Holds256 hasher.old m
        → Holds256 hasher.new (m ++ (flat_map node_text (flats 0 nodes.now) ++ line_text trailer))) }
{
    let mut out = String::new(alloc);
    for node in nodes {
        out.clear();
        push_node(alloc, &mut out, 0, node)?;
        hasher.update(out.as_bytes());
    }
    hasher.update(TRAILER.as_bytes());
    Ok(())
}
