//! Stored lines and branches compared.

ghost use Rattle.std.specs.Prelude.{◌≡◌, ◌↔◌, IsTrue};
ghost use Rattle.stored_lines.specs.Tree.{label};

use crate::branch::Branch;
use crate::stored::StoredLine;
use record_text::Text;

/// Whether the lines are the same.
pub fn are_same(a: &[StoredLine], b: &[StoredLine]) -> bool
    ensures { IsTrue result ↔ (a.now ≡ b.now) }
{
    if a.len() != b.len() {
        return false;
    }
    'pairs: for i in 0..a.len() {
        if !is_same(&a[i], &b[i]) {
            return false;
        }
    }
    true
}

fn is_same(a: &StoredLine, b: &StoredLine) -> bool
    ensures { IsTrue result ↔ (a.now ≡ b.now) }
{
    a.depth == b.depth
        && a.tag.as_str() == b.tag.as_str()
        && is_same_text(&a.text, &b.text)
        && a.target == b.target
}

/// Whether both branches are the same.
pub fn are_same_branches(a: &Branch, b: &Branch) -> bool
    ensures { IsTrue result ↔ (a.now ≡ b.now) }
{
    if !is_same_line(a, b) {
        return false;
    }
    if a.children.len() != b.children.len() {
        return false;
    }
    'children: for i in 0..a.children.len() {
        if !are_same_branches(&a.children[i], &b.children[i]) {
            return false;
        }
    }
    true
}

/// Whether both branches begin with the same line.
fn is_same_line(a: &Branch, b: &Branch) -> bool
    ensures { IsTrue result ↔ (label a.now ≡ label b.now) }
{
    a.tag.as_str() == b.tag.as_str() && is_same_text(&a.text, &b.text) && a.target == b.target
}

fn is_same_text(a: &Option<Text>, b: &Option<Text>) -> bool
    ensures { IsTrue result ↔ (a.now ≡ b.now) }
{
    match a {
        Some(x) => match b {
            Some(y) => x.as_str() == y.as_str(),
            None => false,
        },
        None => b.is_none(),
    }
}
