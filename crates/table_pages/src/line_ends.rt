//! The bytes of a sheet as lines.

ghost use Rattle.std.specs.Prelude.{◌≡◌, ◌++◌, ◌∷◌, [], IfOk, false};
ghost use Rattle.table_pages.specs.LineEnds.{line_feeds as line_feeds_of, without_mark as without_mark_of};

use std::alloc::{AllocError, Global};

/// Without the byte order mark of UTF-8 before them.
pub(crate) fn without_mark(bytes: &[u8]) -> &[u8]
    ensures { result.now ≡ without_mark_of bytes.now }
{
    match bytes {
        [0xEF, 0xBB, 0xBF, more @ ..] => more,
        _ => bytes,
    }
}

/// The bytes with LF for each CR LF and each CR.
pub(crate) fn line_feeds(alloc: Global, bytes: &[u8]) -> Result<Vec<u8>, AllocError>
    ensures { IfOk result (λ all. all.items ≡ line_feeds_of false bytes.now) }
{
    let mut all = Vec::new(alloc);
    let mut after_return = false;
    for byte in bytes {
        if *byte == b'\r' {
            all.push(b'\n')?;
        } else if !(*byte == b'\n' && after_return) {
            all.push(*byte)?;
        }
        after_return = *byte == b'\r';
    }
    Ok(all)
}
