//! A page with its frame.

ghost use Rattle.std.specs.Prelude.{◌≡◌, IfOk, Some};
ghost use Rattle.html_parts.specs.Frame.{frame_parts};
ghost use Rattle.html_parts.specs.Parts.{page_bytes};

use html_parts::{Parts, Words, framed};
use std::alloc::{AllocError, Global};

/// The page with that title and those parts.
pub fn page_with(
    alloc: Global,
    society: &str,
    title: &str,
    main: Parts,
) -> Result<Option<Words>, AllocError>
    ensures { IfOk result
        (λ page. page ≡ Some (page_bytes (frame_parts society.now title.now main))) }
{
    Ok(Some(Words::new(framed(alloc, society, title, main)?)))
}
