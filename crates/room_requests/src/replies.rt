//! The bytes of an answer.

ghost use Rattle.std.specs.Prelude.{◌≡◌, ◌++◌, IfOk, OnOk, length, string_bytes, decimal, codes};
ghost use Rattle.room_requests.specs.Replies.{phrase_of, status_line, allow_line, size_line, head_of};
ghost use Rattle.room_requests.specs.Replies.{reply, refusal, refusal_page as phrase_page};

use http::StatusCode;
use std::alloc::{AllocError, Global};

/// An answer with this page, which a HEAD is answered without.
pub fn reply(
    alloc: Global,
    status: StatusCode,
    page: &str,
    with_page: bool,
) -> Result<Vec<u8>, AllocError>
    ensures { IfOk result (λ bytes. bytes.items ≡ reply status page.now with_page) }
{
    let mut bytes = Vec::new(alloc);
    push_head(&mut bytes, alloc, status, page.len())?;
    if with_page {
        bytes.extend_from_slice(page.as_bytes())?;
    }
    Ok(bytes)
}

/// The answer of a status that refuses: its page is the phrase of the status and a line feed.
pub fn refusal(alloc: Global, status: StatusCode, with_page: bool) -> Result<Vec<u8>, AllocError>
    ensures { IfOk result (λ bytes. bytes.items ≡ refusal status with_page) }
{
    let page = refusal_page(alloc, status)?;
    reply(alloc, status, page.as_str(), with_page)
}

/// The page of a status that refuses.
fn refusal_page(alloc: Global, status: StatusCode) -> Result<String, AllocError>
    ensures { IfOk result (λ page. string_bytes page ≡ phrase_page status) }
{
    let mut page = String::from_str(alloc, phrase(status))?;
    page.push_str("\n")?;
    Ok(page)
}

/// Adds the head of an answer whose page has so many bytes.
fn push_head(
    bytes: &mut Vec<u8>,
    alloc: Global,
    status: StatusCode,
    size: usize,
) -> Result<(), AllocError>
    ensures { OnOk result (bytes.new.items ≡ bytes.old.items ++ head_of status size) }
{
    push_status(bytes, status)?;
    push_allow(bytes, status)?;
    bytes.extend_from_slice(b"Content-Type: text/plain; charset=utf-8\r\n")?;
    push_size(bytes, alloc, size)?;
    bytes.extend_from_slice(b"Connection: close\r\n\r\n")?;
    Ok(())
}

/// Adds the status line.
pub fn push_status(bytes: &mut Vec<u8>, status: StatusCode) -> Result<(), AllocError>
    ensures { OnOk result (bytes.new.items ≡ bytes.old.items ++ status_line status) }
{
    bytes.extend_from_slice(b"HTTP/1.1 ")?;
    bytes.extend_from_slice(status.as_str().as_bytes())?;
    bytes.extend_from_slice(b" ")?;
    bytes.extend_from_slice(phrase(status).as_bytes())?;
    bytes.extend_from_slice(b"\r\n")?;
    Ok(())
}

/// Adds which methods there are, only with 405.
pub fn push_allow(bytes: &mut Vec<u8>, status: StatusCode) -> Result<(), AllocError>
    ensures { OnOk result (bytes.new.items ≡ bytes.old.items ++ allow_line status) }
{
    if status == StatusCode::METHOD_NOT_ALLOWED {
        bytes.extend_from_slice(b"Allow: GET, HEAD\r\n")?;
    }
    Ok(())
}

/// Adds how many bytes the page has.
pub fn push_size(bytes: &mut Vec<u8>, alloc: Global, size: usize) -> Result<(), AllocError>
    ensures { OnOk result (bytes.new.items ≡ bytes.old.items ++ size_line size) }
{
    let line = format!(in alloc; "Content-Length: {size}\r\n")?;
    bytes.extend_from_slice(line.as_bytes())?;
    Ok(())
}

/// The canonical phrase of a status.
#[tactic(auto, unfolding(crate::specs::Replies::phrase_of))]
fn phrase(status: StatusCode) -> &'static str
    ensures { result.now ≡ phrase_of status }
{
    status.canonical_reason().unwrap_or("")
}
