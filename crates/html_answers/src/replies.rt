//! The bytes of an answer.

ghost use Rattle.std.specs.Prelude.{◌≡◌, ◌++◌, IfOk, OnOk};
ghost use Rattle.html_answers.specs.Replies as replies;

use html_parts::{Words, error_page};
use http::StatusCode;
use room_requests::{push_allow, push_size, push_status};
use std::alloc::{AllocError, Global};

/// What an answer is written in.
#[derive(Clone, Copy, Debug, PartialEq, Eq)]
pub(crate) enum Media {
    Html,
    Css,
}

/// An answer with this page, which a HEAD is answered without.
pub(crate) fn reply(
    alloc: Global,
    status: StatusCode,
    media: Media,
    page: &str,
    with_page: bool,
) -> Result<Vec<u8>, AllocError>
    ensures { IfOk result (λ bytes. bytes.items ≡ replies.reply status media page.now with_page) }
{
    let mut bytes = Vec::new(alloc);
    push_head(&mut bytes, alloc, status, media, page.len())?;
    if with_page {
        bytes.extend_from_slice(page.as_bytes())?;
    }
    Ok(bytes)
}

/// The answer of a status that refuses: its page says what happened.
pub(crate) fn refusal(
    alloc: Global,
    society: &Words,
    status: StatusCode,
    with_page: bool,
) -> Result<Vec<u8>, AllocError>
    ensures { IfOk result (λ bytes. bytes.items ≡ replies.refusal society.now status with_page) }
{
    let page = error_page(alloc, society.as_str(), status)?;
    reply(alloc, status, Media::Html, page.as_str(), with_page)
}

/// Adds the head of an answer whose page has so many bytes.
fn push_head(
    bytes: &mut Vec<u8>,
    alloc: Global,
    status: StatusCode,
    media: Media,
    size: usize,
) -> Result<(), AllocError>
    ensures { OnOk result (bytes.new.items ≡ bytes.old.items ++ replies.head_of status media size) }
{
    push_status(bytes, status)?;
    push_allow(bytes, status)?;
    push_type(bytes, media)?;
    push_size(bytes, alloc, size)?;
    push_last(bytes)?;
    Ok(())
}

/// Adds what the page is written in.
fn push_type(bytes: &mut Vec<u8>, media: Media) -> Result<(), AllocError>
    ensures { OnOk result (bytes.new.items ≡ bytes.old.items ++ replies.type_line media) }
{
    bytes.extend_from_slice(type_line(media).as_bytes())?;
    Ok(())
}

/// Adds what the head of each answer ends with.
fn push_last(bytes: &mut Vec<u8>) -> Result<(), AllocError>
    ensures { OnOk result (bytes.new.items ≡ bytes.old.items ++ replies.last_lines) }
{
    bytes.extend_from_slice(policy_line().as_bytes())?;
    bytes.extend_from_slice(privacy_lines().as_bytes())?;
    bytes.extend_from_slice(close_line().as_bytes())?;
    Ok(())
}

#[tactic(auto, unfolding(crate::specs::Replies::type_line))]
fn type_line(media: Media) -> &'static str
    ensures { result.now ≡ replies.type_line media }
{
    match media {
        Media::Html => "Content-Type: text/html; charset=utf-8\r\n",
        Media::Css => "Content-Type: text/css; charset=utf-8\r\n",
    }
}

#[tactic(auto, unfolding(crate::specs::Replies::policy_line))]
fn policy_line() -> &'static str
    ensures { result.now ≡ replies.policy_line }
{
    "Content-Security-Policy: default-src 'none'; style-src 'self'; form-action 'self'; base-uri 'none'; \
     frame-ancestors 'none'\r\n"
}

#[tactic(auto, unfolding(crate::specs::Replies::privacy_lines))]
fn privacy_lines() -> &'static str
    ensures { result.now ≡ replies.privacy_lines }
{
    "X-Content-Type-Options: nosniff\r\nReferrer-Policy: no-referrer\r\nCache-Control: no-store\r\n"
}

#[tactic(auto, unfolding(crate::specs::Replies::close_line))]
fn close_line() -> &'static str
    ensures { result.now ≡ replies.close_line }
{
    "Connection: close\r\n\r\n"
}
