//! What a head asks for.

ghost use Rattle.std.specs.Prelude.{◌≡◌, IfOk};
ghost use Rattle.html_answers.specs.Asked as asks;

use crate::hosts::is_right_host;
use html_parts::Words;
use http::StatusCode;
use room_requests::{
    Head, Page, Query, find_page, has_right_hosts, local_target, only_reads, split_query,
};
use std::alloc::{AllocError, Global};

/// A page that a browser may ask for.
#[derive(Clone, Copy, Debug, PartialEq, Eq)]
pub(crate) enum HtmlPage {
    /// One that is also there as text.
    Room(Page),
    Search,
    Style,
}

/// What a head asks for.
#[derive(Debug, Drop)]
pub(crate) enum HtmlAsked {
    /// It is refused with this status, whatever the records are: 400, 405 or 404.
    Refused(StatusCode),
    /// A page. It may be missing (404), and its query may be wrong (400).
    Page { page: HtmlPage, query: Query },
}

/// What a head asks a room for that may have been given a name.
///
/// 400: more than one Host, or none of HTTP/1.1; a Host that is neither this machine nor the room; a target that does
/// not begin with a slash. 405: a method other than GET and HEAD, on any path. 404: a path that names no page. They
/// come in this order.
pub(crate) fn read_request(
    alloc: Global,
    own: &Option<Words>,
    head: &Head,
) -> Result<HtmlAsked, AllocError>
    ensures { IfOk result (λ found. found ≡ asks.asked_by own.now head.now) }
{
    if !has_right_hosts(head) || !is_right_host(own, head) {
        return Ok(HtmlAsked::Refused(StatusCode::BAD_REQUEST));
    }
    read_target(alloc, head, local_target(&head.target))
}

fn read_target(alloc: Global, head: &Head, target: &str) -> Result<HtmlAsked, AllocError>
    ensures { IfOk result (λ found. found ≡ asks.asked_at head.now target.now) }
{
    if !target.starts_with('/') {
        return Ok(HtmlAsked::Refused(StatusCode::BAD_REQUEST));
    }
    if !only_reads(head) {
        return Ok(HtmlAsked::Refused(StatusCode::METHOD_NOT_ALLOWED));
    }
    let (path, query) = split_query(target);
    match find_html_page(alloc, path)? {
        Some(page) => Ok(HtmlAsked::Page {
            page,
            query: Query::new(String::from_str(alloc, query)?),
        }),
        None => Ok(HtmlAsked::Refused(StatusCode::NOT_FOUND)),
    }
}

/// The page that a path names. `None`: there is none.
fn find_html_page(alloc: Global, path: &str) -> Result<Option<HtmlPage>, AllocError>
    ensures { IfOk result (λ found. found ≡ asks.html_page_of path.now) }
{
    if path == "/search" {
        return Ok(Some(HtmlPage::Search));
    }
    if path == "/style.css" {
        return Ok(Some(HtmlPage::Style));
    }
    match find_page(alloc, path)? {
        Some(page) => Ok(Some(HtmlPage::Room(page))),
        None => Ok(None),
    }
}
