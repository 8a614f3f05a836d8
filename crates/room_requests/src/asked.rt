//! What a head asks for.

ghost use Rattle.std.specs.Prelude.{◌≡◌, IfOk};
ghost use Rattle.room_requests.specs.Asked as spec;

use crate::head::Head;
use crate::page::{Page, find_page};
use crate::query::Query;
use crate::target::{local_target, split_query};
use http::{Method, StatusCode};
use std::alloc::{AllocError, Global};

/// What a head asks for.
#[derive(Debug, Drop)]
pub enum Asked {
    /// It is refused with this status, whatever the records are: 400, 405 or 404.
    Refused(StatusCode),
    /// A page. Its record may be missing (404), and then its query may be wrong (400).
    Page { page: Page, query: Query },
}

/// What a head asks for.
///
/// 400: more than one Host, or none of HTTP/1.1; a target that does not begin with a slash. 405: a method other than
/// GET and HEAD, on any path. 404: a path that names no page. They come in this order.
pub fn read_request(alloc: Global, head: &Head) -> Result<Asked, AllocError>
    ensures { IfOk result (λ found. found ≡ spec.asked_by head.now) }
{
    let target = local_target(&head.target);
    if !has_right_hosts(head) || !target.starts_with('/') {
        return Ok(Asked::Refused(StatusCode::BAD_REQUEST));
    }
    if !only_reads(head) {
        return Ok(Asked::Refused(StatusCode::METHOD_NOT_ALLOWED));
    }
    let (path, query) = split_query(target);
    match find_page(alloc, path)? {
        Some(page) => Ok(Asked::Page {
            page,
            query: Query::new(String::from_str(alloc, query)?),
        }),
        None => Ok(Asked::Refused(StatusCode::NOT_FOUND)),
    }
}

/// Whether the request is a HEAD, which is answered without its page.
pub fn is_head(head: &Head) -> bool
    ensures { result ≡ spec.is_head head.now }
{
    head.method.as_slice() == Method::HEAD.as_str().as_bytes()
}

/// Whether the method is GET or HEAD.
pub fn only_reads(head: &Head) -> bool
    ensures { result ≡ spec.only_reads head.now }
{
    head.method.as_slice() == Method::GET.as_str().as_bytes() || is_head(head)
}

/// Whether there is one Host, or none of HTTP/1.0.
pub fn has_right_hosts(head: &Head) -> bool
    ensures { result ≡ spec.has_right_hosts head.now }
{
    head.hosts == 1 || (head.hosts == 0 && head.minor == 0)
}
