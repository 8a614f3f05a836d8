//! The room.

ghost use Rattle.std.specs.Prelude.{◌≡◌, IfOk, not};
ghost use Rattle.room_requests.specs.Asked.{is_head as is_head_of};
ghost use Rattle.html_answers.specs.Answers as answers;
ghost use Rattle.html_answers.specs.Asked.{asked_by};
ghost use Rattle.html_answers.specs.Replies.{refusal as refusal_of};

use crate::asked::{HtmlAsked, read_request};
use crate::replies::{Media, refusal, reply};
use crate::showing::{HtmlFound, show};
use html_lists::HtmlLists;
use html_parts::Words;
use http::StatusCode;
use room_requests::{Answering, Head, HeadRead, is_head};
use std::alloc::{AllocError, Global};

/// A room where pages of HTML of a masked state lie open.
#[derive(Drop)]
pub struct HtmlRoom {
    pub lists: HtmlLists,
    /// A name by which the room may be asked for, beside those of this machine.
    pub host: Option<Words>,
}

impl Answering for HtmlRoom {
    ghost use Rattle.std.specs.Prelude.{⊤};

    ghost answers = { λ r. answers.answer_to r.lists.state.records r.lists.society r.host };

    ghost is_honest = { λ r. ⊤ };

    fn answer(&self, alloc: Global, shown: HeadRead) -> Result<Vec<u8>, AllocError> {
        match shown {
            HeadRead::Nothing => Ok(Vec::new(alloc)),
            HeadRead::Malformed => refuse(alloc, &self.lists, StatusCode::BAD_REQUEST, true),
            HeadRead::TooLarge => refuse(
                alloc,
                &self.lists,
                StatusCode::REQUEST_HEADER_FIELDS_TOO_LARGE,
                true,
            ),
            HeadRead::Whole(head) => answer_head(alloc, self, &head),
        }
    }
}

/// What the room of a society refuses a request with.
fn refuse(
    alloc: Global,
    lists: &HtmlLists,
    status: StatusCode,
    with_page: bool,
) -> Result<Vec<u8>, AllocError>
    ensures { IfOk result (λ bytes. bytes.items ≡ refusal_of lists.now.society status with_page) }
{
    refusal(alloc, lists.society(), status, with_page)
}

/// The answer to a whole head.
fn answer_head(alloc: Global, room: &HtmlRoom, head: &Head) -> Result<Vec<u8>, AllocError>
    ensures { IfOk result (λ bytes. bytes.items ≡ answers.answer_of room.now.lists.state.records
        room.now.lists.society (asked_by room.now.host head.now) (not (is_head_of head.now))) }
{
    let with_page = !is_head(head);
    match read_request(alloc, &room.host, head)? {
        HtmlAsked::Refused(status) => refuse(alloc, &room.lists, status, with_page),
        HtmlAsked::Page { page, query } => {
            let found = show(alloc, &room.lists, page, &query)?;
            answer_page(alloc, room.lists.society(), &found, with_page)
        }
    }
}

/// The answer of what is found of a page.
fn answer_page(
    alloc: Global,
    society: &Words,
    found: &HtmlFound,
    with_page: bool,
) -> Result<Vec<u8>, AllocError>
    ensures { IfOk result (λ bytes. bytes.items ≡ answers.page_answer society.now found.now with_page) }
{
    match found {
        HtmlFound::Page(text) => {
            reply(alloc, StatusCode::OK, Media::Html, text.as_str(), with_page)
        }
        HtmlFound::Style(text) => {
            reply(alloc, StatusCode::OK, Media::Css, text.as_str(), with_page)
        }
        HtmlFound::NotShown => refusal(alloc, society, StatusCode::NOT_FOUND, with_page),
        HtmlFound::WrongQuery => refusal(alloc, society, StatusCode::BAD_REQUEST, with_page),
    }
}
