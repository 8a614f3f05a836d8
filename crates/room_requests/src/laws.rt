//! What holds of the definitions.
//!
//! What holds of the definitions: the worked examples.
//!
//! What holds of the definitions: worked examples.
//!
//! What holds of the definitions.

ghost use Rattle.std.specs.Prelude.{◌≡◌, ◌⊎◌, ℕ, List, codes, Some, None, ◌∷◌, ◌++◌, [], true, false};
ghost use Rattle.room_requests.specs.Heads.{Begins, IsRefused};
ghost use Rattle.room_requests.specs.declared.head.HeadRead.{HeadRead};
ghost use Rattle.room_requests.specs.Pages.{page_of};
ghost use Rattle.room_requests.specs.Queries.{generations_of};
ghost use Rattle.room_requests.specs.Targets.{local_of, path_of, query_of};
ghost use Rattle.room_requests.specs.declared.page.Page.TheVariants as page;
ghost use Rattle.room_requests.specs.Replies.{reply, refusal};
ghost use Rattle.room_requests.specs.Visits.{Answering, Answers, AnswersBy, IsEither, IsEitherBy, Room};

/// Only the bytes decide what they begin with, but for a head that is malformed or cut, and too large: it
/// may be called either.
pub fn the_bytes_decide()
    ensures { (input : List ℕ) (a b : HeadRead) → Begins input a → Begins input b
        → (a ≡ b) ⊎ (IsRefused a × IsRefused b) }
{}

/// Leading zeros are taken; a path with a further slash, or without its number, names no page.
#[tactic(auto, unfolding(crate::specs::Pages::number_in))]
pub fn paths_name_pages()
    ensures index { page_of (codes "/") ≡ Some page.Index }
    ensures surname { page_of (codes "/surname") ≡ Some page.Surname }
    ensures zeros { page_of (codes "/person/0000000001") ≡ Some (page.Person 1) }
    ensures last { page_of (codes "/register/4294967295") ≡ Some (page.Register 4294967295) }
    ensures above { page_of (codes "/family/4294967296") ≡ None }
    ensures long { page_of (codes "/family/00000000001") ≡ None }
    ensures zero { page_of (codes "/pedigree/0") ≡ None }
    ensures empty { page_of (codes "/person/") ≡ None }
    ensures deeper { page_of (codes "/person/1/") ≡ None }
    ensures slashes { page_of (codes "//") ≡ None }
{}

/// A target with a scheme and an authority is read from the first slash after it, wherever that stands; the query
/// stands after the first question mark.
pub fn targets_are_cut()
    ensures whole { local_of (codes "http://a/person/1?x") ≡ codes "/person/1?x" }
    ensures bare { local_of (codes "http://a") ≡ codes "/" }
    ensures late { local_of (codes "http://a?x=/y") ≡ codes "/y" }
    ensures nobody { local_of (codes "http:///x") ≡ codes "/x" }
    ensures other { local_of (codes "HTTP://a/") ≡ codes "HTTP://a/" }
    ensures path { path_of (codes "/surname?a?b") ≡ codes "/surname" }
    ensures query { query_of (codes "/surname?a?b") ≡ codes "a?b" }
{}

/// A page of a letter that has two bytes, and LF; a refusal, and the same of a HEAD; the one that tells the methods.
pub fn answers_are_spelt()
    ensures shown { reply 200 (195 ∷ 188 ∷ 10 ∷ []) true ≡ codes "HTTP/1.1 200 OK\r\n"
        ++ codes "Content-Type: text/plain; charset=utf-8\r\nContent-Length: 3\r\n"
        ++ codes "Connection: close\r\n\r\n" ++ 195 ∷ 188 ∷ 10 ∷ [] }
    ensures refused { refusal 404 true ≡ codes "HTTP/1.1 404 Not Found\r\n"
        ++ codes "Content-Type: text/plain; charset=utf-8\r\nContent-Length: 10\r\n"
        ++ codes "Connection: close\r\n\r\nNot Found\n" }
    ensures head { refusal 404 false ≡ codes "HTTP/1.1 404 Not Found\r\n"
        ++ codes "Content-Type: text/plain; charset=utf-8\r\nContent-Length: 10\r\n"
        ++ codes "Connection: close\r\n\r\n" }
    ensures methods { refusal 405 true ≡ codes "HTTP/1.1 405 Method Not Allowed\r\nAllow: GET, HEAD\r\n"
        ++ codes "Content-Type: text/plain; charset=utf-8\r\nContent-Length: 19\r\n"
        ++ codes "Connection: close\r\n\r\nMethod Not Allowed\n" }
{}

/// Who answers alike to what bytes begin with, answers the same bytes alike, but for a head that is malformed or cut,
/// and too large: it may be answered as either.
pub fn the_answers_decide()
    ensures { (answer other : Answering) (input one two : List ℕ) → answer ≡ other → AnswersBy answer input one
        → AnswersBy other input two → (one ≡ two) ⊎ (IsEitherBy answer one × IsEitherBy other two) }
{
    the_bytes_decide();
}

/// Two rooms that show the same answer the same bytes alike, but for a head that is malformed or cut, and too large:
/// it may be answered with 400 or 431, neither of which tells of what the room shows.
pub fn what_is_shown_decides()
    ensures { (room other : Room) (input one two : List ℕ) → room ≡ other → Answers room input one
        → Answers other input two → (one ≡ two) ⊎ (IsEither one × IsEither two) }
{
    the_answers_decide();
}
