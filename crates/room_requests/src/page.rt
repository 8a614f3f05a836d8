//! The pages of the reading room, and the paths that name them.

ghost use Rattle.std.specs.Prelude.{◌≡◌, IfOk};
ghost use Rattle.room_requests.specs.Matched.{room_routes, route_at, page_at};
ghost use Rattle.room_requests.specs.Pages.{page_of, number_behind as behind_front};

use crate::number::number_in;
use matchit::{InsertError, Router};
use std::alloc::{AllocError, Global};

/// A page that a visitor may ask for; a number is that of the record that it is of.
#[derive(Clone, Copy, Debug, PartialEq, Eq)]
pub enum Page {
    /// How many persons, families and registers there are.
    Index,
    Person(u32),
    Family(u32),
    /// The ancestors of a person.
    Pedigree(u32),
    /// The entries of a source.
    Register(u32),
    /// The persons of a surname.
    Surname,
}

/// A route, without its number.
#[derive(Clone, Copy, Debug, PartialEq, Eq)]
pub(crate) enum Route {
    Index,
    Person,
    Family,
    Pedigree,
    Register,
    Surname,
}

/// The page that a path names. `None`: there is none.
pub fn find_page(alloc: Global, path: &str) -> Result<Option<Page>, AllocError>
    ensures { IfOk result (λ found. found ≡ page_of path.now) }
{
    match find_route(alloc, path)? {
        Some(route) => Ok(page_at(route, path)),
        None => Ok(None),
    }
}

/// The route that a path takes.
fn find_route(alloc: Global, path: &str) -> Result<Option<Route>, AllocError>
    ensures { IfOk result (λ found. found ≡ route_at path.now) }
{
    let router = match routes(alloc) {
        Ok(router) => router,
        Err(_) => return Err(AllocError),
    };
    match router.at(path) {
        Ok(found) => Ok(Some(*found.value)),
        Err(_) => Ok(None),
    }
}

/// All routes. Refused only if out of memory.
fn routes(alloc: Global) -> Result<Router<Route>, InsertError>
    ensures { IfOk result (λ router. router ≡ room_routes) }
{
    let mut router = Router::new(alloc);
    router.insert("/", Route::Index)?;
    router.insert("/person/{number}", Route::Person)?;
    router.insert("/family/{number}", Route::Family)?;
    router.insert("/pedigree/{number}", Route::Pedigree)?;
    router.insert("/register/{number}", Route::Register)?;
    router.insert("/surname", Route::Surname)?;
    Ok(router)
}

/// The page of a path that takes that route. `None`: what stands after the route's front is no number.
fn page_at(route: Route, path: &str) -> Option<Page>
    ensures { result ≡ page_at route path.now }
{
    match route {
        Route::Index => Some(Page::Index),
        Route::Person => number_behind("/person/", path).map(Page::Person),
        Route::Family => number_behind("/family/", path).map(Page::Family),
        Route::Pedigree => number_behind("/pedigree/", path).map(Page::Pedigree),
        Route::Register => number_behind("/register/", path).map(Page::Register),
        Route::Surname => Some(Page::Surname),
    }
}

/// The number after a front, where the path begins with it.
fn number_behind(front: &str, path: &str) -> Option<u32>
    ensures { result ≡ behind_front front.now path.now }
{
    match path.strip_prefix(front) {
        Some(rest) => number_in(10, rest),
        None => None,
    }
}
