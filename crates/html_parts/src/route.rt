//! Where a link goes.

ghost use Rattle.std.specs.Prelude.{◌≡◌, ◌++◌, [], IfOk, decimal, string_bytes};
ghost use Rattle.form_urlencoded.specs.Form.{append_pair};
ghost use Rattle.html_parts.specs.Addresses.{
  address_of,
  search_address as address_of_search,
  surname_address as address_of_surname,
};

use crate::words::Words;
use form_urlencoded::Serializer;
use std::alloc::{AllocError, Global};

/// A page of the room. A number is that of the record that it is of.
#[derive(Debug, Drop)]
pub enum Route {
    /// The first page.
    Home,
    Person(u32),
    Family(u32),
    /// The ancestors of a person.
    Pedigree(u32),
    /// The first entries of a source.
    Register(u32),
    /// A page of the entries of a source.
    RegisterPage(u32, usize),
    /// The first persons of a surname.
    Surname(Words),
    /// A page of the persons of a surname.
    SurnamePage(Words, usize),
    /// The first of what is found by words.
    Search(Words),
    /// A page of what is found by words.
    SearchPage(Words, usize),
}

/// The address of a page.
pub(crate) fn address(alloc: Global, route: &Route) -> Result<String, AllocError>
    ensures { IfOk result (λ s. string_bytes s ≡ address_of route.now) }
{
    match route {
        Route::Home => String::from_str(alloc, "/"),
        Route::Person(number) => numbered(alloc, "/person/", *number),
        Route::Family(number) => numbered(alloc, "/family/", *number),
        Route::Pedigree(number) => numbered(alloc, "/pedigree/", *number),
        Route::Register(number) => numbered(alloc, "/register/", *number),
        Route::RegisterPage(number, page) => {
            let front = numbered(alloc, "/register/", *number)?;
            paged(front, "?page=", *page)
        }
        Route::Surname(surname) => surname_address(alloc, surname.as_str()),
        Route::SurnamePage(surname, page) => {
            let front = surname_address(alloc, surname.as_str())?;
            paged(front, "&page=", *page)
        }
        Route::Search(words) => search_address(alloc, words.as_str()),
        Route::SearchPage(words, page) => {
            let front = search_address(alloc, words.as_str())?;
            paged(front, "&page=", *page)
        }
    }
}

/// A number after the beginning of an address.
fn numbered(alloc: Global, front: &str, number: u32) -> Result<String, AllocError>
    ensures { IfOk result (λ s. string_bytes s ≡ front.now ++ decimal number) }
{
    let mut out = String::new(alloc);
    write!(out, "{front}{number}")?;
    Ok(out)
}

/// An address, and the number of a page after it.
fn paged(front: String, mark: &str, page: usize) -> Result<String, AllocError>
    ensures { IfOk result (λ s. string_bytes s ≡ string_bytes front ++ (mark.now ++ decimal page)) }
{
    let mut out = front;
    write!(out, "{mark}{page}")?;
    Ok(out)
}

/// The address of a surname (URL Standard, section 5.2).
fn surname_address(alloc: Global, surname: &str) -> Result<String, AllocError>
    ensures { IfOk result (λ s. string_bytes s ≡ address_of_surname surname.now) }
{
    asked(alloc, "/surname?", "name", surname)
}

/// The address of what is found by words.
fn search_address(alloc: Global, words: &str) -> Result<String, AllocError>
    ensures { IfOk result (λ s. string_bytes s ≡ address_of_search words.now) }
{
    asked(alloc, "/search?", "q", words)
}

/// A path, and a query of one name and value.
fn asked(alloc: Global, path: &str, name: &str, value: &str) -> Result<String, AllocError>
    ensures { IfOk result (λ s. string_bytes s ≡ path.now ++ append_pair [] name.now value.now) }
{
    let mut form = Serializer::new(String::new(alloc));
    form.append_pair(name, value)?;
    let query = form.finish();
    let mut out = String::from_str(alloc, path)?;
    out.push_str(query.as_str())?;
    Ok(out)
}
