//! Corrections of places and repositories.

ghost use Rattle.std.specs.Prelude.{◌≡◌, IfOk};
ghost use Rattle.corrections.specs.Corrections as corrections;

use crate::correction::Correction;
use crate::field::TextField;
use field_rows::made_normal;
use record_kinds::{Place, Repo};
use record_text::RefusalKind;
use std::alloc::{AllocError, Global};

/// A place with another name.
pub(crate) fn place_named(
    alloc: Global,
    place: Place,
    correction: Correction,
) -> Result<Result<Place, RefusalKind>, AllocError>
    ensures { IfOk result (λ outcome. outcome ≡ corrections.place_named correction place) }
{
    match correction {
        Correction::Text(TextField::Name, text) => {
            if !is_place_name(alloc, text.as_str())? {
                return Ok(Err(RefusalKind::BadText));
            }
            let mut place = place;
            place.name = text;
            Ok(Ok(place))
        }
        _ => Ok(Err(RefusalKind::NoSuchField)),
    }
}

/// Whether a place may be called so: the name is not empty, and normal.
fn is_place_name(alloc: Global, name: &str) -> Result<bool, AllocError>
    ensures { IfOk result (λ is. is ≡ corrections.is_place_name name.now) }
{
    if name.is_empty() {
        return Ok(false);
    }
    let normal = made_normal(alloc, name)?;
    Ok(normal.as_str() == name)
}

/// A repository with another name.
pub(crate) fn repo_named(repo: Repo, correction: Correction) -> Result<Repo, RefusalKind>
    ensures { result ≡ corrections.repo_named correction repo }
{
    match correction {
        Correction::Text(TextField::Name, text) => {
            let mut repo = repo;
            repo.name = Some(text);
            Ok(repo)
        }
        _ => Err(RefusalKind::NoSuchField),
    }
}
