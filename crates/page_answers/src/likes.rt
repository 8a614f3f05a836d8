//! The places of an archive that a path is like which is to be made.

ghost use Rattle.std.specs.Prelude.{◌≡◌};
ghost use Rattle.archive_state.specs.Looks.{CountsFailures, Looked};
ghost use Rattle.archive_state.specs.Views.{On};
ghost use Rattle.page_answers.specs.NewPlaces as likes;
ghost use Rattle.page_answers.specs.Likes.{like_in};

use crate::answers::RowAnswer;
use crate::index::PlaceIndex;
use crate::listing::places_of;
use archive_state::View;
use commands::Field;
use record_text::RefusalKind;
use std::alloc::Global;

/// The paths of the places of the archive, where something is to be made for one of the rows; else none are looked for.
pub fn likes_for<V: View>(
    alloc: Global,
    view: &mut V,
    answers: &[RowAnswer],
) -> Result<PlaceIndex, RefusalKind>
    ensures shows { On V.View view.old view.new
        (λ c. Looked result (λ index. like_in index ≡ likes.likes_on c answers.now)) }
    ensures counts { CountsFailures (V.failed view.old) (V.failed view.new) result }
{
    if has_news(answers) {
        return places_of(alloc, view);
    }
    Ok(PlaceIndex::new(alloc))
}

/// Whether something is to be made for one of the rows.
fn has_news(answers: &[RowAnswer]) -> bool
    ensures { result ≡ likes.has_news answers.now }
{
    answers
        .iter()
        .any(|answer| is_written(answer.news.fields()))
}

fn is_written(paths: &[Field]) -> bool
    ensures { result ≡ likes.is_written paths.now }
{
    match paths {
        [] => false,
        [_, ..] => true,
    }
}
