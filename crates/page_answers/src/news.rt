//! What is to be made so that the rows of a page have their places.

ghost use Rattle.std.specs.Prelude.{◌≡◌, Some};
ghost use Rattle.std.specs.BTreeSet.{contains_text};
ghost use Rattle.archive_state.specs.Looks.{CountsFailures, Looked};
ghost use Rattle.archive_state.specs.Views.{On};
ghost use Rattle.page_entries.specs.Places.{place_in as place_of_cell};
ghost use Rattle.page_places.specs.News.{news_for as news_of_path};
ghost use Rattle.page_answers.specs.Answers as answers;

use crate::answers::path_refusal;
use archive_state::View;
use commands::{Field, FieldRow};
use page_entries::{PagePlace, cell_under, place_in};
use page_places::{News, news_for};
use record_text::RefusalKind;
use std::alloc::Global;
use std::collections::BTreeSet;
use table_pages::{Column, Sheet, SheetRow};

/// What is to be made for the place of a row, where that is asked for and its cell names by a path a place that is not
/// there; of the rows before it `made` are there.
pub(crate) fn row_news<V: View>(
    alloc: Global,
    view: &mut V,
    makes: bool,
    made: &mut BTreeSet<String>,
    sheet: &Sheet,
    row: &SheetRow,
) -> Result<Option<News>, RefusalKind>
    ensures shows { On V.View view.old view.new (λ c. Looked result
        (λ n. answers.IsNoted (answers.row_news c makes (contains_text made.old) sheet.now row.now) n
        (contains_text made.old) (contains_text made.new))) }
    ensures counts { CountsFailures (V.failed view.old) (V.failed view.new) result }
{
    if !makes {
        return Ok(None);
    }
    cell_news(alloc, view, made, cell_under(sheet, row, Column::Place))
}

fn cell_news<V: View>(
    alloc: Global,
    view: &mut V,
    made: &mut BTreeSet<String>,
    cell: &str,
) -> Result<Option<News>, RefusalKind>
    ensures shows { On V.View view.old view.new (λ c. Looked result
        (λ n. answers.IsNoted (answers.cell_news c (contains_text made.old) (place_of_cell cell.now)) n
        (contains_text made.old) (contains_text made.new))) }
    ensures counts { CountsFailures (V.failed view.old) (V.failed view.new) result }
{
    match place_in(alloc, cell)? {
        Ok(place) => place_news(alloc, view, made, &place),
        Err(_) => Ok(None),
    }
}

fn place_news<V: View>(
    alloc: Global,
    view: &mut V,
    made: &mut BTreeSet<String>,
    place: &Option<PagePlace>,
) -> Result<Option<News>, RefusalKind>
    ensures shows { On V.View view.old view.new (λ c. Looked result
        (λ n. answers.IsNoted (answers.place_news c (contains_text made.old) place.now) n
        (contains_text made.old) (contains_text made.new))) }
    ensures counts { CountsFailures (V.failed view.old) (V.failed view.new) result }
{
    match place {
        Some(PagePlace::Path(path)) => path_news(alloc, view, made, path),
        _ => Ok(None),
    }
}

fn path_news<V: View>(
    alloc: Global,
    view: &mut V,
    made: &mut BTreeSet<String>,
    path: &Field,
) -> Result<Option<News>, RefusalKind>
    ensures shows { On V.View view.old view.new (λ c. Looked result
        (λ n. answers.IsNoted
        (answers.news_by c (contains_text made.old) path.now (answers.path_refusal c path.now)) n
        (contains_text made.old) (contains_text made.new))) }
    ensures counts { CountsFailures (V.failed view.old) (V.failed view.new) result }
{
    match path_refusal(alloc, view, path)? {
        Some(RefusalKind::NoSuch) => new_news(alloc, view, made, path),
        _ => Ok(None),
    }
}

/// The same of a path that no place has.
fn new_news<V: View>(
    alloc: Global,
    view: &mut V,
    made: &mut BTreeSet<String>,
    path: &Field,
) -> Result<Option<News>, RefusalKind>
    ensures shows { On V.View view.old view.new (λ c. Looked result
        (λ n. answers.IsNoted (Some (news_of_path c.records (contains_text made.old) path.now)) n
        (contains_text made.old) (contains_text made.new))) }
    ensures counts { CountsFailures (V.failed view.old) (V.failed view.new) result }
{
    let news = news_for(alloc, view, made, path.as_str())?;
    Ok(Some(news))
}

/// A place that is to be made is no fault, unless it or one above it has no name.
pub(crate) fn refusal_with(place: Option<RefusalKind>, news: &Option<News>) -> Option<RefusalKind>
    ensures { result ≡ answers.refusal_with place news.now }
{
    match news {
        Some(news) => unless_named(news.is_unnamed),
        None => place,
    }
}

fn unless_named(is_unnamed: bool) -> Option<RefusalKind>
    ensures { result ≡ answers.unless_named is_unnamed }
{
    if is_unnamed {
        Some(RefusalKind::BadText)
    } else {
        None
    }
}

/// The paths that are to be made.
pub(crate) fn paths_of(alloc: Global, news: Option<News>) -> FieldRow
    ensures { result ≡ answers.paths_of news }
{
    match news {
        Some(
            News {
                paths,
                is_unnamed: _,
            },
        ) => paths,
        None => FieldRow::new(Vec::new(alloc)),
    }
}
