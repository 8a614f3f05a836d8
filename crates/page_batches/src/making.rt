//! A page whose places are made where an archive does not have them.

ghost use Rattle.std.specs.Prelude.{◌≡◌, ◌++◌, OnOk, Some};
ghost use Rattle.std.specs.BTreeSet.{contains_text};
ghost use Rattle.archive_state.specs.Looks.{Agrees, CountsFailures, Looked, is_stop};
ghost use Rattle.archive_state.specs.Views.{On};
ghost use Rattle.commands.specs.Fields.{text_of};
ghost use Rattle.page_batches.specs.Making as making;
ghost use Rattle.page_entries.specs.declared.places.PagePlace.TheVariants as place;
ghost use Rattle.page_places.specs.News.{news_for as news_of_path};

use crate::looks::{at_path, maybe_number, push};
use crate::places::Places;
use archive_state::View;
use command_checks::{Demand, check_demand};
use commands::{Field, FieldRow};
use page_entries::{PageEntry, PagePlace};
use page_places::{News, news_for};
use receipts::Token;
use record_text::RefusalKind;
use std::alloc::{AllocError, Global};
use std::collections::BTreeSet;

/// What is to be made before a page is entered.
#[derive(Debug, Drop)]
pub struct PageNews {
    /// What an archive has for the place of each entry; an entry whose place is to be made has none.
    pub places: Places,
    /// The paths of the places that are to be made, in this order: each after those that it is within.
    pub paths: FieldRow,
}

/// Which places are to be made before a page is entered, whose entries would be of a source: none where an answer is
/// stored under the token, and then no place is looked for. 50, 51: the number is of no record, or of another than a
/// source. All other refusals are those of the view: 1, 40 or 80.
pub fn news_on<V: View>(
    alloc: Global,
    view: &mut V,
    token: &Token,
    source: u32,
    entries: &[PageEntry],
) -> Result<PageNews, RefusalKind>
    ensures decides { On V.View view.old view.new
        (λ c. Agrees is_stop result (making.news_on c token.now source entries.now)) }
    ensures counts { CountsFailures (V.failed view.old) (V.failed view.new) result }
{
    if view.receipt(alloc, token)?.is_some() {
        return Ok(PageNews {
            places: Places::new(Vec::new(alloc)),
            paths: FieldRow::new(Vec::new(alloc)),
        });
    }
    check_demand(alloc, view, Demand::Source, source)?;
    news_of(alloc, view, entries)
}

/// The same of all entries.
fn news_of<V: View>(
    alloc: Global,
    view: &mut V,
    entries: &[PageEntry],
) -> Result<PageNews, RefusalKind>
    ensures shows { On V.View view.old view.new
        (λ c. Looked result (λ n. n ≡ making.news_of c making.none_made entries.now)) }
    ensures counts { CountsFailures (V.failed view.old) (V.failed view.new) result }
{
    let mut made = BTreeSet::new(alloc);
    let mut found = Vec::new(alloc);
    let mut paths = Vec::new(alloc);
    'entries: for entry in entries {
        let place = note(alloc, view, &mut made, &entry.place, &mut paths)?;
        push(&mut found, place)?;
    }
    Ok(PageNews {
        places: Places::new(found),
        paths: FieldRow::new(paths),
    })
}

/// Adds the paths that are to be made for the place of an entry: what the archive has for it.
fn note<V: View>(
    alloc: Global,
    view: &mut V,
    made: &mut BTreeSet<String>,
    place: &Option<PagePlace>,
    out: &mut Vec<Field>,
) -> Result<Result<Option<u32>, RefusalKind>, RefusalKind>
    ensures shows { On V.View view.old view.new (λ c. Looked result
        (λ found. making.IsNoted (making.news_at c (contains_text made.old) place.now)
        (making.found_at c (contains_text made.old) place.now) found out.old.items out.new.items
        (contains_text made.old) (contains_text made.new))) }
    ensures counts { CountsFailures (V.failed view.old) (V.failed view.new) result }
{
    match place {
        Some(PagePlace::Path(path)) => note_path(alloc, view, made, path, out),
        _ => maybe_number(alloc, view, place),
    }
}

/// The same of a path.
fn note_path<V: View>(
    alloc: Global,
    view: &mut V,
    made: &mut BTreeSet<String>,
    path: &Field,
    out: &mut Vec<Field>,
) -> Result<Result<Option<u32>, RefusalKind>, RefusalKind>
    ensures shows { On V.View view.old view.new (λ c. Looked result
        (λ found. making.IsNoted (making.news_at c (contains_text made.old) (Some (place.Path path.now)))
        (making.found_at c (contains_text made.old) (Some (place.Path path.now))) found
        out.old.items out.new.items (contains_text made.old) (contains_text made.new))) }
    ensures counts { CountsFailures (V.failed view.old) (V.failed view.new) result }
{
    match at_path(alloc, view, path)? {
        Err(RefusalKind::NoSuch) => note_new(alloc, view, made, path, out),
        found => Ok(found),
    }
}

/// The same of a path that no place has.
fn note_new<V: View>(
    alloc: Global,
    view: &mut V,
    made: &mut BTreeSet<String>,
    path: &Field,
    out: &mut Vec<Field>,
) -> Result<Result<Option<u32>, RefusalKind>, RefusalKind>
    ensures shows { On V.View view.old view.new (λ c. Looked result
        (λ found. making.IsNoted (news_of_path c.records (contains_text made.old) path.now)
        (making.unless_unnamed (news_of_path c.records (contains_text made.old) path.now)) found
        out.old.items out.new.items (contains_text made.old) (contains_text made.new))) }
    ensures counts { CountsFailures (V.failed view.old) (V.failed view.new) result }
{
    let News { paths, is_unnamed } = news_for(alloc, view, made, path.as_str())?;
    push_all(alloc, out, paths.fields())?;
    Ok(unless_unnamed(is_unnamed))
}

fn unless_unnamed(is_unnamed: bool) -> Result<Option<u32>, RefusalKind>
    ensures { result ≡ making.none_unless is_unnamed }
{
    if is_unnamed {
        Err(RefusalKind::BadText)
    } else {
        Ok(None)
    }
}

/// Adds paths.
fn push_all(alloc: Global, out: &mut Vec<Field>, paths: &[Field]) -> Result<(), AllocError>
    ensures { OnOk result (out.new.items ≡ out.old.items ++ paths.now) }
{
    for path in paths {
        let path = String::from_str(alloc, path.as_str())?;
        out.push(Field::new(path))?;
    }
    Ok(())
}
