//! Which places are to be made so that a path has its place.

ghost use Rattle.std.specs.Prelude.{◌≡◌, ◌++◌, ◌∷◌, [], ℕ, IfOk, List, OnOk};
ghost use Rattle.std.specs.BTreeSet.{contains_text};
ghost use Rattle.archive_state.specs.Looks.{CountsFailures, Looked};
ghost use Rattle.archive_state.specs.Views.{On};
ghost use Rattle.commands.specs.Fields.{text_of};
ghost use Rattle.page_places.specs.News as news;
ghost use Rattle.page_places.specs.Ways as ways;

use crate::ways::{above, is_unnamed};
use archive_state::View;
use commands::{Field, FieldRow};
use record_text::{RefusalKind, Text};
use std::alloc::{AllocError, Global};
use std::collections::BTreeSet;

/// Which places are to be made for a path.
#[derive(Debug, Drop)]
pub struct News {
    /// Their paths, the largest first.
    pub paths: FieldRow,
    /// Whether one of them cannot be made, since it has no name: then neither are those below it.
    pub is_unnamed: bool,
}

/// Which places are to be made so that a path has its place, where those of the paths `made` are there already: they
/// are among these from now on. The path is normal. Refusals are those of the view: 1, 40 or 80.
pub fn news_for<V: View>(
    alloc: Global,
    view: &mut V,
    made: &mut BTreeSet<String>,
    path: &str,
) -> Result<News, RefusalKind>
    ensures shows { On V.View view.old view.new
        (λ c. Looked result (λ n. n ≡ news.news_for c.records (contains_text made.old) path.now)) }
    ensures added { IfOk result (λ n. (x : List ℕ) → contains_text made.new x
        ≡ news.is_made (contains_text made.old) n.paths x) }
    ensures counts { CountsFailures (V.failed view.old) (V.failed view.new) result }
{
    let mut paths = Vec::new(alloc);
    let is_unnamed = push_way(alloc, view, made, path, &mut paths)?;
    insert_all(alloc, made, &paths)?;
    Ok(News {
        paths: FieldRow::new(paths),
        is_unnamed,
    })
}

/// Adds what is to be made of a path and of those above it, the largest first: whether one of them cannot be.
fn push_way<V: View>(
    alloc: Global,
    view: &mut V,
    made: &BTreeSet<String>,
    path: &str,
    out: &mut Vec<Field>,
) -> Result<bool, RefusalKind>
    ensures shows { On V.View view.old view.new (λ c. Looked result
        (λ b. news.IsNews (news.news_for c.records (contains_text made.now) path.now)
        out.old.items out.new.items b)) }
    ensures counts { CountsFailures (V.failed view.old) (V.failed view.new) result }
{
    let Some(over) = above(path) else {
        return push_own(alloc, view, made, path, out);
    };
    if push_way(alloc, view, made, over, out)? {
        return Ok(true);
    }
    push_own(alloc, view, made, path, out)
}

/// Adds a path, if it is to be made: whether it cannot be.
fn push_own<V: View>(
    alloc: Global,
    view: &mut V,
    made: &BTreeSet<String>,
    path: &str,
    out: &mut Vec<Field>,
) -> Result<bool, RefusalKind>
    ensures shows { On V.View view.old view.new (λ c. Looked result
        (λ b. news.IsNews (news.own (news.is_there c.records (contains_text made.now) path.now) path.now)
        out.old.items out.new.items b)) }
    ensures counts { CountsFailures (V.failed view.old) (V.failed view.new) result }
{
    if is_there(alloc, view, made, path)? {
        return Ok(false);
    }
    if is_unnamed(path) {
        return Ok(true);
    }
    push(alloc, out, path)?;
    Ok(false)
}

/// Adds a path.
fn push(alloc: Global, out: &mut Vec<Field>, path: &str) -> Result<(), AllocError>
    ensures { OnOk result (out.new.items ≡ out.old.items ++ path.now ∷ []) }
{
    let path = field(alloc, path)?;
    out.push(path)?;
    Ok(())
}

fn field(alloc: Global, path: &str) -> Result<Field, AllocError>
    ensures { IfOk result (λ f. f ≡ path.now) }
{
    Ok(Field::new(String::from_str(alloc, path)?))
}

/// Whether a place has a path, in the archive or among those that are made.
fn is_there<V: View>(
    alloc: Global,
    view: &mut V,
    made: &BTreeSet<String>,
    path: &str,
) -> Result<bool, RefusalKind>
    ensures shows { On V.View view.old view.new
        (λ c. Looked result (λ b. b ≡ news.is_there c.records (contains_text made.now) path.now)) }
    ensures counts { CountsFailures (V.failed view.old) (V.failed view.new) result }
{
    if made.contains(path) {
        return Ok(true);
    }
    has_place(alloc, view, path)
}

/// Whether a place of the archive has a path.
fn has_place<V: View>(alloc: Global, view: &mut V, path: &str) -> Result<bool, RefusalKind>
    ensures shows { On V.View view.old view.new
        (λ c. Looked result (λ b. b ≡ news.has_place c.records (text_of path.now))) }
    ensures counts { CountsFailures (V.failed view.old) (V.failed view.new) result }
{
    match field(alloc, path)?.text(alloc)? {
        Some(text) => is_path(alloc, view, &text),
        None => Ok(false),
    }
}

fn is_path<V: View>(alloc: Global, view: &mut V, path: &Text) -> Result<bool, RefusalKind>
    ensures shows { On V.View view.old view.new
        (λ c. Looked result (λ b. b ≡ news.has_place c.records (Some path.now))) }
    ensures counts { CountsFailures (V.failed view.old) (V.failed view.new) result }
{
    match view.place_at(alloc, path)? {
        Some(_) => Ok(true),
        None => Ok(false),
    }
}

/// Puts paths among those that are made.
fn insert_all(alloc: Global, made: &mut BTreeSet<String>, paths: &[Field]) -> Result<(), AllocError>
    ensures { OnOk result ((x : List ℕ) → contains_text made.new x
        ≡ news.is_made (contains_text made.old) paths.now x) }
{
    for path in paths {
        insert(alloc, made, path.as_str())?;
    }
    Ok(())
}

fn insert(alloc: Global, made: &mut BTreeSet<String>, path: &str) -> Result<(), AllocError>
    ensures { OnOk result ((x : List ℕ) → contains_text made.new x
        ≡ news.is_made (contains_text made.old) (path.now ∷ []) x) }
{
    let path = String::from_str(alloc, path)?;
    made.insert(path)?;
    Ok(())
}
