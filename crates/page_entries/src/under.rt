//! What is under a column, and the names under roles.

ghost use Rattle.std.specs.Prelude.{◌≡◌, ◌++◌, ◌∷◌, [], IfOk, MatchResult, OnOk, Err, Ok};
ghost use Rattle.page_entries.specs.Under as known;

use crate::checks::column_at;
use commands::{Field, GivenMention, GivenMentions};
use std::alloc::{AllocError, Global};
use table_pages::{Column, FaultKind};

/// The cell of a row under this column; empty where there is none.
pub(crate) fn under<'a>(column: Column, columns: &[Column], cells: &'a [Field]) -> &'a str
    ensures { result.now ≡ known.under column columns.now 0 cells.now }
{
    let mut at = 0;
    for cell in cells {
        if is_column(column_at(columns, at), column) {
            return cell.as_str();
        }
        at += 1;
    }
    ""
}

/// Whether one is the other, which stands once.
fn is_column(found: Option<Column>, column: Column) -> bool
    ensures { result ≡ known.is_column found column }
{
    match found {
        Some(found) => found.code() == column.code(),
        None => false,
    }
}

/// The cell at a place; empty where there is none.
pub fn cell_at(cells: &[Field], at: usize) -> &str
    ensures { result.now ≡ known.cell_at cells.now at }
{
    match cells.get(at) {
        Some(cell) => cell.as_str(),
        None => "",
    }
}

/// The names under roles, in the order of the columns: 1 to 100.
pub fn mentions_in(
    alloc: Global,
    columns: &[Column],
    cells: &[Field],
) -> Result<Result<GivenMentions, FaultKind>, AllocError>
    ensures { IfOk result (λ r. r ≡ known.counted (known.mentions columns.now 0 cells.now)) }
{
    let mentions = mentions_of(alloc, columns, cells)?;
    Ok(counted(mentions))
}

fn counted(mentions: Vec<GivenMention>) -> Result<GivenMentions, FaultKind>
    ensures { result ≡ known.counted mentions.items }
{
    let kind = if mentions.is_empty() {
        FaultKind::NoMention
    } else {
        FaultKind::ManyMentions
    };
    match GivenMentions::try_new(mentions) {
        Some(mentions) => {
            // shows a proof how many they are
            let _ = mentions.as_slice();
            Ok(mentions)
        }
        None => Err(kind),
    }
}

fn mentions_of(
    alloc: Global,
    columns: &[Column],
    cells: &[Field],
) -> Result<Vec<GivenMention>, AllocError>
    ensures { IfOk result (λ ms. ms.items ≡ known.mentions columns.now 0 cells.now) }
{
    let mut mentions = Vec::new(alloc);
    let mut at = 0;
    for cell in cells {
        push_mention(alloc, &mut mentions, column_at(columns, at), cell.as_str())?;
        at += 1;
    }
    Ok(mentions)
}

/// Adds the name under a role; an empty cell is none.
fn push_mention(
    alloc: Global,
    mentions: &mut Vec<GivenMention>,
    column: Option<Column>,
    cell: &str,
) -> Result<(), AllocError>
    ensures { OnOk result (mentions.new.items ≡ mentions.old.items ++ known.mention column cell.now) }
{
    match column {
        Some(Column::Mention(role, _)) if !cell.is_empty() => {
            let role = field(alloc, role.as_str())?;
            let name = field(alloc, cell)?;
            mentions.push(GivenMention { role, name })?;
            Ok(())
        }
        _ => Ok(()),
    }
}

pub(crate) fn field(alloc: Global, words: &str) -> Result<Field, AllocError>
    ensures { IfOk result (λ f. f ≡ words.now) }
{
    let string = String::from_str(alloc, words)?;
    Ok(Field::new(string))
}
