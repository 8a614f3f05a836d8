//! A page, looked over against an archive.

ghost use Rattle.std.specs.Prelude.{◌≡◌, IfOk};
ghost use Rattle.archive_state.specs.Looks.{Agrees, CountsFailures, is_stop};
ghost use Rattle.archive_state.specs.Views.{On};
ghost use Rattle.page_checks.specs.Page as checks;
ghost use Rattle.page_answers.specs.Likes.{like_in};

use crate::findings::CheckedRow;
use crate::lines::{count_wrong, text_of};
use crate::rows::{Answers, checked_rows};
use archive_state::View;
use command_checks::{Demand, check_demand};
use commands::Field;
use page_answers::{answers_of, likes_for};
use page_entries::DateOrder;
use record_text::RefusalKind;
use std::alloc::{AllocError, Global};
use table_pages::{PageFault, Sheet, read_sheet};

/// What was found on a page.
#[derive(Debug, Drop)]
pub struct PageCheck {
    /// A line for all that was found, and at the end how many rows there are, and how many are wrong and doubtful.
    pub text: Field,
    /// Whether something on it would be refused.
    pub is_wrong: bool,
}

/// Looks a page in UTF-8 over, whose entries would be of a source. Nothing is changed. Where places are to be made that
/// its paths name, each is a doubt, with the paths of places that it is like. `Ok(Err(..))`: the page cannot be read as
/// a sheet. 50, 51: the number is of no record, or of another than a source. All other refusals are those of the view:
/// 1, 40 or 80.
pub fn check_page<V: View>(
    alloc: Global,
    view: &mut V,
    source: u32,
    order: Option<DateOrder>,
    makes: bool,
    bytes: &[u8],
) -> Result<Result<PageCheck, PageFault>, RefusalKind>
    ensures decides { On V.View view.old view.new
        (λ c. Agrees is_stop result (checks.page_check c source order makes bytes.now)) }
    ensures counts { CountsFailures (V.failed view.old) (V.failed view.new) result }
{
    match read_sheet(alloc, bytes)? {
        Ok(sheet) => check_sheet(alloc, view, source, order, makes, &sheet),
        Err(fault) => Ok(Err(fault)),
    }
}

fn check_sheet<V: View>(
    alloc: Global,
    view: &mut V,
    source: u32,
    order: Option<DateOrder>,
    makes: bool,
    sheet: &Sheet,
) -> Result<Result<PageCheck, PageFault>, RefusalKind>
    ensures decides { On V.View view.old view.new
        (λ c. Agrees is_stop result (checks.sheet_check c source order makes sheet.now)) }
    ensures counts { CountsFailures (V.failed view.old) (V.failed view.new) result }
{
    check_demand(alloc, view, Demand::Source, source)?;
    let rows = answers_of(alloc, view, source, makes, sheet)?;
    let likes = likes_for(alloc, view, &rows)?;
    let found = found_with(alloc, order, sheet, &Answers { rows, likes })?;
    Ok(Ok(found))
}

/// What is found with the answers of an archive.
fn found_with(
    alloc: Global,
    order: Option<DateOrder>,
    sheet: &Sheet,
    answers: &Answers,
) -> Result<PageCheck, AllocError>
    ensures { IfOk result (λ found. found
        ≡ checks.found_with order sheet.now answers.now.rows.items (like_in answers.now.likes)) }
{
    let rows = checked_rows(alloc, order, sheet, answers)?;
    found_in(alloc, &rows)
}

fn found_in(alloc: Global, rows: &[CheckedRow]) -> Result<PageCheck, AllocError>
    ensures { IfOk result (λ found. found ≡ checks.found_in rows.now) }
{
    let text = text_of(alloc, rows)?;
    Ok(PageCheck {
        text: Field::new(text),
        is_wrong: count_wrong(rows) > 0,
    })
}
