//! The report of an import over an archive, as a view shows it.

ghost use Rattle.std.specs.Prelude.{◌≡◌, ◌≢◌, ◌⊎◌, Err, IfErr, IfOk, None, Ok, false, option_map, string_bytes, true};
ghost use Rattle.archive_state.specs.Looks.{CountsFailures, Looked, is_failure, is_stop as stop_test};
ghost use Rattle.archive_state.specs.Views.{On};
ghost use Rattle.import_definitions.specs.Roots.{candidates, kept};
ghost use Rattle.record_text.specs.declared.refusal.RefusalKind.TheVariants.{OutOfMemory};
ghost use Rattle.import_reports.specs.Records.{records_from};
ghost use Rattle.import_reports.specs.Reports as reports;

use crate::heads::head_text;
use crate::numbered::records_text;
use archive_input::push_lines;
use archive_state::View;
use gedcom_tree::Forest;
use import_definitions::roots_of;
use imports::{report_of, root_numbers};
use receipts::{Report, Token};
use record_text::RefusalKind;
use std::alloc::{AllocError, Global};

/// The report of the import of a forest under a token. `None`: the token has an answer, or the archive does not take
/// the forest. Refusals are those of the view: 1, 40 or 80.
pub(crate) fn report_on<V: View>(
    alloc: Global,
    view: &mut V,
    token: &Token,
    forest: &Forest,
) -> Result<Option<String>, RefusalKind>
    ensures shows { On V.View view.old view.new (λ c. Looked result
        (λ text. reports.IsForeseen c token.now forest.now (option_map string_bytes text))) }
    ensures counts { CountsFailures (V.failed view.old) (V.failed view.new) result }
{
    match view.receipt(alloc, token)? {
        Some(_) => Ok(None),
        None => report_anew(alloc, view, forest),
    }
}

/// The same under a token that was not used.
fn report_anew<V: View>(
    alloc: Global,
    view: &mut V,
    forest: &Forest,
) -> Result<Option<String>, RefusalKind>
    ensures shows { On V.View view.old view.new (λ c. Looked result
        (λ text. reports.IsTrial c forest.now (option_map string_bytes text))) }
    ensures counts { CountsFailures (V.failed view.old) (V.failed view.new) result }
{
    match root_numbers(alloc, forest, view) {
        Ok(numbers) => report_with(alloc, forest, &numbers),
        Err(why) => unless_stop(why.kind),
    }
}

/// None, unless it is a stop.
fn unless_stop(kind: RefusalKind) -> Result<Option<String>, RefusalKind>
    ensures untaken { stop_test kind ≡ false → result ≡ Ok None }
    ensures stopped { stop_test kind ≡ true → result ≡ Err kind }
{
    if is_stop(kind) { Err(kind) } else { Ok(None) }
}

/// Whether a refusal may come in place of any other answer: 1, 40 or 80.
fn is_stop(kind: RefusalKind) -> bool
    ensures { result ≡ stop_test kind }
{
    matches!(
        kind,
        RefusalKind::OutOfMemory | RefusalKind::BadStored | RefusalKind::Storage
    )
}

/// The report with these numbers. `None`: an empty archive does not take the forest.
fn report_with(
    alloc: Global,
    forest: &Forest,
    numbers: &[u32],
) -> Result<Option<String>, RefusalKind>
    ensures text { Looked result
        (λ text. reports.IsReport numbers.now forest.now (option_map string_bytes text)) }
    ensures memory { IfErr result (λ kind. is_failure kind ≡ false) }
{
    match report_of(alloc, forest) {
        Ok(report) => Ok(Some(whole_text(alloc, forest, numbers, &report)?)),
        Err(why) => none_for(why.kind),
    }
}

/// None, unless memory was refused.
fn none_for(kind: RefusalKind) -> Result<Option<String>, RefusalKind>
    ensures { (result ≡ Err OutOfMemory) ⊎ ((result ≡ Ok None) × (kind ≢ OutOfMemory)) }
{
    match kind {
        RefusalKind::OutOfMemory => Err(RefusalKind::OutOfMemory),
        _ => Ok(None),
    }
}

/// The report with these numbers and these lines. Refused only if out of memory.
fn whole_text(
    alloc: Global,
    forest: &Forest,
    numbers: &[u32],
    report: &Report,
) -> Result<String, AllocError>
    ensures { IfOk result (λ s. string_bytes s ≡ reports.text_with numbers.now report.now forest.now) }
{
    let mut text = head_text(alloc, forest)?;
    text.push_str(numbered_text(alloc, forest, numbers)?.as_str())?;
    push_lines(alloc, &mut text, report.lines.as_slice())?;
    Ok(text)
}

/// The lines of the records with these numbers.
fn numbered_text(alloc: Global, forest: &Forest, numbers: &[u32]) -> Result<String, AllocError>
    ensures { IfOk result (λ s. string_bytes s ≡ records_from numbers.now 0 (kept (candidates forest.now))) }
{
    let mut dangling = Vec::new(alloc);
    let roots = roots_of(alloc, forest, &mut dangling)?;
    records_text(alloc, &roots, numbers)
}
