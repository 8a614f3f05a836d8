//! The import of a forest that need not be part of a request.

ghost use Rattle.std.specs.Prelude.{◌≡◌, Some, IfOk};
ghost use Rattle.archive_state.specs.Looks.{CountsStops};
ghost use Rattle.archive_state.specs.Views.{On};
ghost use Rattle.gedcom_tree.specs.Text.{IsForest};
ghost use Rattle.imports.specs.Imports.{OnlyAdds, import_step};
ghost use Rattle.archive_core.specs.Applied.{Decides};
ghost use Rattle.archive_core.specs.Exact.{IsExactFor};
ghost use Rattle.archive_core.specs.Machine.{import_of, kept_under, outcome};
ghost use Rattle.command_checks.specs.Exact.{IsExact};

use crate::machine::{answer_again, with_receipt};
use archive_state::{Changes, View};
use commands::forest_digest;
use gedcom_tree::Forest;
use imports::tell_forest;
use receipts::Token;
use record_text::Refusal;
use std::alloc::Global;

/// What the request that imports a forest changes, and its answer: as `decide` answers of a request that has the
/// forest. Whoever imports step by step keeps what is answered, and can let the forest go.
pub fn decide_import<V: View>(
    alloc: Global,
    view: &mut V,
    token: &Token,
    forest: &Forest,
) -> Result<Changes, Refusal>
    ensures decides { On V.View view.old view.new
        (λ c. Decides c result (outcome c (import_of token.now forest.now))) }
    ensures exact { On V.View view.old view.new
        (λ c. IfOk result (IsExactFor c (import_of token.now forest.now))) }
    ensures adds { On V.View view.old view.new (λ c. IfOk result (OnlyAdds c)) }
    ensures counts { CountsStops (V.failed view.old) (V.failed view.new) result }
    ensures words { IsForest forest.now }
{
    tell_forest(forest);
    let digest = forest_digest(alloc, forest)?;
    match view.receipt(alloc, token)? {
        Some(receipt) => answer_again(alloc, view, &receipt, &digest),
        None => import_anew(alloc, view, token, forest, digest),
    }
}

/// What an import changes, with its answer to keep.
fn import_anew<V: View>(
    alloc: Global,
    view: &mut V,
    token: &Token,
    forest: &Forest,
    digest: [u8; 32],
) -> Result<Changes, Refusal>
    ensures decides { On V.View view.old view.new
        (λ c. Decides c result (kept_under token.now digest (import_step c forest.now))) }
    ensures exact { On V.View view.old view.new (λ c. IfOk result (IsExact c)) }
    ensures adds { On V.View view.old view.new (λ c. IfOk result (OnlyAdds c)) }
    ensures keeps { IfOk result (λ changes. changes.kept ≡ Some (record {
      token = token.now;
      receipt = record { digest = digest; answer = changes.answer };
    })) }
    ensures counts { CountsStops (V.failed view.old) (V.failed view.new) result }
{
    let token = token.copy(alloc)?;
    let changes = imports::decide_import(alloc, view, forest)?;
    Ok(with_receipt(changes, token, digest))
}
