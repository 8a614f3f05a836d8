//! The machine: a request is done once, and is answered again by its token.

ghost use Rattle.std.specs.Prelude.{◌≡◌, Some, IfOk, IfErr, None, false};
ghost use Rattle.std.specs.FinMap as map;
ghost use Rattle.archive_state.specs.Looks.{CountsFailures, CountsStops, is_failure};
ghost use Rattle.archive_state.specs.Views.{On};
ghost use Rattle.archive_core.specs.Applied.{Decides};
ghost use Rattle.archive_core.specs.Exact.{IsExactFor};
ghost use Rattle.archive_core.specs.Machine.{Does, answered_again, kept_under, outcome, request_digest, served};
ghost use Rattle.archive_core.specs.Steps.{step};
ghost use Rattle.archive_core.specs.Words.{HasUtf8Words};
ghost use Rattle.command_checks.specs.Exact.{ChangesNothing, IsExact};
ghost use Rattle.entry_batches.specs.Applied.{PlansAt};
ghost use Rattle.imports.specs.Imports.{OnlyAdds};

use crate::applying::apply;
use crate::request::{Request, tell_words};
use archive_state::{Changes, Kept, State, View};
use archive_steps::decide_row;
use commands::{Command, command_digest};
use entry_batches::decide_entries;
use imports::decide_import;
use receipts::{Answer, Receipt, Token};
use record_text::{Refusal, RefusalKind};
use std::alloc::{AllocError, Global};

/// Makes what a request changes in a state, and answers it. It is refused as by `decide`, of the stops only with
/// `OutOfMemory`, and then the state is as it was.
pub fn step(alloc: Global, state: &mut State, request: &Request) -> Result<Answer, Refusal>
    ensures { Does state.old «request».now result state.new }
{
    let changes = decide_over(alloc, state, request)?;
    Ok(apply(alloc, state, changes)?)
}

/// What a request changes in a state.
fn decide_over(alloc: Global, state: &State, request: &Request) -> Result<Changes, Refusal>
    ensures decides { Decides state.now result (outcome state.now «request».now) }
    ensures memory { IfErr result (λ e. is_failure e.kind ≡ false) }
{
    let mut view: &State = state;
    decide(alloc, &mut view, request)
}

/// What a request changes, and its answer. A request whose token is kept is answered from what is kept, and refused
/// where its digest is another (`TokenReused`). Else the first check that fails gives the refusal: first the texts
/// (`BadText`), then each number in the order of its field (`NoSuch`, `WrongKind`, and `BadText` for a place whose path
/// has only empty parts), then what is the command's own (`SamePerson`, `AlreadyInFamily`, `NotOfKind`), and last
/// whether a number is left (`Full`). Of a batch of register entries the source is looked at first, and then each row
/// so, after the rows before it: the first refusal is the batch's, with the place of its row, and the source's has
/// none. Of an import it is first whether two entries of the file have one key (`DuplicateEntry`, at the line of the
/// second), and then whether there are numbers for all that it makes, and a next one (`Full`). The stops may come in
/// place of any answer: `OutOfMemory`, and where a look of the view fails `BadStored` and `Storage`. Whatever it
/// answers, the words of the request are UTF-8, and the nodes of an import a forest, by the type of the request.
pub fn decide<V: View>(alloc: Global, view: &mut V, request: &Request) -> Result<Changes, Refusal>
    ensures decides { On V.View view.old view.new (λ c. Decides c result (outcome c request.now)) }
    ensures exact { On V.View view.old view.new (λ c. IfOk result (IsExactFor c request.now)) }
    ensures counts { CountsStops (V.failed view.old) (V.failed view.new) result }
    ensures words { HasUtf8Words request.now.command }
{
    tell_words(&request.command);
    let digest = request_digest(alloc, request)?;
    match view.receipt(alloc, &request.token)? {
        Some(receipt) => answer_again(alloc, view, &receipt, &digest),
        None => decide_anew(alloc, view, request, digest),
    }
}

/// The digest of a request: its own, or that of its command.
fn request_digest(alloc: Global, request: &Request) -> Result<[u8; 32], AllocError>
    ensures { IfOk result (λ digest. digest ≡ request_digest request.now) }
{
    match request.digest {
        Some(digest) => Ok(digest),
        None => command_digest(alloc, &request.command),
    }
}

/// The kept answer, where what was asked is the same.
pub(crate) fn answer_again<V: View>(
    alloc: Global,
    view: &mut V,
    receipt: &Receipt,
    digest: &[u8; 32],
) -> Result<Changes, Refusal>
    ensures decides { On V.View view.old view.new (λ c. Decides c result (answered_again c digest.now receipt.now)) }
    ensures exact { On V.View view.old view.new (λ c. IfOk result (ChangesNothing c)) }
    ensures adds { On V.View view.old view.new (λ c. IfOk result (OnlyAdds c)) }
    ensures counts { CountsStops (V.failed view.old) (V.failed view.new) result }
{
    if receipt.digest.as_slice() != digest.as_slice() {
        return Err(RefusalKind::TokenReused.into());
    }
    Ok(Changes {
        puts: Vec::new(alloc),
        removals: Vec::new(alloc),
        next: view.next(alloc)?,
        answer: receipt.answer,
        kept: None,
        slip: None,
    })
}

/// What a command changes, with its answer to keep.
fn decide_anew<V: View>(
    alloc: Global,
    view: &mut V,
    request: &Request,
    digest: [u8; 32],
) -> Result<Changes, Refusal>
    ensures decides { On V.View view.old view.new
        (λ c. Decides c result (kept_under «request».now.token digest (step c «request».now.command))) }
    ensures exact { On V.View view.old view.new (λ c. IfOk result (IsExact c)) }
    ensures keeps { IfOk result (λ changes. changes.kept ≡ Some (record {
      token = «request».now.token;
      receipt = record { digest = digest; answer = changes.answer };
    })) }
    ensures counts { CountsStops (V.failed view.old) (V.failed view.new) result }
{
    let token = request.token.copy(alloc)?;
    let changes = decide_command(alloc, view, &request.command)?;
    Ok(with_receipt(changes, token, digest))
}

/// What a command changes, without its answer to keep.
fn decide_command<V: View>(
    alloc: Global,
    view: &mut V,
    command: &Command,
) -> Result<Changes, Refusal>
    ensures decides { On V.View view.old view.new (λ c. PlansAt c result (step c command.now)) }
    ensures exact { On V.View view.old view.new (λ c. IfOk result (IsExact c)) }
    ensures counts { CountsStops (V.failed view.old) (V.failed view.new) result }
{
    match command {
        Command::Row(row) => Ok(decide_row(alloc, view, row)?),
        Command::Entries { source, rows } => {
            decide_entries(alloc, view, *source, rows.as_slice())
        }
        Command::Import(forest) => decide_import(alloc, view, forest),
    }
}

/// The changes, with the receipt of their answer.
pub(crate) fn with_receipt(changes: Changes, token: Token, digest: [u8; 32]) -> Changes
    ensures { result ≡ record changes {
      kept = Some (record { token = token; receipt = record { digest = digest; answer = changes.answer } });
    } }
{
    let mut changes = changes;
    let receipt = Receipt {
        digest,
        answer: changes.answer,
    };
    changes.kept = Some(Kept { token, receipt });
    changes
}
