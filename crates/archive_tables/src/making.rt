//! A page entered on an archive that is open, after the places that it lacks are made.

ghost use Rattle.std.specs.Prelude.{◌≡◌, ◌++◌, ◌∷◌, [], Err, IfErr, IfOk, OnErr, OnOk, false, true};
ghost use Rattle.sqlite.specs.Held.{state};
ghost use Rattle.archive_output.specs.Reading.{OnlyReads};
ghost use Rattle.archive_state.specs.Looks.{Looked, is_failure};
ghost use Rattle.archive_tables.specs.Ends.{OnRead};
ghost use Rattle.archive_tables.specs.Looking.{IsFound};
ghost use Rattle.archive_tables.specs.Making as making;
ghost use Rattle.archive_tables.specs.Sources.{BySource};
ghost use Rattle.page_batches.specs.Batches.{unplaced as unplaced_of};
ghost use Rattle.page_batches.specs.Placing.{parent_on as parent_of};
ghost use Rattle.page_batches.specs.Looks.{Found};
ghost use Rattle.store.specs.Histories.{has_broken, is_storage};

use crate::entering::{PageEnd, enter_page};
use crate::looking::{look_for_source, unbroken};
use crate::trying::trial;
use archive_core::Request;
use archive_input::perform_once;
use commands::{Command, Field, FieldRow, RowCommand};
use page_batches::{BatchRefusal, parent_on, place_token, unplaced};
use page_entries::{DateOrder, PageEntry, read_page};
use page_places::place_name;
use receipts::{Answer, Token};
use record_text::{Refusal, RefusalKind};
use row_references::NumberWord;
use sqlite::Alter;
use std::alloc::{AllocError, Global};
use store::Archive;
use store::laws::looks_are_a_call;

/// A place that was made.
#[derive(Debug, Drop)]
pub struct MadePlace {
    pub number: u32,
    pub path: Field,
}

/// Enters a page as `enter_page` does, after the places are made that its paths name and the archive does not have: the
/// larger first, each by one request under a token of its own, and each is added to `made`. Nothing is made where the
/// page has a fault, or where the archive would refuse it if the places were there.
///
/// Refusals are those of the trial, as of `enter_page` (58 also where a place has no name); those of the requests of
/// the places, which have no row; and then those of `enter_page`.
pub fn enter_with_places<S: Alter>(
    alloc: Global,
    archive: &mut Archive<S>,
    token: Token,
    source: &NumberWord,
    order: Option<DateOrder>,
    bytes: &[u8],
    made: &mut Vec<MadePlace>,
) -> Result<PageEnd, BatchRefusal>
    requires kept { archive.old.is_lost ≡ false }
    requires none { made.old.items ≡ [] }
    ensures { making.EntersPlaced S.Store token source.now order bytes.now archive.old made.new.items result
        archive.new }
{
    match read_page(alloc, order, bytes) {
        Ok(Ok(entries)) => enter_sourced(
            alloc, archive, token, source, order, bytes, entries, made,
        ),
        Ok(Err(fault)) => Ok(PageEnd::Unread { fault }),
        Err(_) => Err(unplaced(alloc, RefusalKind::OutOfMemory)),
    }
}

/// The same with the entries of the page.
fn enter_sourced<S: Alter>(
    alloc: Global,
    archive: &mut Archive<S>,
    token: Token,
    source: &NumberWord,
    order: Option<DateOrder>,
    bytes: &[u8],
    entries: Vec<PageEntry>,
    made: &mut Vec<MadePlace>,
) -> Result<PageEnd, BatchRefusal>
    requires kept { archive.old.is_lost ≡ false }
    requires none { made.old.items ≡ [] }
    ensures { BySource S.Store archive.old archive.new source.now
        (λ n. making.EntersLacking S.Store token n order bytes.now entries.items archive.old made.new.items result
        archive.new)
        (λ why. (made.new.items ≡ []) × (result ≡ Err (unplaced_of why))) }
{
    match source {
        NumberWord::Number(number) => enter_lacking(
            alloc, archive, token, *number, order, bytes, entries, made,
        ),
        NumberWord::Reference(_) => match look_for_source(alloc, archive, source) {
            Ok(number) => enter_lacking(alloc, archive, token, number, order, bytes, entries, made),
            Err(kind) => Err(unplaced(alloc, kind)),
        },
    }
}

/// The same of the source of this number.
fn enter_lacking<S: Alter>(
    alloc: Global,
    archive: &mut Archive<S>,
    token: Token,
    source: u32,
    order: Option<DateOrder>,
    bytes: &[u8],
    entries: Vec<PageEntry>,
    made: &mut Vec<MadePlace>,
) -> Result<PageEnd, BatchRefusal>
    requires kept { archive.old.is_lost ≡ false }
    requires none { made.old.items ≡ [] }
    ensures { making.EntersLacking S.Store token source order bytes.now entries.items archive.old made.new.items result
        archive.new }
{
    match try_page(alloc, archive, &token, source, entries) {
        Ok(paths) => enter_tried(
            alloc,
            archive,
            token,
            source,
            order,
            bytes,
            paths.fields(),
            made,
        ),
        Err(refusal) => Err(refusal),
    }
}

/// Makes the places of paths, and enters the page.
fn enter_tried<S: Alter>(
    alloc: Global,
    archive: &mut Archive<S>,
    token: Token,
    source: u32,
    order: Option<DateOrder>,
    bytes: &[u8],
    paths: &[Field],
    made: &mut Vec<MadePlace>,
) -> Result<PageEnd, BatchRefusal>
    requires kept { archive.old.is_lost ≡ false }
    requires none { made.old.items ≡ [] }
    ensures { making.EntersTried S.Store token source order bytes.now paths.now archive.old made.new.items result
        archive.new }
{
    match make_places(alloc, archive, &token, paths, made) {
        Ok(()) => enter_page(
            alloc,
            archive,
            token,
            &NumberWord::Number(source),
            order,
            bytes,
        ),
        Err(refusal) => Err(unplaced(alloc, refusal.kind)),
    }
}

/// Tries a page as if the places that it lacks were there: their paths, the larger first. The archive is not changed;
/// an import that is open stays open, and nothing of it is seen.
pub(crate) fn try_page<S: Alter>(
    alloc: Global,
    archive: &mut Archive<S>,
    token: &Token,
    source: u32,
    entries: Vec<PageEntry>,
) -> Result<FieldRow, BatchRefusal>
    requires kept { archive.old.is_lost ≡ false }
    ensures tried { OnRead (state S.Store archive.old.conn) (state S.Store archive.new.conn)
        (λ c. making.IsTried result (making.trial_on c token.now source entries.items)) }
    ensures kept { IfOk result (λ paths. archive.new.is_lost ≡ false) }
    ensures lost { IfErr result (λ e. archive.new.is_lost ≡ true → is_storage e.refusal.kind ≡ true) }
    ensures reads { OnlyReads S.Store archive.old archive.new }
{
    looks_are_a_call::<S>();
    let import = archive.set_aside();
    let found = trial(alloc, archive, token, source, entries);
    archive.put_back(import);
    settled(alloc, archive.is_lost(), found)
}

/// What a trial has come to, unless its looks lost the archive: then it is 80.
fn settled(
    alloc: Global,
    is_lost: bool,
    found: Result<Result<FieldRow, BatchRefusal>, RefusalKind>,
) -> Result<FieldRow, BatchRefusal>
    ensures tried { (right : making.Trial) → (is_lost ≡ false → IfErr found (λ kind. is_failure kind ≡ false))
        → Looked found (λ r. r ≡ right) → making.IsTried result right }
    ensures kept { IfOk result (λ paths. is_lost ≡ false) }
    ensures lost { IfErr result (λ e. is_lost ≡ true → is_storage e.refusal.kind ≡ true) }
{
    if is_lost {
        return Err(unplaced(alloc, RefusalKind::Storage));
    }
    match found {
        Ok(found) => found,
        Err(kind) => Err(unplaced(alloc, kind)),
    }
}

/// Makes the places of paths for the batch of a token, one after the other, and adds them to those that are made. At
/// the first refusal it ends.
pub(crate) fn make_places<S: Alter>(
    alloc: Global,
    archive: &mut Archive<S>,
    token: &Token,
    paths: &[Field],
    made: &mut Vec<MadePlace>,
) -> Result<(), Refusal>
    requires kept { archive.old.is_lost ≡ false }
    requires none { made.old.items ≡ [] }
    ensures { making.MakesAll S.Store token.now paths.now made.new.items archive.old result archive.new }
{
    for path in paths {
        let words = path.as_str();
        match make_place(alloc, archive, token, words) {
            Ok(answer) => {
                if lacks_room(alloc, made, answer, words) {
                    return Err(Refusal {
                        kind: RefusalKind::OutOfMemory,
                        at: None,
                    });
                }
            }
            Err(refusal) => return Err(refusal),
        }
    }
    Ok(())
}

/// Adds a place that is made, unless memory is refused: whether it is.
fn lacks_room(alloc: Global, made: &mut Vec<MadePlace>, answer: Answer, path: &str) -> bool
    ensures added { result ≡ false → made.new.items
        ≡ made.old.items ++ record { number = answer.first; path = path.now } ∷ [] }
    ensures same { result ≡ true → made.new.items ≡ made.old.items }
{
    match push(alloc, made, answer, path) {
        Ok(()) => false,
        Err(_) => true,
    }
}

/// Adds a place that is made.
fn push(
    alloc: Global,
    made: &mut Vec<MadePlace>,
    answer: Answer,
    path: &str,
) -> Result<(), AllocError>
    ensures more { OnOk result (made.new.items
        ≡ made.old.items ++ record { number = answer.first; path = path.now } ∷ []) }
    ensures same { OnErr result (made.new.items ≡ made.old.items) }
{
    let path = Field::new(String::from_str(alloc, path)?);
    made.push(MadePlace {
        number: answer.first,
        path,
    })?;
    Ok(())
}

/// Makes the place of a path, within the lowest place of the path above it. 50: that is not there.
fn make_place<S: Alter>(
    alloc: Global,
    archive: &mut Archive<S>,
    token: &Token,
    path: &str,
) -> Result<Answer, Refusal>
    requires kept { archive.old.is_lost ≡ false }
    ensures { making.MakesPlace S.Store token.now path.now archive.old result archive.new }
{
    match look_for_parent(alloc, archive, path) {
        Ok(Ok(parent)) => ask_place(alloc, archive, token, path, parent),
        Ok(Err(kind)) => Err(Refusal { kind, at: None }),
        Err(kind) => Err(Refusal { kind, at: None }),
    }
}

/// Looks for the place that the place of a path is to be made within.
fn look_for_parent<S: Alter>(
    alloc: Global,
    archive: &mut Archive<S>,
    path: &str,
) -> Result<Result<Option<u32>, RefusalKind>, RefusalKind>
    requires kept { archive.old.is_lost ≡ false }
    ensures looked { OnRead (state S.Store archive.old.conn) (state S.Store archive.new.conn)
        (λ c. IsFound result (λ found. found ≡ parent_of c path.now)) }
    ensures lost { archive.new.is_lost ≡ has_broken result }
    ensures reads { OnlyReads S.Store archive.old archive.new }
{
    looks_are_a_call::<S>();
    let import = archive.set_aside();
    let found = parent_on(alloc, archive, path);
    archive.put_back(import);
    settled_parent(archive.is_lost(), found)
}

/// What was found, unless the looks lost the archive: then it is 80.
fn settled_parent(
    is_lost: bool,
    found: Result<Result<Option<u32>, RefusalKind>, RefusalKind>,
) -> Result<Result<Option<u32>, RefusalKind>, RefusalKind>
    ensures looked { (right : Found) → (is_lost ≡ false → IfErr found (λ kind. is_failure kind ≡ false))
        → Looked found (λ f. f ≡ right) → IsFound result (λ f. f ≡ right) }
    ensures lost { has_broken result ≡ is_lost }
{
    if is_lost {
        return Err(RefusalKind::Storage);
    }
    match found {
        Ok(found) => Ok(found),
        Err(kind) => Err(unbroken(kind)),
    }
}

/// Performs the request that makes the place of a path.
fn ask_place<S: Alter>(
    alloc: Global,
    archive: &mut Archive<S>,
    token: &Token,
    path: &str,
    parent: Option<u32>,
) -> Result<Answer, Refusal>
    ensures { making.IsAsked S.Store token.now path.now parent archive.old result archive.new }
{
    let token = place_token(alloc, token, path)?;
    let name = Field::new(String::from_str(alloc, place_name(path))?);
    let command = Command::Row(RowCommand::Place { name, parent });
    perform_once(
        alloc,
        archive,
        Request {
            token,
            command,
            digest: None,
        },
    )
}
