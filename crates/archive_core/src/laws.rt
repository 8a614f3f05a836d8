//! What holds of requests, over the definitions that the contracts cite.

ghost use Rattle.std.specs.Prelude.{◌≡◌, ◌++◌, List, ℕ, Ok, Err, Result, Some};
ghost use Rattle.std.specs.FinMap.{get};
ghost use Rattle.record_text.specs.declared.refusal.Refusal.{Refusal};
ghost use Rattle.record_text.specs.declared.refusal.RefusalKind.TheVariants.{BadText};
ghost use Rattle.archive_state.specs.Content.{Content};
ghost use Rattle.record_shapes.specs.Paths.{has_part};
ghost use Rattle.archive_state.specs.Paths.{HasPath};
ghost use Rattle.receipts.specs.declared.answer.Answer.{Answer};
ghost use Rattle.receipts.specs.declared.answer.Receipt.{Receipt};
ghost use Rattle.commands.specs.declared.command.Command.{Command};
ghost use Rattle.archive_state.specs.Changes.{Changes};
ghost use Rattle.archive_state.specs.Sound.{IsSound};
ghost use Rattle.archive_core.specs.Applied.{Decides};
ghost use Rattle.archive_state.specs.Applied.{applied};
ghost use Rattle.command_checks.specs.Checks.{need, said_place_at};
ghost use Rattle.command_checks.specs.Numbers.{Draws, UsesNoneAgain};
ghost use Rattle.archive_core.specs.Machine.{Does, Done, Runs, outcome, request_digest};
ghost use Rattle.archive_core.specs.Steps.{step};
ghost use Rattle.archive_core.specs.Words.{HasUtf8Words};
ghost use Rattle.record_shapes.specs.Lists.{EachOf};
ghost use Rattle.archive_core.specs.declared.request.Request.{Request};

/// A request that was accepted is answered as before when it comes again, and changes nothing then.
pub fn a_repeated_request_changes_nothing()
    ensures { (c after : Content) (r : Request) (a : Answer) → Does c r (Ok a) after → Does after r (Ok a) after }
{}

/// So is a request in other words that has its token and its digest: a page of a spreadsheet that comes again, say,
/// whatever numbers its places have by then.
pub fn a_request_of_the_same_digest_is_answered_again()
    ensures { (c after : Content) (r other : Request) (a : Answer) → Does c r (Ok a) after → other.token ≡ r.token
        → request_digest other ≡ request_digest r → Does after other (Ok a) after }
{}

/// A request that is refused changes nothing.
pub fn a_refused_request_changes_nothing()
    ensures { (c after : Content) (r : Request) (e : Refusal) → Does c r (Err e) after → after ≡ c }
{}

/// What is kept under a token is kept for good.
pub fn a_receipt_is_kept_for_good()
    ensures { (c after : Content) (r : Request) (o : Result Answer Refusal) (token : List ℕ) (kept : Receipt)
        → Does c r o after → get c.receipts token ≡ Some kept → get after.receipts token ≡ Some kept }
{}

/// An accepted command draws the numbers from the next one of before up to that of after, each for a record or a slip,
/// and is answered with the first of them and their count; or with 0 and 0, where it makes nothing. A batch of entries
/// and an import are answered with the next number and the count also where that is 0.
pub fn an_answer_has_the_numbers_drawn()
    ensures { (c after : Content) (command : Command) (a : Answer) → step c command ≡ Ok (after, a) → Draws c a after }
{}

/// No number is used twice: over a run the next number does not fall, no slip is at a number below it where none was,
/// and a number that is used up stays so.
pub fn no_number_is_used_twice()
    ensures { (dones : List Done) (c after : Content) → Runs c dones after → UsesNoneAgain c after }
{}

/// A request leaves a sound archive sound, accepted or refused. Its words are what a `String` can hold, and the nodes
/// of an import are a forest: the type of a request keeps that, and here any request is meant.
pub fn a_request_keeps_an_archive_sound()
    ensures { (c after : Content) (r : Request) (o : Result Answer Refusal)
        → HasUtf8Words r.command → IsSound c → Does c r o after → IsSound after }
{}

/// So do the changes that are decided, when they are made.
pub fn decided_changes_keep_an_archive_sound()
    ensures { (c : Content) (r : Request) (changes : Changes)
        → HasUtf8Words r.command → IsSound c → Decides c (Ok changes) (outcome c r) → IsSound (applied c changes) }
{}

/// And a run of requests.
pub fn a_run_keeps_an_archive_sound()
    ensures { (dones : List Done) (c after : Content) → EachOf (λ (done : Done). HasUtf8Words done.0.command) dones
        → IsSound c → Runs c dones after → IsSound after }
{}

/// A place that an event may have is one whose path has a part that is not empty.
pub fn a_said_place_has_a_part()
    ensures { (c : Content) (number : ℕ) (path : List ℕ) → HasPath c.records number path
        → said_place_at c number ≡ need (has_part path) BadText }
{}

/// What a run answers for a beginning of its requests does not depend on the rest.
pub fn a_run_goes_on_from_its_beginning()
    ensures { (first rest : List Done) (c after : Content) → Runs c (first ++ rest) after
        → (between : Content) × Runs c first between × Runs between rest after }
{}

/// What two runs did, one after the other, is a run.
pub fn two_runs_are_one()
    ensures { (first rest : List Done) (c between after : Content) → Runs c first between → Runs between rest after
        → Runs c (first ++ rest) after }
{}
