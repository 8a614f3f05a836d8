//! The request of a row.

ghost use Rattle.std.specs.Prelude.{map};
ghost use Rattle.csv.specs.Records.{fields_of};
ghost use Rattle.commands.specs.Rows.{Decided};
ghost use Rattle.archive_input.specs.Requests.{Asks, AsksText, AsksUnder, OrWants, ReadsFields, in_form};
ghost use Rattle.receipts.specs.Tokens.{IsToken};

use crate::bad_request::{BadRequest, untold};
use archive_core::Request;
use commands::{Command, RowCommand};
use csv::ByteRecord;
use receipts::Token;
use record_text::RefusalKind;
use request_csv::text_fields;
use row_references::with_any_numbers;
use std::alloc::Global;

/// The request of a row: its token, its verb and the fields of the verb.
///
/// Refused in this order: 90: a field is not UTF-8. 93: the first field is no token. 92: there is no other field. Then,
/// with the token: 91: the verb is unknown. 92: the count of fields is not the verb's. 90: a field is not of its type.
/// 1: memory was refused.
pub fn read_request(alloc: Global, row: &ByteRecord) -> Result<Request, BadRequest>
    ensures { OrWants result (Asks (fields_of row.now)) }
{
    match text_fields(alloc, row)? {
        Some(fields) => request_of(alloc, fields.as_slice()),
        None => Err(untold(RefusalKind::BadRow)),
    }
}

/// The request of a row with any numbers in place of its references. Refused as by `read_request`.
#[tactic(auto, using(crate::proofs::Asked::form_read))]
pub fn read_in_form(alloc: Global, row: &ByteRecord) -> Result<Request, BadRequest>
    ensures { OrWants result (Asks (in_form (fields_of row.now))) }
{
    let plain = with_any_numbers(alloc, row)?;
    read_request(alloc, &plain)
}

/// The request of fields.
fn request_of(alloc: Global, fields: &[&str]) -> Result<Request, BadRequest>
    ensures { OrWants result (AsksText (map (λ f. f.now) fields.now)) }
{
    let [first, rest @ ..] = fields else {
        return Err(untold(RefusalKind::BadToken));
    };
    match Token::try_new(String::from_str(alloc, first)?) {
        Some(token) => request_under(alloc, token, rest),
        None => Err(untold(RefusalKind::BadToken)),
    }
}

/// The request of a token and the fields after it.
fn request_under(alloc: Global, token: Token, fields: &[&str]) -> Result<Request, BadRequest>
    ensures asks { OrWants result (AsksUnder token (map (λ f. f.now) fields.now)) }
    ensures token { IsToken token }
{
    // This tells the proof that it is a token.
    let _word = token.as_str();
    match command_of(alloc, fields) {
        Ok(command) => Ok(Request {
            token,
            command: Command::Row(command),
            digest: None,
        }),
        Err(kind) => Err(BadRequest {
            token: Some(token),
            kind,
        }),
    }
}

/// The command of a verb and its fields.
fn command_of(alloc: Global, fields: &[&str]) -> Result<RowCommand, RefusalKind>
    ensures { Decided result (ReadsFields (map (λ f. f.now) fields.now)) }
{
    match fields {
        [verb, rest @ ..] => RowCommand::of_row(alloc, verb, rest),
        [] => Err(RefusalKind::FieldCount),
    }
}
