//! Rows that ask what the tables hold.

use record_text::RefusalKind;
use row_answers::{Question, say_number_of, say_record_of, say_referrers, say_slip_of};
use row_words::{Answer, say_receipt};
use sqlite::{Alter, Connection};
use std::alloc::Global;
use store_rows::looking;

/// Says what the rows of tables answer that a number, a token, a path or a key leads to. 80: a row `sql` has begun a
/// transaction.
pub(crate) fn ask_tables<S: Alter>(
    alloc: Global,
    conn: &mut Connection<S>,
    question: &Question,
    out: &mut Answer,
) -> Result<(), RefusalKind> {
    if !conn.is_autocommit() {
        return Err(RefusalKind::Storage);
    }
    match question {
        Question::Record(at) => say_record_of(alloc, looking::record_at(alloc, conn, *at), out),
        Question::Slip(at) => say_slip_of(alloc, looking::slip_at(alloc, conn, *at), out),
        Question::Referrers(at) => say_referrers(looking::referrers_of(alloc, conn, *at), out),
        Question::Place(path) => say_number_of(looking::place_at(alloc, conn, path), out),
        Question::Entry(key) => {
            let found = looking::entry_at(alloc, conn, key.source, key.kind, &key.page, key.item);
            say_number_of(found, out)
        }
        Question::Receipt(token) => {
            say_receipt(looking::receipt_at(alloc, conn, token)?.as_ref(), out);
            Ok(())
        }
        Question::Next => {
            out.say_count(looking::next(alloc, conn)?);
            Ok(())
        }
        Question::Failures => Ok(()),
    }
}
