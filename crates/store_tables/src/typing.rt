//! Rows that a query shows, as values of the program's types.

ghost use Rattle.std.specs.Prelude.{
  ◌≡◌,
  [],
  ◌∷◌,
  ◌++◌,
  OnOk,
  ℕ,
  pos,
  ◌+◌,
  ◌<◌,
  List,
  length,
  IfOk,
  IfErr,
  IfSome,
  Option,
};
ghost use Rattle.std.specs.List.{AllByRecursion};
ghost use Rattle.sqlite.specs.declared.types.Value.{Value};
ghost use Rattle.sqlite.specs.declared.types.Value.TheVariants.{Int, Text as Words, Blob};
ghost use Rattle.sqlite.specs.Order.{column};
ghost use Rattle.record_text.specs.Text.{IsTag, IsText};
ghost use Rattle.stored_lines.specs.Line.{Label};
ghost use Rattle.receipts.specs.Tokens.{IsToken};
ghost use Rattle.store_tables.specs.Conversion.{
  FailsUnless,
  HasPack,
  IsPackReadAs,
  IsSlipPackReadAs,
  read_meta,
  IsReadAs,
  ShowsTyped,
  EachWith,
  IsLineAt,
  HasLineAt,
};
ghost use Rattle.store_tables.specs.Reading.{
  IsU32,
  IsTypedLine,
  IsTypedLink,
  IsTypedPack,
  IsTypedPast,
  IsTypedReceipt,
  IsTypedSlip,
  IsTypedSlipPack,
  IsTypedSought,
  IsTypedSpan,
  read_record,
  read_line,
  read_link,
  read_past,
  read_receipt,
  read_slip_line,
};
ghost use Rattle.store_tables.specs.Showing.{
  ShowsBatch,
  ShowsLine,
  ShowsLink,
  ShowsMeta,
  ShowsNumber,
  ShowsPack,
  ShowsPast,
  ShowsReceipt,
  ShowsRecord,
  ShowsSlip,
  ShowsSlipLine,
  ShowsSlipPack,
  ShowsSought,
  ShowsSpan,
};
ghost use Rattle.store_tables.specs.Rows as rows;
ghost use Rattle.store_tables.specs.Rows.{words_or_null};
ghost use Rattle.store_tables.specs.Shown.{
  shown_meta,
  shown_batch,
  shown_record,
  shown_line,
  shown_link,
  shown_pack,
  shown_past,
  shown_receipt,
  shown_slip,
  shown_slip_line,
  shown_slip_pack,
  shown_sought,
  shown_span,
};

use crate::pairs::pair_of;
use crate::stored::{
    BatchRow, LineRow, LinkRow, PackRow, PastRow, ReceiptRow, RecordRow, SlipLineRow, SlipPackRow,
    SlipRow, SlipSide, SoughtRow, SpanRow,
};
use packed_rows::unpack;
use receipts::{Answer, Receipt, Token};
use record_text::{RefusalKind, Tag, Text};
use sqlite::types::FromSql;
use sqlite::{Error, ErrorCode, Row};
use std::alloc::{AllocError, Global};
use std::marker::Model;
use stored_lines::StoredLine;

/// What the rows of a table are read as.
pub(crate) trait FromRow: Drop {
    ghost reads_as: { List Value → Self → Type 0 };

    ghost is_readable: { List Value → Type 0 };

    /// The values of the row. `BadStored`: one is not of its type.
    fn from_row(alloc: Global, row: &Row) -> Result<Self, RefusalKind>
        ensures ok { IfOk result (reads_as row.now) }
        ensures err { IfErr result (FailsUnless (is_readable row.now)) };
}

/// What all rows are read as, in their order.
pub(crate) fn from_rows<T: FromRow>(alloc: Global, rows: Vec<Row>) -> Result<Vec<T>, RefusalKind>
    ensures ok { IfOk result (λ items. EachWith T.reads_as rows.items items.items) }
    ensures err { IfErr result (FailsUnless (AllByRecursion T.is_readable rows.items)) }
{
    let mut items = Vec::new(alloc);
    let mut rows = rows.into_iter();
    'rows: while let Some(row) = rows.next() {
        push(&mut items, T::from_row(alloc, &row)?)?;
    }
    Ok(items)
}

/// Adds an item after the others.
fn push<T: Drop>(items: &mut Vec<T>, item: T) -> Result<(), AllocError>
    ensures { OnOk result (items.new.items ≡ items.old.items ++ (item ∷ [])) }
{
    items.push(item)?;
    Ok(())
}

/// The item of a list of one.
pub(crate) fn only<T: Drop>(mut items: Vec<T>) -> Result<T, RefusalKind>
    ensures ok { IfOk result (λ item. items.items ≡ item ∷ []) }
    ensures err { IfErr result (FailsUnless (length items.items ≡ 1)) }
{
    match items.pop() {
        Some(item) if items.is_empty() => Ok(item),
        _ => Err(RefusalKind::BadStored),
    }
}

/// The value of a column.
fn value<T: FromSql>(row: &Row, at: usize) -> Result<T, RefusalKind>
    ensures ok { IfOk result (T.FromSql.reads_as (column row.now at)) }
    ensures err { IfErr result (FailsUnless ((at < length row.now) × T.FromSql.is_readable (column row.now at))) }
{
    match row.get(at) {
        Ok(value) => Ok(value),
        Err(Error::SqliteFailure(ErrorCode::OutOfMemory)) => Err(RefusalKind::OutOfMemory),
        Err(_) => Err(RefusalKind::BadStored),
    }
}

/// The text of a column.
pub(crate) fn text_at(row: &Row, at: usize) -> Result<Text, RefusalKind>
    ensures ok { IfOk result (λ t. column row.now at ≡ Words t) }
    ensures err { IfErr result
        (FailsUnless ((at < length row.now) × (t : List ℕ) × (column row.now at ≡ Words t) × IsText t)) }
{
    let string: String = value(row, at)?;
    match Text::try_new(string) {
        Some(text) => Ok(text),
        None => Err(RefusalKind::BadStored),
    }
}

/// The text of a column, where it has one.
fn text_if_any(row: &Row, at: usize) -> Result<Option<Text>, RefusalKind>
    ensures ok { IfOk result (λ t. column row.now at ≡ words_or_null t) }
    ensures err { IfErr result
        (FailsUnless ((at < length row.now) × (t : Option (List ℕ)) × (column row.now at ≡ words_or_null t)
        × IfSome t IsText)) }
{
    let string: Option<String> = value(row, at)?;
    let Some(string) = string else {
        return Ok(None);
    };
    match Text::try_new(string) {
        Some(text) => Ok(Some(text)),
        None => Err(RefusalKind::BadStored),
    }
}

/// The tag of a column.
#[tactic(auto, using(crate::proofs::ReadingRows::tag_utf8))]
fn tag_at(row: &Row, at: usize) -> Result<Tag, RefusalKind>
    ensures ok { IfOk result (λ t. column row.now at ≡ Words t) }
    ensures err { IfErr result
        (FailsUnless ((at < length row.now) × (t : List ℕ) × (column row.now at ≡ Words t) × IsTag t)) }
{
    let string: String = value(row, at)?;
    match Tag::try_new(string) {
        Some(tag) => Ok(tag),
        None => Err(RefusalKind::BadStored),
    }
}

/// The token of a column.
#[tactic(auto, using(crate::proofs::ReadingRows::token_utf8))]
fn token_at(row: &Row, at: usize) -> Result<Token, RefusalKind>
    ensures ok { IfOk result (λ t. column row.now at ≡ Words t) }
    ensures err { IfErr result
        (FailsUnless ((at < length row.now) × (t : List ℕ) × (column row.now at ≡ Words t) × IsToken t)) }
{
    let string: String = value(row, at)?;
    match Token::try_new(string) {
        Some(token) => Ok(token),
        None => Err(RefusalKind::BadStored),
    }
}

/// The digest of a column.
fn digest_at(row: &Row, at: usize) -> Result<[u8; 32], RefusalKind>
    ensures ok { IfOk result (λ d. column row.now at ≡ Blob d) }
    ensures err { IfErr result
        (FailsUnless ((at < length row.now) × (d : List ℕ) × (column row.now at ≡ Blob d) × (length d ≡ 32))) }
{
    let bytes: Vec<u8> = value(row, at)?;
    match <[u8; 32]>::try_from(bytes) {
        Ok(digest) => Ok(digest),
        Err(_) => Err(RefusalKind::BadStored),
    }
}

/// The stored line of four columns from a place on.
fn line_at(row: &Row, at: usize) -> Result<StoredLine, RefusalKind>
    requires { at < 8 }
    ensures ok { IfOk result (λ line. IsLineAt row.now at line) }
    ensures err { IfErr result (FailsUnless (HasLineAt row.now at)) }
{
    Ok(StoredLine {
        depth: value(row, at)?,
        tag: tag_at(row, at + 1)?,
        text: text_if_any(row, at + 2)?,
        target: value(row, at + 3)?,
    })
}

/// The lines that three columns from a place on show: the first one's tag, their text, and the number that the first
/// one names.
fn unpacked(alloc: Global, row: &Row, at: usize) -> Result<Vec<StoredLine>, RefusalKind>
    requires { at < 8 }
    ensures ok { IfOk result (λ lines. HasPack row.now at lines.items) }
    ensures err { IfErr result (FailsUnless ((at + 2 < length row.now) × (lines : List (ℕ × Label))
        × HasPack row.now at lines)) }
{
    let tag = tag_at(row, at)?;
    let text: String = value(row, at + 1)?;
    let target = value(row, at + 2)?;
    unpack(alloc, tag, target, &text)
}

impl FromRow for BatchRow {
    ghost reads_as = { IsReadAs shown_batch (λ (b : rows.BatchRow). b) ShowsBatch };

    ghost is_readable = { ShowsTyped shown_batch (λ (b : rows.BatchRow). IsU32 b.no) };

    fn from_row(_alloc: Global, row: &Row) -> Result<BatchRow, RefusalKind> {
        Ok(BatchRow {
            number: value(row, 0)?,
            is_open: value(row, 1)?,
        })
    }
}

impl FromRow for RecordRow {
    ghost reads_as = { IsReadAs shown_record read_record ShowsRecord };

    ghost is_readable = { ShowsTyped shown_record (λ (r : rows.RecordRow). IsU32 r.no × IsU32 r.batch) };

    fn from_row(_alloc: Global, row: &Row) -> Result<RecordRow, RefusalKind> {
        Ok(RecordRow {
            number: value(row, 0)?,
            batch: value(row, 1)?,
        })
    }
}

impl FromRow for LineRow {
    ghost reads_as = { IsReadAs shown_line read_line ShowsLine };

    ghost is_readable = { ShowsTyped shown_line (λ (l : rows.LineRow). IsU32 l.no × IsTypedLine l.line) };

    fn from_row(_alloc: Global, row: &Row) -> Result<LineRow, RefusalKind> {
        Ok(LineRow {
            number: value(row, 0)?,
            line: line_at(row, 1)?,
        })
    }
}

impl FromRow for PackRow {
    ghost reads_as = { IsPackReadAs ShowsPack };

    ghost is_readable = { ShowsTyped shown_pack IsTypedPack };

    fn from_row(alloc: Global, row: &Row) -> Result<PackRow, RefusalKind> {
        let number = value(row, 0)?;
        let lines = unpacked(alloc, row, 1)?;
        Ok(PackRow { number, lines })
    }
}

impl FromRow for u32 {
    ghost reads_as = { IsReadAs (λ (l : rows.LineRow). Int (pos l.no) ∷ []) (λ (l : rows.LineRow). l.no) ShowsNumber };

    ghost is_readable = { ShowsTyped (λ (l : rows.LineRow). Int (pos l.no) ∷ []) (λ (l : rows.LineRow). IsU32 l.no) };

    fn from_row(_alloc: Global, row: &Row) -> Result<u32, RefusalKind> {
        value(row, 0)
    }
}

impl FromRow for ReceiptRow {
    ghost reads_as = { IsReadAs shown_receipt read_receipt ShowsReceipt };

    ghost is_readable = { ShowsTyped shown_receipt (λ (r : rows.ReceiptRow). IsToken r.token
        × IsTypedReceipt r.receipt) };

    fn from_row(_alloc: Global, row: &Row) -> Result<ReceiptRow, RefusalKind> {
        let token = token_at(row, 0)?;
        let digest = digest_at(row, 1)?;
        let answer = Answer {
            first: value(row, 2)?,
            count: value(row, 3)?,
        };
        let receipt = Receipt { digest, answer };
        Ok(ReceiptRow { token, receipt })
    }
}

impl FromRow for SlipRow {
    ghost reads_as = { IsReadAs shown_slip (λ (s : rows.SlipRow). s) ShowsSlip };

    ghost is_readable = { ShowsTyped shown_slip IsTypedSlip };

    fn from_row(_alloc: Global, row: &Row) -> Result<SlipRow, RefusalKind> {
        Ok(SlipRow {
            number: value(row, 0)?,
            keep: value(row, 1)?,
            gone: value(row, 2)?,
            is_undone: value(row, 3)?,
        })
    }
}

impl FromRow for SlipLineRow {
    ghost reads_as = { IsReadAs shown_slip_line read_slip_line ShowsSlipLine };

    ghost is_readable = { ShowsTyped shown_slip_line (λ (s : rows.SlipLineRow). IsU32 s.slip × IsU32 s.no
        × IsTypedLine s.line) };

    fn from_row(_alloc: Global, row: &Row) -> Result<SlipLineRow, RefusalKind> {
        Ok(SlipLineRow {
            slip: value(row, 0)?,
            is_new: value(row, 1)?,
            number: value(row, 2)?,
            line: line_at(row, 3)?,
        })
    }
}

impl FromRow for SlipPackRow {
    ghost reads_as = { IsSlipPackReadAs ShowsSlipPack };

    ghost is_readable = { ShowsTyped shown_slip_pack IsTypedSlipPack };

    fn from_row(alloc: Global, row: &Row) -> Result<SlipPackRow, RefusalKind> {
        let slip = value(row, 0)?;
        let is_new = value(row, 1)?;
        let number = value(row, 2)?;
        let lines = unpacked(alloc, row, 4)?;
        Ok(SlipPackRow {
            slip,
            side: SlipSide {
                is_new,
                number,
                lines,
            },
        })
    }
}

impl FromRow for SpanRow {
    ghost reads_as = { IsReadAs shown_span (λ (s : rows.SpanRow). s) ShowsSpan };

    ghost is_readable = { ShowsTyped shown_span IsTypedSpan };

    fn from_row(_alloc: Global, row: &Row) -> Result<SpanRow, RefusalKind> {
        Ok(SpanRow {
            number: value(row, 0)?,
            lo: value(row, 1)?,
            hi: value(row, 2)?,
        })
    }
}

impl FromRow for LinkRow {
    ghost reads_as = { IsReadAs shown_link read_link ShowsLink };

    ghost is_readable = { ShowsTyped shown_link IsTypedLink };

    fn from_row(_alloc: Global, row: &Row) -> Result<LinkRow, RefusalKind> {
        Ok(pair_of(value(row, 0)?))
    }
}

impl FromRow for SoughtRow {
    ghost reads_as = { IsReadAs shown_sought (λ (s : rows.SoughtRow). s) ShowsSought };

    ghost is_readable = { ShowsTyped shown_sought IsTypedSought };

    fn from_row(_alloc: Global, row: &Row) -> Result<SoughtRow, RefusalKind> {
        Ok(SoughtRow {
            number: value(row, 0)?,
            text: text_at(row, 1)?,
            target: value(row, 2)?,
        })
    }
}

impl FromRow for PastRow {
    ghost reads_as = { IsReadAs shown_past read_past ShowsPast };

    ghost is_readable = { ShowsTyped shown_past IsTypedPast };

    fn from_row(_alloc: Global, row: &Row) -> Result<PastRow, RefusalKind> {
        Ok(PastRow {
            id: value(row, 0)?,
            token: token_at(row, 1)?,
            text: value(row, 2)?,
        })
    }
}

/// What the one row of `meta` says.
#[derive(Drop)]
pub(crate) struct Meta {
    pub(crate) next: u64,
    pub(crate) society: Text,
}

impl Model for Meta {
    ghost use Rattle.std.specs.Prelude.{List, ℕ};
    ghost use Rattle.std.specs.Coded.{coded×, coded_ℕ, coded_list};

    ghost Value = { ℕ × List ℕ };

    ghost coded = { coded× coded_ℕ (coded_list coded_ℕ) };

    ghost view = { λ a. (a.next, a.society) };
}

impl FromRow for Meta {
    ghost reads_as = { IsReadAs shown_meta read_meta ShowsMeta };

    ghost is_readable = { ShowsTyped shown_meta (λ (r : rows.Rows). IsText r.society) };

    fn from_row(_alloc: Global, row: &Row) -> Result<Meta, RefusalKind> {
        Ok(Meta {
            next: value(row, 1)?,
            society: text_at(row, 2)?,
        })
    }
}
