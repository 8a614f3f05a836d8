//! The whole export.

ghost use Rattle.std.specs.Prelude.{◌≡◌, true, false, None, MatchResult, OnOk, IfErr};
ghost use Rattle.devices.specs.Devices.{Rose};
ghost use Rattle.gedcom_tree.specs.Text.{line_text, text, trailer};
ghost use Rattle.record_text.specs.declared.refusal.RefusalKind.TheVariants.{WriteFailed};
ghost use Rattle.node_writing.specs.Header.{header};
ghost use Rattle.node_writing.specs.Pages.{nodes_text};
ghost use Rattle.archive_state.specs.Sound.{IsSound};
ghost use Rattle.archive_state.specs.Looks.{CountsFailures, CountsStops, OnView, is_failure, is_stop};
ghost use Rattle.gedcom_export.specs.Forest.{exported};
ghost use Rattle.gedcom_export.specs.Index.{IsArranged};
ghost use Rattle.gedcom_export.specs.Ends.{IsBegun, IsWhole};
ghost use Rattle.gedcom_export.specs.Pieces as pieces;
ghost use Rattle.gedcom_export.specs.Waiting.{Halts, IsShort, Moves};

use crate::gathering::index_of;
use crate::index::Index;
use crate::output::{Output, hand_over, make_way};
use crate::page::push_record;
use crate::rank::Rank;
use crate::reading::all_records;
use archive_state::{State, View};
use devices::Device;
use gedcom_line::write_line;
use node_writing::push_header;
use record_text::{Refusal, RefusalKind};
use std::alloc::Global;
use std::io::Write;

/// The kinds of records in the order of an export.
const RANKS: [Rank; 7] = [
    Rank::Places,
    Rank::Repos,
    Rank::Sources,
    Rank::Persons,
    Rank::Families,
    Rank::Entries,
    Rank::Others,
];

/// Writes the archive as the text of its forest (GEDCOM 5.5.1): the header, the society, and each record of level 0
/// with what it owns, kind by kind and by number. It is refused with 70 (`ExportTooLarge`) where that text has over
/// 67,108,864 bytes, with 95 (`WriteFailed`) where the writer failed, with 40 or 80 where the view did, and with 1
/// where memory was refused; at a refusal the writer has got a beginning of the text.
pub fn export<V: View, W: Write + Device>(
    alloc: Global,
    view: &mut V,
    society: &str,
    writer: &mut W,
) -> Result<(), Refusal>
    ensures written { OnView V.is_honest V.shows V.content view.old view.new (λ c. IsSound c → MatchResult result
        (λ _. IsWhole (W.contents writer.old) (W.contents writer.new) (text (exported c.records society.now)))
        (λ e. IsBegun (W.contents writer.old) (W.contents writer.new) (text (exported c.records society.now))
        e.kind)) }

    // A failure is blamed on the view or on the writer only where its count of failures rose in this call.
    ensures view { CountsStops (V.failed view.old) (V.failed view.new) result }
    ensures writer { IfErr result (λ e. e.kind ≡ WriteFailed → Rose (W.failed writer.old) (W.failed writer.new)) }
    ensures nowhere { IfErr result (λ e. e.at ≡ None) }
{
    let before = writer.failures();
    Ok(write_all(alloc, view, society, writer, before)?)
}

fn write_all<V: View, W: Write + Device>(
    alloc: Global,
    view: &mut V,
    society: &str,
    writer: &mut W,
    before: u64,
) -> Result<(), RefusalKind>
    ensures written { OnView V.is_honest V.shows V.content view.old view.new (λ c. IsSound c → MatchResult result
        (λ _. IsWhole (W.contents writer.old) (W.contents writer.new) (text (exported c.records society.now)))
        (λ e. IsBegun (W.contents writer.old) (W.contents writer.new) (text (exported c.records society.now)) e)) }
    ensures view { CountsFailures (V.failed view.old) (V.failed view.new) result }
    ensures writer { IfErr result (λ e. e ≡ WriteFailed → Rose before (W.failed writer.new)) }
{
    match all_records(alloc, view) {
        Ok(state) => write_state(alloc, &state, society, writer, before),
        Err(kind) => Err(stop_of(kind)),
    }
}

/// What an export is refused with where a look is. A view that breaks its rule may answer something else than 1, 40 and
/// 80: then it is 1.
fn stop_of(kind: RefusalKind) -> RefusalKind
    ensures stop { is_stop result ≡ true }
    ensures failure { is_failure result ≡ true → is_failure kind ≡ true }
{
    match kind {
        RefusalKind::BadStored => RefusalKind::BadStored,
        RefusalKind::Storage => RefusalKind::Storage,
        _ => RefusalKind::OutOfMemory,
    }
}

/// Writes the records of a state as `export` writes those of an archive. None of them is copied.
pub fn export_state<W: Write + Device>(
    alloc: Global,
    state: &State,
    society: &str,
    writer: &mut W,
) -> Result<(), Refusal>
    ensures written { MatchResult result
        (λ _. IsWhole (W.contents writer.old) (W.contents writer.new) (text (exported state.now.records society.now)))
        (λ e. IsBegun (W.contents writer.old) (W.contents writer.new) (text (exported state.now.records society.now))
        e.kind) }
    ensures writer { IfErr result (λ e. e.kind ≡ WriteFailed → Rose (W.failed writer.old) (W.failed writer.new)) }
    ensures own { IfErr result (λ e. is_failure e.kind ≡ false) }
    ensures nowhere { IfErr result (λ e. e.at ≡ None) }
{
    let before = writer.failures();
    Ok(write_state(alloc, state, society, writer, before)?)
}

fn write_state<W: Write + Device>(
    alloc: Global,
    state: &State,
    society: &str,
    writer: &mut W,
    before: u64,
) -> Result<(), RefusalKind>
    ensures written { MatchResult result
        (λ _. IsWhole (W.contents writer.old) (W.contents writer.new) (text (exported state.now.records society.now)))
        (λ e. IsBegun (W.contents writer.old) (W.contents writer.new) (text (exported state.now.records society.now))
        e) }
    ensures writer { IfErr result (λ e. e ≡ WriteFailed → Rose before (W.failed writer.new)) }
    ensures own { IfErr result (λ e. is_failure e ≡ false) }
{
    match index_of(alloc, state) {
        Ok(index) => write_forest(alloc, state, &index, society, writer, before),
        Err(_) => Err(RefusalKind::OutOfMemory),
    }
}

/// Writes the text of the forest, as the index has it.
fn write_forest<W: Write + Device>(
    alloc: Global,
    state: &State,
    index: &Index,
    society: &str,
    writer: &mut W,
    before: u64,
) -> Result<(), RefusalKind>
    requires { IsArranged index.now }
    ensures written { MatchResult result
        (λ _. IsWhole (W.contents writer.old) (W.contents writer.new)
        (pieces.whole_text state.now.records index.now society.now))
        (λ e. IsBegun (W.contents writer.old) (W.contents writer.new)
        (pieces.whole_text state.now.records index.now society.now) e) }
    ensures writer { IfErr result (λ e. e ≡ WriteFailed → Rose before (W.failed writer.new)) }
    ensures own { IfErr result (λ e. is_failure e ≡ false) }
{
    let mut out = Output::new(alloc);
    write_parts(alloc, state, index, society, writer, before, &mut out)?;
    hand_over(writer, before, &mut out)
}

/// Puts the parts of the text after each other: header, records, trailer.
fn write_parts<W: Write + Device>(
    alloc: Global,
    state: &State,
    index: &Index,
    society: &str,
    writer: &mut W,
    before: u64,
    out: &mut Output,
) -> Result<(), RefusalKind>
    requires { IsArranged index.now }
    ensures written { MatchResult result
        (λ _. Moves (W.contents writer.old) (W.contents writer.new) out.old out.new
        (pieces.whole_text state.now.records index.now society.now))
        (λ e. Halts (W.contents writer.old) (W.contents writer.new) out.old
        (pieces.whole_text state.now.records index.now society.now) e) }
    ensures short { OnOk result (IsShort out.new) }
    ensures writer { IfErr result (λ e. e ≡ WriteFailed → Rose before (W.failed writer.new)) }
    ensures own { IfErr result (λ e. is_failure e ≡ false) }
{
    begin(alloc, society, writer, before, out)?;
    write_records(alloc, state, index, writer, before, out)?;
    end(writer, before, out)
}

/// Writes the header and the society.
fn begin<W: Write + Device>(
    alloc: Global,
    society: &str,
    writer: &mut W,
    before: u64,
    out: &mut Output,
) -> Result<(), RefusalKind>
    ensures written { MatchResult result
        (λ _. Moves (W.contents writer.old) (W.contents writer.new) out.old out.new (nodes_text 0 (header society.now)))
        (λ e. Halts (W.contents writer.old) (W.contents writer.new) out.old (nodes_text 0 (header society.now)) e) }
    ensures writer { IfErr result (λ e. e ≡ WriteFailed → Rose before (W.failed writer.new)) }
    ensures own { IfErr result (λ e. is_failure e ≡ false) }
{
    push_header(alloc, &mut out.text, society)?;
    make_way(writer, before, out)
}

/// Writes the trailer.
fn end<W: Write + Device>(writer: &mut W, before: u64, out: &mut Output) -> Result<(), RefusalKind>
    ensures written { MatchResult result
        (λ _. Moves (W.contents writer.old) (W.contents writer.new) out.old out.new (line_text trailer))
        (λ e. Halts (W.contents writer.old) (W.contents writer.new) out.old (line_text trailer) e) }
    ensures short { OnOk result (IsShort out.new) }
    ensures writer { IfErr result (λ e. e ≡ WriteFailed → Rose before (W.failed writer.new)) }
    ensures own { IfErr result (λ e. is_failure e ≡ false) }
{
    write_line(&mut out.text, 0, None, "TRLR", "")?;
    make_way(writer, before, out)
}

/// Writes the records of level 0, each with what it owns.
fn write_records<W: Write + Device>(
    alloc: Global,
    state: &State,
    index: &Index,
    writer: &mut W,
    before: u64,
    out: &mut Output,
) -> Result<(), RefusalKind>
    requires { IsArranged index.now }
    ensures written { MatchResult result
        (λ _. Moves (W.contents writer.old) (W.contents writer.new) out.old out.new
        (pieces.kinds_text state.now.records index.now pieces.ranks))
        (λ e. Halts (W.contents writer.old) (W.contents writer.new) out.old
        (pieces.kinds_text state.now.records index.now pieces.ranks) e) }
    ensures writer { IfErr result (λ e. e ≡ WriteFailed → Rose before (W.failed writer.new)) }
    ensures own { IfErr result (λ e. is_failure e ≡ false) }
{
    'ranks: for rank in &RANKS {
        write_kind(alloc, state, index, *rank, writer, before, out)?;
    }
    Ok(())
}

/// Writes the records of a kind by number.
fn write_kind<W: Write + Device>(
    alloc: Global,
    state: &State,
    index: &Index,
    rank: Rank,
    writer: &mut W,
    before: u64,
    out: &mut Output,
) -> Result<(), RefusalKind>
    requires { IsArranged index.now }
    ensures written { MatchResult result
        (λ _. Moves (W.contents writer.old) (W.contents writer.new) out.old out.new
        (pieces.kind_text state.now.records index.now rank))
        (λ e. Halts (W.contents writer.old) (W.contents writer.new) out.old
        (pieces.kind_text state.now.records index.now rank) e) }
    ensures writer { IfErr result (λ e. e ≡ WriteFailed → Rose before (W.failed writer.new)) }
    ensures own { IfErr result (λ e. is_failure e ≡ false) }
{
    'records: for number in index.numbers(rank) {
        write_record(alloc, state, index, *number, writer, before, out)?;
    }
    Ok(())
}

/// Writes the record of a number, with what it owns.
fn write_record<W: Write + Device>(
    alloc: Global,
    state: &State,
    index: &Index,
    number: u32,
    writer: &mut W,
    before: u64,
    out: &mut Output,
) -> Result<(), RefusalKind>
    requires { IsArranged index.now }
    ensures written { MatchResult result
        (λ _. Moves (W.contents writer.old) (W.contents writer.new) out.old out.new
        (pieces.text_at state.now.records index.now number))
        (λ e. Halts (W.contents writer.old) (W.contents writer.new) out.old
        (pieces.text_at state.now.records index.now number) e) }
    ensures writer { IfErr result (λ e. e ≡ WriteFailed → Rose before (W.failed writer.new)) }
    ensures own { IfErr result (λ e. is_failure e ≡ false) }
{
    match push_record(alloc, state, index, &mut out.text, number) {
        Ok(()) => make_way(writer, before, out),
        Err(_) => Err(RefusalKind::OutOfMemory),
    }
}
