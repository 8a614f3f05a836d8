//! What holds between the calls.

ghost use Rattle.std.specs.Prelude.{◌≡◌};
ghost use Rattle.records.specs.Stored.{stored};
ghost use Rattle.record_kinds.specs.declared.record.Record.{Record};

/// Lines are those of one record at the most. So `record_of` of what `lines_of` gives for a record is that
/// record, out of memory apart.
#[tactic(auto, using(crate::proofs::Shallow::stored_one))]
pub fn lines_are_of_one_record()
    ensures { (r s : Record) → stored r ≡ stored s → r ≡ s }
{}
