//! What holds of records that are finished.

ghost use Rattle.std.specs.Prelude.{◌≡◌, ℕ, List, Option, Some};
ghost use Rattle.archive_state.specs.declared.changes.Numbered.{Numbered};
ghost use Rattle.record_kinds.specs.declared.record.Record.{Record};
ghost use Rattle.import_definitions.specs.Numbers as numbers;
ghost use Rattle.import_numbers.specs.Placed.{IsFound, finished_at};

/// A record that is finished with the place that is found for its path, once all numbers are drawn, is that of the
/// batch.
pub fn a_finished_record_is_that_of_the_batch()
    ensures { (w : numbers.Places) (d : numbers.Drawing) (n owner : ℕ) (r : Record) (path : Option (List ℕ))
        (found : Option numbers.Found) → IsFound w d path found
        → (numbers.finished w d (numbers.of_file n owner r path)).«record» ≡ finished_at d.roots owner path found r }
{}
