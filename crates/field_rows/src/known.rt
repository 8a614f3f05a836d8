//! What is known of the records that lines name.

ghost use Rattle.std.specs.Prelude.{◌≡◌, bytes_eq, option_map};
ghost use Rattle.record_shapes.specs.Forms as forms;
ghost use Rattle.field_rows.specs.Named.{named_tag};

use stored_lines::{Carried, Value};

/// The kinds of records that lines name.
#[derive(Clone, Copy, Debug, PartialEq, Eq)]
pub enum Named {
    Repo,
    Source,
    Person,
    Family,
}

/// What is known of the records that are written at level 0, by their numbers.
pub trait Known {
    /// The tag of each, and of a place its path.
    ghost known: { Self → forms.Known };

    /// Whether the record of a number is of that kind.
    fn is_of(&self, number: u32, kind: Named) -> bool
        ensures { result ≡ bytes_eq ((known self.now).tag number) (named_tag kind) };

    /// The path of the place of a number. `None`: none is known.
    fn path(&self, number: u32) -> Option<&str>
        ensures { option_map (λ p. p.now) result ≡ (known self.now).path number };
}

/// Whether the line names a record of that kind.
pub fn names_a<K: Known>(known: &K, kind: Named, line: &Carried) -> bool
    ensures { result ≡ forms.names_a (named_tag kind) (K.known known.now) (forms.value_of line.now) }
{
    match &line.value {
        Value::Text(_) => false,
        Value::Ref(number) => known.is_of(*number, kind),
    }
}
