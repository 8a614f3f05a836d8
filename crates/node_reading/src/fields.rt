//! Fields of lines.

ghost use Rattle.std.specs.Prelude.{◌≡◌, ◌&&◌, not};
ghost use Rattle.record_shapes.specs.Fields as fields;
ghost use Rattle.record_shapes.specs.Forms.{is_some};

use record_shapes::Field;

/// Whether two fields are the same.
pub fn is_same(a: Field, b: Field) -> bool
    ensures { result ≡ fields.is_same a b }
{
    a == b
}

/// Whether a line of a field is the first of the one that is wanted.
pub fn is_first<T>(field: Field, wanted: Field, found: &Option<T>) -> bool
    ensures { result ≡ (fields.is_same field wanted && not (is_some found.now)) }
{
    is_same(field, wanted) && found.is_none()
}
