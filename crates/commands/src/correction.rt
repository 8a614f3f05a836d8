//! What a row gives of a correction.

ghost use Rattle.std.specs.Prelude.{◌≡◌};
ghost use Rattle.commands.specs.Bytes as bytes;

use crate::field::Field;
use crate::given::GivenDate;
use corrections::{Field as RecordField, TextField};
use record_fields::{Item, Quality, Sex};

/// A correction as a request gives it. Its words may be no texts of the archive.
#[derive(Drop)]
pub enum GivenCorrection {
    /// The tag of an event.
    Tag(Field),
    Value(GivenValue),
}

/// The value of a field other than the tag of an event. `None`: the field is to be taken away.
#[derive(Drop)]
pub enum GivenValue {
    Sex(Option<Sex>),
    Date(Option<GivenDate>),
    Place(Option<u32>),
    Repository(Option<u32>),
    Quality(Option<Quality>),
    Item(Item),
    Text(TextField, Field),
}

impl GivenCorrection {
    /// The field that is corrected.
    pub(crate) fn field(&self) -> RecordField
        ensures { result ≡ bytes.given_field self.now }
    {
        match self {
            GivenCorrection::Tag(_) => RecordField::Tag,
            GivenCorrection::Value(value) => value.field(),
        }
    }
}

impl GivenValue {
    fn field(&self) -> RecordField
        ensures { result ≡ bytes.value_field self.now }
    {
        match self {
            GivenValue::Sex(_) => RecordField::Sex,
            GivenValue::Date(_) => RecordField::Date,
            GivenValue::Place(_) => RecordField::Place,
            GivenValue::Repository(_) => RecordField::Repository,
            GivenValue::Quality(_) => RecordField::Quality,
            GivenValue::Item(_) => RecordField::Item,
            GivenValue::Text(field, _) => RecordField::Text(*field),
        }
    }
}
