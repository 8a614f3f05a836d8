//! Names of places.

use record_text::Text;

/// The name of a place, and the number of the place that it is within.
pub(crate) struct PlaceName {
    pub name: Text,
    pub parent: Option<u32>,
}

// It is written out, so that no function above proves again how each part is dropped.
impl Drop for PlaceName {
    fn drop(self) {
        let PlaceName { name: _, parent: _ } = self;
    }
}
