//! What one call on a connection did.

/// What one read or write of a connection did to its visitor.
#[derive(Drop)]
pub enum Turn<V> {
    /// It went on: another call may too.
    On(V),
    /// It would have waited: the visitor stays as it was.
    Waits(V),
    /// The connection failed, or memory was refused: the visit is over.
    Lost,
}
