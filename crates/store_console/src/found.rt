//! What is found in a file.

/// Whose file it is, by its label.
#[derive(Clone, Copy, Debug, PartialEq, Eq)]
pub enum Owner {
    /// There is no label: it is a store's, or its making wasn't ended.
    Store,
    /// That of this number, in a cluster of so many.
    Node(u8, u8),
    /// The label isn't one that is known here.
    Unknown,
}

/// The counter of a file.
#[derive(Clone, Copy, Debug, PartialEq, Eq)]
pub enum Counter {
    /// No slot of it is sealed.
    Missing,
    Value(u64),
    /// The slot with its body in this sector is sealed, and the body is none of a cell.
    Damaged(u64),
}
