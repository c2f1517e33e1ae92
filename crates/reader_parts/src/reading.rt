//! Which bytes are read together, and where they may have been written.

/// Bytes of an access that are read together, as the same writes may be seen in all of them.
#[derive(Clone, Copy, Debug)]
pub struct Reading {
    /// The number of the access.
    pub access: usize,
    /// The first of the bytes.
    pub index: u32,
    /// How many there are.
    pub count: u32,
    /// The place of the access in the table of the order.
    pub at: usize,
}

/// Bytes of an access that may be seen where bytes are read together.
#[derive(Clone, Copy, Debug)]
pub struct Spot {
    /// The number of the access.
    pub access: usize,
    /// The byte that is seen in the first of those that are read.
    pub byte: u32,
    /// The place of the access in the table of the order.
    pub at: usize,
}
