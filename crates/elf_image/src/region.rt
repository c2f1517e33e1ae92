use odr_list::bytes::Bytes;

/// What may be done with a region's bytes.
#[derive(Clone, Copy, Debug, PartialEq, Eq)]
pub struct Perm {
    /// They may be read.
    pub r: bool,
    /// They may be written.
    pub w: bool,
    /// They may be fetched as instructions.
    pub x: bool,
}

/// A piece of memory: its first address, its rights, and the bytes that it holds in the beginning.
#[derive(Debug, Drop)]
pub struct Region {
    pub start: u32,
    pub perm: Perm,
    pub bytes: Bytes,
}
