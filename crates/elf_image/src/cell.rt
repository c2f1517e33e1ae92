/// A byte of a guest's memory, and what may be done with it.
#[derive(Clone, Copy, Debug, PartialEq, Eq)]
pub struct Cell {
    pub byte: u8,
    pub readable: bool,
    pub writable: bool,
}
