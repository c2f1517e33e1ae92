/// So many steps of one thread in a row.
#[derive(Clone, Copy, Debug, PartialEq, Eq)]
pub struct Run {
    pub thread: u8,
    pub count: u32,
}
