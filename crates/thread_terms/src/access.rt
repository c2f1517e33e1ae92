//! What a step adds to the terms of its thread.

use bv_terms::node::TermId;
use odr_list::list::List;
use odr_log::log::Pos;

/// An access of a thread's walk, as terms over what accesses read.
#[derive(Debug, Drop)]
pub struct Access {
    pub pos: Pos,
    /// A word: where its bytes begin.
    pub address: TermId,
    /// A term of one bit: whether the bytes are written.
    pub guard: TermId,
    /// A variable for each byte that is read, that of the lowest address first.
    pub reads: List<TermId>,
    /// A term of 8 bits for each byte that may be written, that of the lowest address first.
    pub writes: List<TermId>,
    /// Of a store-conditional, the place among the accesses of the load-reserved that it looks back to.
    pub link: Option<u32>,
}

/// What one step adds.
#[derive(Debug, Drop)]
pub struct Stepped {
    /// A term of one bit, which is 1 exactly where the step goes as it is recorded.
    pub constraint: TermId,
    /// What the step reads and writes, if it accesses memory.
    pub access: Option<Access>,
}
