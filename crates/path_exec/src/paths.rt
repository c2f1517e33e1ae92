//! What symbolic paths are made of.

use bv_terms::node::TermId;
use odr_list::list::List;
use thread_terms::access::Access;

/// The accesses of all threads, the constraints under which the log's walk is the recorded one, and the registers at the end.
#[derive(Debug, Drop)]
pub struct Paths {
    /// The accesses of the walk, each once.
    pub accesses: List<Access>,
    /// Terms of one bit.
    pub constraints: List<TermId>,
    /// Words: of thread t the register with number n stands at place 32 t + n.
    pub ends: List<TermId>,
}
