//! A reader of a byte or a word, and the writes that it may see.
ghost use Rattle.std.specs.Prelude.{◌≡◌, ◌<◌, length};
ghost use Rattle.source_clauses.specs.Sees.{candidate_at};

use clause_store::lit::Lit;
use odr_list::list::List;
use order_clauses::order_lit::OrderLit;

/// A write that a reader may see.
#[derive(Debug, Drop)]
pub struct Candidate {
    /// Its place in the table of the order.
    pub at: usize,
    /// Whether it takes place and writes what the reader reads: always, never, or where a literal is true.
    pub hit: OrderLit,
    /// The bits that it writes there.
    pub bits: List<Lit>,
}

/// What reads, and all writes that it may see.
#[derive(Debug, Drop)]
pub struct Reader {
    /// Its place in the table of the order.
    pub at: usize,
    /// The writes that it may see.
    pub candidates: List<Candidate>,
    /// The bits that it sees where none of them stands before it and hits.
    pub initial: List<Lit>,
    /// The bits that it reads.
    pub read: List<Lit>,
}

impl Reader {
    /// A candidate by its number. Takes no memory.
    pub fn candidate(&self, i: usize) -> &Candidate
        requires { i < length self.now.candidates }
        ensures { result.now ≡ candidate_at self.now.candidates i }
    {
        &self.candidates.as_slice()[i]
    }
}
