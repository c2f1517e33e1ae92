//! What the clauses of a reader name.
ghost use Rattle.std.specs.Prelude.{◌≡◌, ◌<◌, length};
ghost use Rattle.source_clauses.specs.Clauses.{selection_at, older_at, next_at};

use clause_store::lit::Lit;
use odr_list::list::List;
use order_clauses::order_lit::OrderLit;

/// What the clauses of a reader name: its sources' selections, the conditions of its candidates, and their next ones.
#[derive(Debug, Drop)]
pub struct Named {
    /// A literal for each candidate, and one for the initial bits.
    pub selected: List<Lit>,
    /// Whether each candidate stands before the reader and hits.
    pub olders: List<OrderLit>,
    /// For each candidate a later one that hides what stands after both.
    pub nexts: List<Option<usize>>,
}

impl Named {
    /// The selection of a source.
    pub fn selection(&self, i: usize) -> Lit
        requires { i < length self.now.selected }
        ensures { result ≡ selection_at self.now.selected i }
    {
        self.selected.as_slice()[i]
    }

    /// Whether a candidate stands before the reader and hits.
    pub fn older(&self, i: usize) -> OrderLit
        requires { i < length self.now.olders }
        ensures { result ≡ older_at self.now.olders i }
    {
        self.olders.as_slice()[i]
    }

    /// The next one of a candidate.
    pub fn next(&self, i: usize) -> Option<usize>
        requires { i < length self.now.nexts }
        ensures { result ≡ next_at self.now.nexts i }
    {
        self.nexts.as_slice()[i]
    }
}
