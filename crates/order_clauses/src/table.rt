//! The table of places: which are recorded to stand before which, and the variable of each other pair.
ghost use Rattle.std.specs.Prelude.{◌≡◌, ◌<◌, ◌+◌, ◌*◌, length, get_or, false};
ghost use Rattle.order_clauses.specs.Grid.{recorded_at, recorded_in, open_literal, lit_in, IsSquare, number_at};
ghost use Rattle.order_clauses.specs.Literals.{literal_of};

use crate::order_lit::OrderLit;
use crate::pair::Pair;
use clause_store::lit::Lit;
use odr_list::list::List;

/// Which of two places is recorded to stand before the other, and a variable for each other pair.
#[derive(Debug, Drop)]
pub struct Table {
    /// The number of places.
    pub count: usize,
    /// Whether one place is recorded to stand before another, row by row.
    pub recorded: List<bool>,
    /// The variables of pairs, row by row, 0 at each other place.
    pub numbers: List<u64>,
    /// The pairs in the order of their variables.
    pub pairs: List<Pair>,
}

/// Where two places meet, row by row.
fn place(count: usize, cells: usize, i: usize, j: usize) -> usize
    requires square { cells ≡ count * count }
    requires row { i < count }
    requires column { j < count }
    ensures within { result < cells }
    ensures place { result ≡ i * count + j }
{
    i * count + j
}

/// Whether one place is recorded to stand before another.
pub fn is_recorded_at(recorded: &[bool], count: usize, i: usize, j: usize) -> bool
    requires square { length recorded.now ≡ count * count }
    requires row { i < count }
    requires column { j < count }
    ensures { result ≡ recorded_at recorded.now count i j }
{
    i != j && recorded[place(count, recorded.len(), i, j)]
}

/// The variable of a pair.
fn number_at(numbers: &[u64], count: usize, i: usize, j: usize) -> u64
    requires square { length numbers.now ≡ count * count }
    requires row { i < count }
    requires column { j < count }
    ensures { result ≡ number_at numbers.now count i j }
{
    numbers[place(count, numbers.len(), i, j)]
}

impl Table {
    /// Whether one place is recorded to stand before another. Takes no memory.
    pub fn is_recorded(&self, i: usize, j: usize) -> bool
        requires square { IsSquare self.now }
        requires row { i < self.now.count }
        requires column { j < self.now.count }
        ensures { result ≡ recorded_in self.now i j }
    {
        is_recorded_at(self.recorded.as_slice(), self.count, i, j)
    }

    // The literal of two places, neither recorded to stand before the other.
    fn open_literal(&self, i: usize, j: usize) -> OrderLit
        requires square { IsSquare self.now }
        requires row { i < self.now.count }
        requires column { j < self.now.count }
        ensures { result ≡ open_literal self.now i j }
    {
        if i < j {
            OrderLit::Is(Lit {
                var: number_at(self.numbers.as_slice(), self.count, i, j),
                positive: true,
            })
        } else {
            OrderLit::Is(Lit {
                var: number_at(self.numbers.as_slice(), self.count, j, i),
                positive: false,
            })
        }
    }

    /// What stands for the first of two places before the other. Takes no memory.
    pub fn lit(&self, i: usize, j: usize) -> OrderLit
        requires square { IsSquare self.now }
        requires row { i < self.now.count }
        requires column { j < self.now.count }
        ensures { result ≡ lit_in self.now i j }
    {
        if i == j {
            OrderLit::Never
        } else if self.is_recorded(i, j) {
            OrderLit::Always
        } else if self.is_recorded(j, i) {
            OrderLit::Never
        } else {
            self.open_literal(i, j)
        }
    }
}
