//! Which of the accesses is recorded to stand before which.
ghost use Rattle.std.specs.Prelude.{◌≡◌, ◌↔◌, ℕ, ◌<◌, true, length, map, IfOk};
ghost use Rattle.happens_before.specs.Table.{IsOrderOf};
ghost use Rattle.odr_log.specs.declared.log.Log.{Log};
ghost use Rattle.race_set.specs.Accesses.{AreCounted, shape_at};
ghost use Rattle.race_set.specs.Places.{IsSquare, cell, recorded_in};
ghost use Rattle.rv_model.specs.RecordedOrder.{RecordedOrder};

use crate::shape::AccessShape;
use happens_before::order::Order;
use odr_list::list::List;
use odr_list::memory::Memory;
use odr_log::log::Pos;
use order_vars::matrix::matrix_of;
use std::alloc::{AllocError, Global};

/// For each two of so many accesses, by their numbers, whether the first is recorded to stand before the second.
#[derive(Debug, Drop)]
pub struct Matrix {
    pub count: usize,
    /// Row by row.
    pub cells: List<bool>,
}

// The steps of accesses.
fn positions_of(alloc: Global, shapes: &[AccessShape]) -> Result<Vec<Pos>, AllocError>
    ensures { IfOk result (λ positions. positions.items ≡ map (λ x. x.pos) shapes.now) }
{
    shapes.iter().map(|shape| shape.pos).collect(alloc)
}

impl Matrix {
    /// Asks the recorded order of each two accesses.
    ///
    /// # Errors
    ///
    /// `Memory` alone.
    pub fn of(alloc: Global, order: &Order, shapes: &[AccessShape]) -> Result<Matrix, Memory>
        ensures count { IfOk result (λ m. m.count ≡ length shapes.now) }
        ensures square { IfOk result (λ m. IsSquare m) }
        ensures recorded { IfOk result (λ m. (log : Log) → IsOrderOf order.now log → AreCounted log shapes.now
            → (i j : ℕ) → i < length shapes.now → j < length shapes.now
            → (cell m i j ≡ true) ↔ RecordedOrder log (shape_at shapes.now i).pos (shape_at shapes.now j).pos) }
    {
        let positions = positions_of(alloc, shapes)?;
        let cells = matrix_of(alloc, order, positions.as_slice())?;
        Ok(Matrix {
            count: shapes.len(),
            cells,
        })
    }

    /// Whether one access is recorded to stand before another. Takes no memory.
    pub fn has(&self, i: usize, j: usize) -> bool
        requires square { IsSquare self.now }
        requires row { i < self.now.count }
        requires column { j < self.now.count }
        ensures { result ≡ recorded_in self.now i j }
    {
        self.cells.as_slice()[i * self.count + j]
    }
}
