//! Variables for the order of chosen steps.
ghost use Rattle.std.specs.Prelude.{◌≡◌, ◌≢◌, ◌↔◌, ◌<◌, ◌+◌, [], length, All, AllPairs, Contains, IsTrue, IfSome, IfNone, IfOk, OnErr};
ghost use Rattle.clause_store.specs.Formula.{Formula, Grows};
ghost use Rattle.happens_before.specs.Table.{IsOrderOf};
ghost use Rattle.odr_log.specs.declared.log.Log.{Log};
ghost use Rattle.order_clauses.specs.declared.order_lit.OrderLit.TheVariants as order_lit;
ghost use Rattle.order_clauses.specs.Grid.{KnowsTable, IsSquare, lit_in};
ghost use Rattle.order_vars.specs.Chosen.{position, IsFirstPlace, IsOrderVars, PairsAreOpen, IsLitOf};
ghost use Rattle.rv_model.specs.RecordedOrder.{Counted, RecordedOrder};

use crate::matrix::matrix_of;
use clause_store::store::ClauseStore;
use happens_before::order::Order;
use odr_list::list::List;
use odr_list::memory::Memory;
use odr_log::log::Pos;
use order_clauses::order_lit::OrderLit;
use order_clauses::ordered::{OrderedTable, ordered_table};
use order_clauses::pair::Pair;
use order_clauses::table::Table;
use std::alloc::Global;
use std::marker::Model;

/// The table of chosen steps by their places, with a new variable for each open pair of them and the clauses that make
/// its literals the total orders that agree with the recorded order.
fn order_of_chosen(
    alloc: Global,
    order: &Order,
    chosen: &[Pos],
    clauses: &mut ClauseStore<'_>,
) -> Result<OrderedTable, Memory>
    ensures orders { IfOk result (λ ordered. (log : Log) → IsOrderOf order.now log → All (Counted log) chosen.now
        → IsOrderVars log chosen.now ordered clauses.old clauses.new) }
    ensures pairs { IfOk result (λ ordered. (log : Log) → IsOrderOf order.now log → All (Counted log) chosen.now
        → AllPairs (λ a b. a ≢ b) chosen.now → PairsAreOpen log chosen.now ordered) }
    ensures square { IfOk result (λ ordered. IsSquare ordered.table) }
    ensures count { IfOk result (λ ordered. ordered.table.count ≡ length chosen.now) }
    ensures vars { IfOk result (λ ordered. clauses.new.vars ≡ clauses.old.vars + length ordered.table.pairs) }
    ensures known { IfOk result (λ ordered. KnowsTable clauses.new.vars ordered.table) }
    ensures grows { IfOk result (λ ordered. Grows clauses.old clauses.new) }
    ensures err { OnErr result (Grows clauses.old clauses.new) }
{
    let recorded = matrix_of(alloc, order, chosen)?;
    ordered_table(alloc, chosen.len(), recorded, clauses)
}

// The first place at which a step stands among the chosen.
fn find_in(chosen: &[Pos], at: Pos) -> Option<usize>
    ensures found { IfSome result (λ place. IsFirstPlace chosen.now at place) }
    ensures missing { IfNone result (Contains chosen.now at → ⊥) }
{
    for place in 0..chosen.len() {
        if chosen[place] == at {
            return Some(place);
        }
    }
    None
}

// The first place of a chosen step.
fn place_of(chosen: &[Pos], at: Pos) -> usize
    requires { Contains chosen.now at }
    ensures within { result < length chosen.now }
    ensures place { position chosen.now result ≡ at }
{
    match find_in(chosen, at) {
        Some(place) => place,
        None => 0,
    }
}

/// A literal for each two of chosen steps that says which stands before the other. Contracts see the chosen steps and
/// the table of their places.
#[derive(Debug, Drop)]
pub struct OrderVars {
    chosen: List<Pos>,
    ordered: OrderedTable,
}

impl Model for OrderVars {
    ghost use Rattle.order_vars.specs.Chosen.{ChosenOrder, IsTableOf};

    ghost Value = { ChosenOrder };

    ghost view = { λ vars. record { chosen = vars.chosen; ordered = vars.ordered } };

    ghost invariant = { λ vars. IsTableOf vars.chosen vars.ordered.table };
}

impl OrderVars {
    /// Makes one variable for each open pair of the chosen steps, and adds the clauses that make their literals the
    /// total orders that agree with the recorded order. The log counts the chosen steps, and all differ.
    ///
    /// # Errors
    ///
    /// `Memory` alone, which leaves older variables and clauses.
    pub fn new(
        alloc: Global,
        order: &Order,
        chosen: &[Pos],
        clauses: &mut ClauseStore<'_>,
    ) -> Result<OrderVars, Memory>
        ensures chosen { IfOk result (λ vars. vars.chosen ≡ chosen.now) }
        ensures orders { IfOk result (λ vars. (log : Log) → IsOrderOf order.now log → All (Counted log) chosen.now
            → IsOrderVars log chosen.now vars.ordered clauses.old clauses.new) }
        ensures pairs { IfOk result (λ vars. (log : Log) → IsOrderOf order.now log → All (Counted log) chosen.now
            → AllPairs (λ a b. a ≢ b) chosen.now → PairsAreOpen log chosen.now vars.ordered) }
        ensures vars { IfOk result (λ vars. clauses.new.vars ≡ clauses.old.vars + length vars.ordered.table.pairs) }
        ensures known { IfOk result (λ vars. KnowsTable clauses.new.vars vars.ordered.table) }
        ensures grows { IfOk result (λ vars. Grows clauses.old clauses.new) }
        ensures err { OnErr result (Grows clauses.old clauses.new) }
    {
        let steps = Vec::from_slice(alloc, chosen)?;
        let ordered = order_of_chosen(alloc, order, chosen, clauses)?;
        Ok(OrderVars {
            chosen: List::of(steps),
            ordered,
        })
    }

    /// The table of the places. Takes no memory.
    pub fn table(&self) -> &Table
        ensures table { result.now ≡ self.now.ordered.table }
        ensures square { IsSquare result.now }
        ensures count { result.now.count ≡ length self.now.chosen }
    {
        &self.ordered.table
    }

    /// The open pairs of places, in the order of their variables. Takes no memory.
    pub fn pairs(&self) -> &[Pair]
        ensures { result.now ≡ self.now.ordered.table.pairs }
    {
        self.ordered.table.pairs.as_slice()
    }

    /// The variable of the first pair. Takes no memory.
    pub fn first(&self) -> u64
        ensures { result ≡ self.now.ordered.first }
    {
        self.ordered.first
    }

    /// The number of chosen steps. Takes no memory.
    pub fn len(&self) -> usize
        ensures { result ≡ length self.now.chosen }
    {
        self.chosen.len()
    }

    /// Whether no step is chosen. Takes no memory.
    pub fn is_empty(&self) -> bool
        ensures { IsTrue result ↔ (self.now.chosen ≡ []) }
    {
        self.chosen.is_empty()
    }

    /// The first place of a step among the chosen, none where it isn't chosen. Takes no memory.
    pub fn find(&self, at: Pos) -> Option<usize>
        ensures found { IfSome result (λ place. IsFirstPlace self.now.chosen at place) }
        ensures missing { IfNone result (Contains self.now.chosen at → ⊥) }
    {
        find_in(self.chosen.as_slice(), at)
    }

    /// The chosen step at a place. Takes no memory.
    pub fn step(&self, i: usize) -> Pos
        requires { i < length self.now.chosen }
        ensures { result ≡ position self.now.chosen i }
    {
        self.chosen.as_slice()[i]
    }

    // The literal of the places at which two chosen steps stand.
    fn lit_of(&self, a: Pos, b: Pos) -> OrderLit
        requires a_chosen { Contains self.now.chosen a }
        requires b_chosen { Contains self.now.chosen b }
        ensures { IsLitOf self.now a b result }
    {
        let first = place_of(self.chosen.as_slice(), a);
        let second = place_of(self.chosen.as_slice(), b);
        self.ordered.table.lit(first, second)
    }

    /// What says that the first of two chosen steps that differ stands before the other: always exactly where it is
    /// recorded so, never exactly where the opposite is, else a literal that is true in the orders where it does. Takes
    /// no memory.
    pub fn lit(&self, a: Pos, b: Pos) -> OrderLit
        requires a_chosen { Contains self.now.chosen a }
        requires b_chosen { Contains self.now.chosen b }
        ensures lit { IsLitOf self.now a b result }
        ensures always { (log : Log) (old new : Formula) → IsOrderVars log self.now.chosen self.now.ordered old new → a ≢ b
            → (result ≡ order_lit.Always) ↔ RecordedOrder log a b }
        ensures never { (log : Log) (old new : Formula) → IsOrderVars log self.now.chosen self.now.ordered old new → a ≢ b
            → (result ≡ order_lit.Never) ↔ RecordedOrder log b a }
    {
        self.lit_of(a, b)
    }

    /// The same of two places among the chosen steps. Takes no memory.
    pub fn lit_at(&self, i: usize, j: usize) -> OrderLit
        requires i_in { i < length self.now.chosen }
        requires j_in { j < length self.now.chosen }
        ensures { result ≡ lit_in self.now.ordered.table i j }
    {
        self.ordered.table.lit(i, j)
    }
}
