//! A variable for each pair of places that isn't recorded either way round.
ghost use Rattle.std.specs.Prelude.{◌≡◌, ◌<◌, ◌+◌, ◌*◌, length, IfOk, OnOk, OnErr};
ghost use Rattle.clause_store.specs.Formula.{Grows, AllKnown};
ghost use Rattle.order_clauses.specs.declared.pair.Pair.{Pair};
ghost use Rattle.order_clauses.specs.Grid.{IsMade, IsNumber, IsSquare, is_open_at, is_pair_at, recorded_in, lit_in};
ghost use Rattle.order_clauses.specs.Tables.{IsTable};

use crate::pair::Pair;
use crate::table::{Table, is_recorded_at};
use clause_store::store::ClauseStore;
use odr_list::list::List;
use odr_list::memory::Memory;
use std::alloc::Global;

// Whether neither of two places is recorded to stand before the other.
fn is_open(recorded: &[bool], count: usize, i: usize, j: usize) -> bool
    requires square { length recorded.now ≡ count * count }
    requires row { i < count }
    requires column { j < count }
    ensures { result ≡ is_open_at recorded.now count i j }
{
    !is_recorded_at(recorded, count, i, j) && !is_recorded_at(recorded, count, j, i)
}

// Whether the first place is the smaller one and they are open.
fn is_pair(recorded: &[bool], count: usize, i: usize, j: usize) -> bool
    requires square { length recorded.now ≡ count * count }
    requires row { i < count }
    requires column { j < count }
    ensures { result ≡ is_pair_at recorded.now count i j }
{
    i < j && is_open(recorded, count, i, j)
}

// The next variable, for a pair that is listed.
fn number_pair(
    clauses: &mut ClauseStore<'_>,
    pairs: &mut List<Pair>,
    pair: Pair,
) -> Result<u64, Memory>
    ensures made { IfOk result (λ var. IsMade pair clauses.old clauses.new pairs.old pairs.new var) }
    ensures err { OnErr result (Grows clauses.old clauses.new) }
{
    let var = clauses.fresh()?;
    pairs.push(pair)?;
    Ok(var)
}

// The next variable for two places that are a pair, else 0.
fn number_places(
    recorded: &[bool],
    count: usize,
    clauses: &mut ClauseStore<'_>,
    pairs: &mut List<Pair>,
    i: usize,
    j: usize,
) -> Result<u64, Memory>
    requires square { length recorded.now ≡ count * count }
    requires row { i < count }
    requires column { j < count }
    ensures number { IfOk result (λ var. IsNumber (is_pair_at recorded.now count i j) (record { first = i; second = j }) clauses.old clauses.new pairs.old pairs.new var) }
    ensures err { OnErr result (Grows clauses.old clauses.new) }
{
    if is_pair(recorded, count, i, j) {
        number_pair(
            clauses,
            pairs,
            Pair {
                first: i,
                second: j,
            },
        )
    } else {
        Ok(0)
    }
}

/// The table of so many places, with a new variable for each pair that isn't recorded either way round.
pub fn table_of(
    alloc: Global,
    count: usize,
    recorded: List<bool>,
    clauses: &mut ClauseStore<'_>,
) -> Result<Table, Memory>
    requires square { length recorded ≡ count * count }
    ensures count { IfOk result (λ table. table.count ≡ count) }
    ensures recorded { IfOk result (λ table. table.recorded ≡ recorded) }
    ensures square { IfOk result IsSquare }
    ensures table { IfOk result (λ table. IsTable count (recorded_in table) (lit_in table) clauses.old.vars table.pairs) }
    ensures vars { IfOk result (λ table. clauses.new.vars ≡ clauses.old.vars + length table.pairs) }
    ensures same { OnOk result (clauses.new.clauses ≡ clauses.old.clauses) }
    ensures err { OnErr result (Grows clauses.old clauses.new) }
{
    let mut numbers = List::new(alloc);
    let mut pairs = List::new(alloc);
    for k in 0..recorded.len() {
        let var = number_places(
            recorded.as_slice(),
            count,
            clauses,
            &mut pairs,
            k / count,
            k % count,
        )?;
        numbers.push(var)?;
    }
    Ok(Table {
        count,
        recorded,
        numbers,
        pairs,
    })
}
