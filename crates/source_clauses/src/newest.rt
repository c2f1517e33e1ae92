//! Clauses that make the selected candidate the newest one.
ghost use Rattle.std.specs.Prelude.{◌≡◌, ◌<◌, ◌↔◌, true, nat_lt, if◌then◌else◌, length, Contains, IsTrue, IfOk, IfSome, OnOk, OnErr};
ghost use Rattle.clause_store.specs.Formula.{Grows};
ghost use Rattle.order_clauses.specs.Clauses.{Adds};
ghost use Rattle.order_clauses.specs.declared.order_lit.OrderLit.TheVariants as order_lit;
ghost use Rattle.source_clauses.specs.Clauses.{is_always, is_covered, is_apart, IsNext, AreNexts, newest, NewestOf, NewestClause};
ghost use Rattle.source_clauses.specs.Contract.{KnowsReader, KnowsPlaces};
ghost use Rattle.source_clauses.specs.Named.{KnowsNamed};
ghost use Rattle.source_clauses.specs.Sees.{between};

use crate::implied::add_implied;
use crate::named::Named;
use crate::reader::{Candidate, Reader};
use clause_store::store::ClauseStore;
use odr_list::list::List;
use odr_list::memory::Memory;
use order_clauses::order_lit::OrderLit;
use order_clauses::table::Table;
use std::alloc::Global;

fn is_always(condition: OrderLit) -> bool
    ensures { result ≡ is_always condition }
{
    matches!(condition, OrderLit::Always)
}

fn is_never(condition: OrderLit) -> bool
    ensures { IsTrue result ↔ (condition ≡ order_lit.Never) }
{
    matches!(condition, OrderLit::Never)
}

// The order of two bytes of one access, by their places in the list.
fn in_list(i: usize, j: usize) -> OrderLit
    ensures { result ≡ (if nat_lt i j then order_lit.Always else order_lit.Never) }
{
    if i < j {
        OrderLit::Always
    } else {
        OrderLit::Never
    }
}

// One candidate stands before another; of two bytes of one access the earlier in the list does.
fn between(table: &Table, candidates: &[Candidate], i: usize, j: usize) -> OrderLit
    requires known { KnowsPlaces table.now candidates.now }
    requires i_in { i < length candidates.now }
    requires j_in { j < length candidates.now }
    ensures { result ≡ between table.now candidates.now i j }
{
    let (first, second) = (candidates[i].at, candidates[j].at);
    if first == second {
        in_list(i, j)
    } else {
        table.lit(first, second)
    }
}

// Whether a candidate always hits, if it is before the reader, and never stands before another.
fn follows(table: &Table, candidates: &[Candidate], i: usize, k: usize) -> bool
    requires known { KnowsPlaces table.now candidates.now }
    requires i_in { i < k }
    requires k_in { k < length candidates.now }
    ensures { result ≡ true → IsNext table.now candidates.now i k }
{
    is_always(candidates[k].hit) && is_never(between(table, candidates, k, i))
}

// The first later candidate in the list that always hits and never stands before this one.
fn next_of(table: &Table, candidates: &[Candidate], i: usize) -> Option<usize>
    requires known { KnowsPlaces table.now candidates.now }
    requires i_in { i < length candidates.now }
    ensures { IfSome result (IsNext table.now candidates.now i) }
{
    for k in i + 1..candidates.len() {
        if follows(table, candidates, i, k) {
            return Some(k);
        }
    }
    None
}

/// The same of each candidate.
pub fn nexts_of(
    alloc: Global,
    table: &Table,
    candidates: &[Candidate],
) -> Result<List<Option<usize>>, Memory>
    requires known { KnowsPlaces table.now candidates.now }
    ensures { IfOk result (AreNexts table.now candidates.now (length candidates.now)) }
{
    let mut nexts = List::new(alloc);
    for i in 0..candidates.len() {
        let next = next_of(table, candidates, i);
        nexts.push(next)?;
    }
    Ok(nexts)
}

// Whether the next one is recorded to stand before another candidate.
fn is_covered(table: &Table, candidates: &[Candidate], next: Option<usize>, j: usize) -> bool
    requires known { KnowsPlaces table.now candidates.now }
    requires next_in { IfSome next (λ k. k < length candidates.now) }
    requires j_in { j < length candidates.now }
    ensures { result ≡ is_covered table.now candidates.now next j }
{
    match next {
        Some(k) => is_always(table.lit(candidates[k].at, candidates[j].at)),
        None => false,
    }
}

// Whether two candidates differ and the second one isn't covered.
fn is_apart(
    table: &Table,
    candidates: &[Candidate],
    next: Option<usize>,
    i: usize,
    j: usize,
) -> bool
    requires known { KnowsPlaces table.now candidates.now }
    requires next_in { IfSome next (λ k. k < length candidates.now) }
    requires j_in { j < length candidates.now }
    ensures { result ≡ is_apart table.now candidates.now next i j }
{
    i != j && !is_covered(table, candidates, next, j)
}

// Where one candidate is selected and another is older than the reader, the other stands before it.
fn add_newest(
    table: &Table,
    clauses: &mut ClauseStore<'_>,
    reader: &Reader,
    named: &Named,
    i: usize,
    j: usize,
) -> Result<(), Memory>
    requires reader_known { KnowsReader clauses.old.vars table.now reader.now }
    requires named_known { KnowsNamed clauses.old.vars table.now reader.now named.now }
    requires i_in { i < length reader.now.candidates }
    requires j_in { j < length reader.now.candidates }
    ensures ok { OnOk result (Adds clauses.old clauses.new (Contains (newest table.now reader.now.candidates named.now.nexts named.now.selected named.now.olders i j))) }
    ensures err { OnErr result (Grows clauses.old clauses.new) }
{
    if !is_apart(table, reader.candidates.as_slice(), named.next(i), i, j) {
        return Ok(());
    }
    let follows = between(table, reader.candidates.as_slice(), j, i);
    add_implied(clauses, named.selection(i), named.older(j), follows)?;
    Ok(())
}

// The same of one candidate and each other.
fn add_newest_of(
    table: &Table,
    clauses: &mut ClauseStore<'_>,
    reader: &Reader,
    named: &Named,
    i: usize,
) -> Result<(), Memory>
    requires reader_known { KnowsReader clauses.old.vars table.now reader.now }
    requires named_known { KnowsNamed clauses.old.vars table.now reader.now named.now }
    requires i_in { i < length reader.now.candidates }
    ensures ok { OnOk result (Adds clauses.old clauses.new (NewestOf table.now reader.now.candidates named.now.nexts named.now.selected named.now.olders i)) }
    ensures err { OnErr result (Grows clauses.old clauses.new) }
{
    for j in 0..reader.candidates.len() {
        add_newest(table, clauses, reader, named, i, j)?;
    }
    Ok(())
}

/// The same of each two candidates.
pub fn add_newest_of_all(
    table: &Table,
    clauses: &mut ClauseStore<'_>,
    reader: &Reader,
    named: &Named,
) -> Result<(), Memory>
    requires reader_known { KnowsReader clauses.old.vars table.now reader.now }
    requires named_known { KnowsNamed clauses.old.vars table.now reader.now named.now }
    ensures ok { OnOk result (Adds clauses.old clauses.new (NewestClause table.now reader.now.candidates named.now.nexts named.now.selected named.now.olders)) }
    ensures err { OnErr result (Grows clauses.old clauses.new) }
{
    for i in 0..reader.candidates.len() {
        add_newest_of(table, clauses, reader, named, i)?;
    }
    Ok(())
}
