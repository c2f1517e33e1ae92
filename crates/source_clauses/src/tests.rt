ghost use Rattle.std.specs.Prelude.{◌≡◌, ◌<◌, ◌+◌, ◌∷◌, [], IfOk};
ghost use Rattle.order_clauses.specs.declared.order_lit.OrderLit.TheVariants as order_lit;
ghost use Rattle.order_clauses.specs.Grid.{IsSquare, KnowsTable};

use crate::reader::{Candidate, Reader};
use crate::same::add_same;
use crate::sources::add_reader;
use bumpalo::Bump;
use clause_store::lit::Lit;
use clause_store::store::ClauseStore;
use odr_list::list::List;
use odr_list::memory::Memory;
use order_clauses::order_lit::OrderLit;
use order_clauses::ordered::ordered_table;
use order_clauses::table::Table;
use std::alloc::Global;
use std::test::Fail;

fn bit(clauses: &mut ClauseStore<'_>) -> Result<Lit, Memory>
    ensures known { IfOk result (λ lit. lit.var < clauses.new.vars) }
    ensures grows { IfOk result (λ lit. clauses.new.vars ≡ clauses.old.vars + 1) }
{
    let var = clauses.fresh()?;
    Ok(Lit {
        var,
        positive: true,
    })
}

fn one(alloc: Global, lit: Lit) -> Result<List<Lit>, Memory>
    ensures { IfOk result (λ bits. bits ≡ lit ∷ []) }
{
    let mut bits = List::new(alloc);
    bits.push(lit)?;
    Ok(bits)
}

/// A write of one bit that always hits.
fn write(alloc: Global, at: usize, lit: Lit) -> Result<Candidate, Memory>
    ensures { IfOk result (λ write. write ≡ record { at = at; hit = order_lit.Always; bits = lit ∷ [] }) }
{
    let bits = one(alloc, lit)?;
    Ok(Candidate {
        at,
        hit: OrderLit::Always,
        bits,
    })
}

/// The bits of three writes, the initial one and the one that is read.
#[derive(Clone, Copy)]
struct Bits {
    first: Lit,
    second: Lit,
    third: Lit,
    initial: Lit,
    read: Lit,
}

/// The writes, at the first three places.
fn writes_of(alloc: Global, bits: &Bits) -> Result<List<Candidate>, Memory>
    ensures { IfOk result (λ writes. writes ≡ record { at = 0; hit = order_lit.Always; bits = bits.now.first ∷ [] }
        ∷ record { at = 1; hit = order_lit.Always; bits = bits.now.second ∷ [] }
        ∷ record { at = 2; hit = order_lit.Always; bits = bits.now.third ∷ [] } ∷ []) }
{
    let mut writes = List::new(alloc);
    writes.push(write(alloc, 0, bits.first)?)?;
    writes.push(write(alloc, 1, bits.second)?)?;
    writes.push(write(alloc, 2, bits.third)?)?;
    Ok(writes)
}

/// Adds a reader of one bit at the fourth place.
fn add_fourth(
    alloc: Global,
    table: &Table,
    clauses: &mut ClauseStore<'_>,
    bits: &Bits,
) -> Result<(), Memory>
    requires square { IsSquare table.now }
    requires known { KnowsTable clauses.old.vars table.now }
    requires places { 3 < table.now.count }
    requires first_known { bits.now.first.var < clauses.old.vars }
    requires second_known { bits.now.second.var < clauses.old.vars }
    requires third_known { bits.now.third.var < clauses.old.vars }
    requires initial_known { bits.now.initial.var < clauses.old.vars }
    requires read_known { bits.now.read.var < clauses.old.vars }
{
    let candidates = writes_of(alloc, bits)?;
    let initial = one(alloc, bits.initial)?;
    let read = one(alloc, bits.read)?;
    let reader = Reader {
        at: 3,
        candidates,
        initial,
        read,
    };
    add_reader(alloc, table, clauses, &reader)
}

/// The variables and clauses of four places of which this is recorded, row by row, and of a reader of three writes.
fn counts(alloc: Global, recorded: [bool; 16]) -> Result<(u64, usize), Fail> {
    let arena = Bump::new(alloc);
    let mut clauses = ClauseStore::new(alloc, &arena);
    let first = bit(&mut clauses)?;
    let second = bit(&mut clauses)?;
    let third = bit(&mut clauses)?;
    let initial = bit(&mut clauses)?;
    let read = bit(&mut clauses)?;
    let bits = Bits {
        first,
        second,
        third,
        initial,
        read,
    };
    let cells = List::of(recorded.to_vec(alloc)?);
    let ordered = ordered_table(alloc, 4, cells, &mut clauses)?;
    add_fourth(alloc, &ordered.table, &mut clauses, &bits)?;
    Ok((clauses.vars(), clauses.len()))
}

/// What is recorded, and the numbers of variables and clauses.
type Row = ([bool; 16], (u64, usize));

const O: bool = false;

const I: bool = true;

/// Variables are five bits, the open pairs and four sources. Of the clauses one says that some source is selected, and
/// each source copies its bit by two.
fn rows() -> [Row; 3] {
    [
        // All race: two clauses for each three of the places; each write is older, has no newer one among the two others,
        // and isn't there where the initial bit is read.
        (
            [O, O, O, O, O, O, O, O, O, O, O, O, O, O, O, O],
            (5 + 6 + 4, 8 + 1 + 8 + 3 + 6 + 3),
        ),
        // All stand in a row: the first two writes and the initial bit aren't seen. That the third write hides the first
        // is left out, since the second does.
        (
            [O, I, I, I, O, O, I, I, O, O, O, I, O, O, O, O],
            (5 + 4, 1 + 8 + 2 + 3),
        ),
        // The writes are of one thread, and race with the reader: a clause for each two neighbours and the reader; each is
        // older, and isn't there where the initial bit is read; the third hides the second, and the second the first.
        (
            [O, I, I, O, O, O, I, O, O, O, O, O, O, O, O, O],
            (5 + 3 + 4, 2 + 1 + 8 + 3 + 2 + 3),
        ),
    ]
}

#[test]
fn readers_take_these_variables_and_clauses(rt: HostRuntime) -> Result<(), Fail> {
    for (recorded, wanted) in rows() {
        assert_eq!(rt; counts(rt.alloc(), recorded)?, wanted);
    }
    Ok(())
}

#[test]
fn same_bits_take_two_clauses(rt: HostRuntime) -> Result<(), Fail> {
    let arena = Bump::new(rt.alloc());
    let mut clauses = ClauseStore::new(rt.alloc(), &arena);
    let source = bit(&mut clauses)?;
    let read = bit(&mut clauses)?;
    add_same(&mut clauses, &[source], &[read])?;
    assert_eq!(rt; (clauses.vars(), clauses.len()), (2, 2));
    Ok(())
}
