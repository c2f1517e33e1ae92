ghost use Rattle.std.specs.Prelude.{◌≡◌, ◌<◌, ◌+◌, IfOk};

use crate::outcomes::add_outcome;
use crate::placed::{PlacedConditional, PlacedEnder, add_placed_outcome};
use crate::store_conditional::{Ender, StoreConditional};
use bumpalo::Bump;
use clause_store::lit::Lit;
use clause_store::store::ClauseStore;
use odr_list::list::List;
use odr_list::memory::Memory;
use order_clauses::order_lit::OrderLit;
use order_clauses::ordered::ordered_table;
use std::alloc::Global;
use std::test::Fail;

fn fresh(clauses: &mut ClauseStore<'_>) -> Result<Lit, Memory>
    ensures known { IfOk result (λ lit. lit.var < clauses.new.vars) }
    ensures grows { IfOk result (λ lit. clauses.new.vars ≡ clauses.old.vars + 1) }
{
    let var = clauses.fresh()?;
    Ok(Lit {
        var,
        positive: true,
    })
}

/// A store-conditional with one write, of five variables in this order: whether the addresses are the same, whether the
/// write stands after the load-reserved, whether before the store-conditional, whether it hits, and the outcome.
fn add_one(alloc: Global, clauses: &mut ClauseStore<'_>) -> Result<(), Memory> {
    let same = fresh(clauses)?;
    let after = fresh(clauses)?;
    let before = fresh(clauses)?;
    let hit = fresh(clauses)?;
    let outcome = fresh(clauses)?;
    let mut enders = List::new(alloc);
    enders.push(Ender {
        after: OrderLit::Is(after),
        before: OrderLit::Is(before),
        hit: OrderLit::Is(hit),
    })?;
    let sc = StoreConditional {
        same: OrderLit::Is(same),
        enders,
        outcome,
    };
    add_outcome(alloc, clauses, &sc)
}

fn value_of(values: &[Option<bool>], lit: Lit) -> Option<bool> {
    let value = *values.get(lit.var as usize)?;
    match value {
        Some(value) => Some(value == lit.positive),
        None => None,
    }
}

/// What a clause comes to under some values.
enum Finding {
    /// It is true, or has two open literals.
    Rests,
    /// Only this literal is open, and the others are false.
    Gives(Lit),
    /// All literals are false.
    Fails,
}

fn look(clause: &[Lit], values: &[Option<bool>]) -> Finding {
    let mut open = None;
    for lit in clause {
        match (value_of(values, *lit), open) {
            (Some(true), _) => return Finding::Rests,
            (Some(false), _) => {}
            (None, Some(_)) => return Finding::Rests,
            (None, None) => open = Some(*lit),
        }
    }
    match open {
        Some(lit) => Finding::Gives(lit),
        None => Finding::Fails,
    }
}

/// What the unit rule gives of these values, or none where it makes a clause false. Each clause stands after those that
/// its literals rest on, so one pass gives all.
fn settled(clauses: &ClauseStore<'_>, known: [Option<bool>; 4]) -> Option<[Option<bool>; 7]> {
    let [same, after, before, hit] = known;
    let mut values = [same, after, before, hit, None, None, None];
    for i in 0..clauses.len() {
        match look(clauses.clause(i), &values) {
            Finding::Rests => {}
            Finding::Gives(lit) => {
                if let Some(value) = values.get_mut(lit.var as usize) {
                    *value = Some(lit.positive);
                }
            }
            Finding::Fails => return None,
        }
    }
    Some(values)
}

fn is_true(clause: &[Lit], values: &[Option<bool>]) -> bool {
    for lit in clause {
        if let Some(true) = value_of(values, *lit) {
            return true;
        }
    }
    false
}

fn is_satisfied(clauses: &ClauseStore<'_>, values: &[Option<bool>]) -> bool {
    for i in 0..clauses.len() {
        if !is_true(clauses.clause(i), values) {
            return false;
        }
    }
    true
}

/// Whether some values of the two new variables go with these of the others.
fn is_possible(clauses: &ClauseStore<'_>, known: [bool; 4], outcome: bool) -> bool {
    let [same, after, before, hit] = known;
    for (between, ends) in [(false, false), (false, true), (true, false), (true, true)] {
        let values = [
            Some(same),
            Some(after),
            Some(before),
            Some(hit),
            Some(outcome),
            Some(between),
            Some(ends),
        ];
        if is_satisfied(clauses, &values) {
            return true;
        }
    }
    false
}

#[test]
fn the_outcome_is_success_exactly_where_no_write_ends_the_reservation(
    rt: HostRuntime,
) -> Result<(), Fail> {
    let arena = Bump::new(rt.alloc());
    let mut clauses = ClauseStore::new(rt.alloc(), &arena);
    add_one(rt.alloc(), &mut clauses)?;
    assert_eq!(rt; clauses.vars(), 7);
    for row in 0..=15u8 {
        let known = [row & 1 != 0, row & 2 != 0, row & 4 != 0, row & 8 != 0];
        let [same, after, before, hit] = known;
        let succeeds = same && !(after && before && hit);
        assert!(rt; is_possible(&clauses, known, succeeds), "row {row}");
        assert!(rt; !is_possible(&clauses, known, !succeeds), "row {row}");
    }
    Ok(())
}

/// The outcome that the unit rule gives, if any, and whether every variable but the hit has a value then.
fn given_outcome(
    clauses: &ClauseStore<'_>,
    known: [Option<bool>; 4],
) -> Option<(Option<bool>, bool)> {
    let [_, _, _, _, outcome, between, ends] = settled(clauses, known)?;
    Some((outcome, between.is_some() && ends.is_some()))
}

#[test]
fn an_order_settles_the_outcome(rt: HostRuntime) -> Result<(), Fail> {
    let arena = Bump::new(rt.alloc());
    let mut clauses = ClauseStore::new(rt.alloc(), &arena);
    add_one(rt.alloc(), &mut clauses)?;
    let (yes, no) = (Some(true), Some(false));
    // Whether the addresses are the same, and of the write whether it stands after the load-reserved, before the
    // store-conditional, and hits; then the outcome, and whether all is settled.
    let rows = [
        // Before the load-reserved, or after the store-conditional, a write whose hit is open ends nothing.
        ([yes, no, yes, None], yes, true),
        ([yes, yes, no, None], yes, true),
        ([yes, yes, yes, no], yes, true),
        ([yes, yes, yes, yes], no, true),
        ([no, no, yes, None], no, true),
        ([no, yes, yes, None], no, false),
        ([yes, yes, yes, None], None, false),
        ([None, yes, yes, yes], no, true),
    ];
    for (row, (known, outcome, whole)) in rows.iter().enumerate() {
        let found = given_outcome(&clauses, *known);
        assert_eq!(rt; found, Some((*outcome, *whole)), "row {row}");
    }
    Ok(())
}

/// The variables and clauses of a store-conditional at the last of three places, of which this is recorded: the
/// load-reserved stands at the first place and a write at the second.
fn counts(rt: HostRuntime, recorded: [bool; 9]) -> Result<(u64, usize), Fail> {
    let alloc = rt.alloc();
    let arena = Bump::new(alloc);
    let mut clauses = ClauseStore::new(alloc, &arena);
    let same = OrderLit::Is(fresh(&mut clauses)?);
    let hit = OrderLit::Is(fresh(&mut clauses)?);
    let outcome = fresh(&mut clauses)?;
    let cells = List::of(recorded.to_vec(alloc)?);
    let ordered = ordered_table(alloc, 3, cells, &mut clauses)?;
    let mut enders = List::new(alloc);
    enders.push(PlacedEnder { at: 1, hit })?;
    let placed = PlacedConditional {
        link: 0,
        at: 2,
        same,
        enders,
        outcome,
    };
    add_placed_outcome(alloc, &ordered.table, &mut clauses, &placed)?;
    Ok((clauses.vars(), clauses.len()))
}

#[test]
fn only_open_pairs_take_gates(rt: HostRuntime) -> Result<(), Fail> {
    // The load-reserved stands before the store-conditional, and the write anywhere: three variables, two pairs and two
    // gates. One clause keeps the order, three each make a gate; two say when it fails, and one when it succeeds.
    let open = [false, false, true, false, false, false, false, false, false];
    assert_eq!(rt; counts(rt, open)?, (3 + 2 + 2, 1 + 3 + 3 + 2 + 1));
    Ok(())
}

#[test]
fn recorded_writes_take_no_gate(rt: HostRuntime) -> Result<(), Fail> {
    let between = [false, true, true, false, false, true, false, false, false];
    assert_eq!(rt; counts(rt, between)?, (3, 2 + 1));
    let before = [false, false, true, true, false, true, false, false, false];
    assert_eq!(rt; counts(rt, before)?, (3, 1 + 1));
    Ok(())
}
