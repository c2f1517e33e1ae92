use crate::ordered::ordered_table;
use bumpalo::Bump;
use clause_store::store::ClauseStore;
use odr_list::list::List;
use std::test::Fail;

#[test]
fn a_pair_of_neighbours_and_a_third_place_take_one_clause(rt: HostRuntime) -> Result<(), Fail> {
    let arena = Bump::new(rt.alloc());
    let mut clauses = ClauseStore::new(rt.alloc(), &arena);
    // The first of three places is recorded to stand before the second.
    let cells = [false, true, false, false, false, false, false, false, false];
    let recorded = List::of(cells.to_vec(rt.alloc())?);
    let ordered = ordered_table(rt.alloc(), 3, recorded, &mut clauses)?;
    assert_eq!(rt; ordered.table.pairs.len(), 2);
    assert_eq!(rt; (clauses.vars(), clauses.len()), (2, 1));
    Ok(())
}

#[test]
fn three_open_places_take_two_clauses(rt: HostRuntime) -> Result<(), Fail> {
    let arena = Bump::new(rt.alloc());
    let mut clauses = ClauseStore::new(rt.alloc(), &arena);
    let recorded = List::of([false; 9].to_vec(rt.alloc())?);
    let ordered = ordered_table(rt.alloc(), 3, recorded, &mut clauses)?;
    assert_eq!(rt; ordered.table.pairs.len(), 3);
    assert_eq!(rt; (clauses.vars(), clauses.len()), (3, 2));
    Ok(())
}
