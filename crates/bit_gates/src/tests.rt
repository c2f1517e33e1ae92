use crate::gates::{and, mux, or, same, xor};
use bumpalo::Bump;
use clause_store::lit::Lit;
use clause_store::store::ClauseStore;
use std::test::Fail;

#[test]
fn each_gate_adds_one_variable_and_three_or_four_clauses(rt: HostRuntime) -> Result<(), Fail> {
    let arena = Bump::new(rt.alloc());
    let mut clauses = ClauseStore::new(rt.alloc(), &arena);
    let a = Lit {
        var: clauses.fresh()?,
        positive: true,
    };
    let b = Lit {
        var: clauses.fresh()?,
        positive: false,
    };
    let c = Lit {
        var: clauses.fresh()?,
        positive: true,
    };
    let both = and(&mut clauses, a, b)?;
    assert_eq!(rt; (clauses.vars(), clauses.len()), (4, 3));
    let one = or(&mut clauses, both, c)?;
    assert_eq!(rt; (clauses.vars(), clauses.len()), (5, 6));
    let differ = xor(&mut clauses, one, a)?;
    assert_eq!(rt; (clauses.vars(), clauses.len()), (6, 10));
    let agree = same(&mut clauses, differ, b)?;
    assert_eq!(rt; (clauses.vars(), clauses.len()), (7, 14));
    let chosen = mux(&mut clauses, agree, a, c)?;
    assert_eq!(rt; (clauses.vars(), clauses.len()), (8, 18));
    assert_eq!(rt; chosen.var, 7);
    Ok(())
}
