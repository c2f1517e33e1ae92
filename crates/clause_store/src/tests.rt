ghost use Rattle.std.specs.Prelude.{◌≡◌, true};

use crate::derivation::Derivation;
use crate::lit::Lit;
use crate::store::ClauseStore;
use bumpalo::Bump;
use std::test::Fail;

fn yes(var: u64) -> Lit
    ensures { result ≡ record { var = var; positive = true } }
{
    Lit {
        var,
        positive: true,
    }
}

#[test]
fn a_clause_outlives_its_store(rt: HostRuntime) -> Result<(), Fail> {
    let arena = Bump::new(rt.alloc());
    let mut store = ClauseStore::new(rt.alloc(), &arena);
    let first = store.fresh()?;
    let second = store.fresh()?;
    assert_eq!(rt; store.vars(), 2);
    store.add(&[yes(first), yes(second).opposite()])?;
    assert_eq!(rt; store.len(), 1);
    let clause = store.clause(0);
    drop(store);
    assert_eq!(rt; clause.len(), 2);
    assert_eq!(rt; clause[0], yes(0));
    assert_eq!(rt; clause[1].var, 1);
    assert!(rt; !clause[1].positive);
    Ok(())
}

#[test]
fn a_derivation_keeps_its_lines(rt: HostRuntime) -> Result<(), Fail> {
    let mut lines = Derivation::new(rt.alloc());
    lines.push(&[yes(3)])?;
    lines.push(&[])?;
    assert_eq!(rt; lines.len(), 2);
    assert_eq!(rt; lines.line(0), [yes(3)].as_slice());
    assert_eq!(rt; lines.line(1).len(), 0);
    Ok(())
}
