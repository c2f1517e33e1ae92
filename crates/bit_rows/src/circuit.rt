//! Terms over variables whose literals are given by unit clauses.
ghost use Rattle.std.specs.Prelude.{◌<◌, ◌≡◌, length, IfOk};
ghost use Rattle.bv_terms.specs.Values.{KeepsTerms, width_at};

use crate::unit_rule::{number_of, settled};
use bit_clauses::blaster::Blaster;
use bit_clauses::law::nothing_is_known;
use bumpalo::Bump;
use bv_terms::node::{Node, TermId};
use bv_terms::pool::TermPool;
use clause_store::lit::Lit;
use clause_store::store::ClauseStore;
use std::alloc::Global;
use std::process::Abort;
use std::test::Fail;

/// A term, and the value that unit clauses give to its literals.
#[derive(Clone, Copy)]
pub struct Given {
    pub term: TermId,
    pub value: u64,
}

/// The terms that are given values; one may stand for another, with the same value.
#[derive(Clone, Copy)]
pub struct Operands {
    pub first: Given,
    pub second: Given,
    pub third: Given,
}

/// A variable's term.
pub fn variable(
    rt: &impl Abort,
    pool: &mut TermPool<'_>,
    width: u8,
    number: u32,
) -> Result<TermId, Fail>
    ensures within { IfOk result (λ id. id.number < length pool.new) }
    ensures width { IfOk result (λ id. width_at pool.new id.number ≡ width) }
    ensures older { KeepsTerms pool.old pool.new }
{
    assert!(rt; width > 0);
    assert!(rt; width <= 64);
    Ok(pool.add(Node::Var { width, number })?)
}

/// Adds clauses that give literals the digits of a number, the lowest first.
fn add_units(
    rt: &impl Abort,
    clauses: &mut ClauseStore<'_>,
    bits: &[Lit],
    number: u64,
) -> Result<(), Fail> {
    let mut rest = number;
    for bit in bits {
        let unit = if rest % 2 == 1 { *bit } else { bit.opposite() };
        assert!(rt; unit.var < clauses.vars());
        clauses.add(&[unit])?;
        rest /= 2;
    }
    Ok(())
}

/// The value that the unit rule gives to a term, once unit clauses give values to three others. It gives each variable of
/// the clauses a value.
pub fn value_from<'a>(
    rt: &impl Abort,
    alloc: Global,
    pool: &TermPool<'a>,
    arena: &'a Bump,
    given: Operands,
    root: TermId,
) -> Result<Option<u64>, Fail>
    requires root { root.number < length pool.now }
    requires first { given.first.term.number < length pool.now }
    requires second { given.second.term.number < length pool.now }
    requires third { given.third.term.number < length pool.now }
{
    let mut clauses = ClauseStore::new(alloc, arena);
    let mut blaster = Blaster::new(alloc);
    nothing_is_known();
    let out = blaster.bits(alloc, pool, &mut clauses, root)?;
    let first = blaster.bits(alloc, pool, &mut clauses, given.first.term)?;
    let second = blaster.bits(alloc, pool, &mut clauses, given.second.term)?;
    let third = blaster.bits(alloc, pool, &mut clauses, given.third.term)?;
    let gates = clauses.len();
    add_units(rt, &mut clauses, first.as_slice(), given.first.value)?;
    add_units(rt, &mut clauses, second.as_slice(), given.second.value)?;
    add_units(rt, &mut clauses, third.as_slice(), given.third.value)?;
    let values = settled(rt, alloc, &clauses, gates)?;
    Ok(number_of(values.as_slice(), out.as_slice()))
}
