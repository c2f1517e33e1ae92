//! Visits to the nodes of a term, each after those that it stands on.
ghost use Rattle.std.specs.Prelude.{◌≡◌, ◌<◌, ◌≤◌, ◌+◌, ◌*◌, ◌^◌, nat_eq, length, IfOk, OnOk};
ghost use Rattle.indexmap.specs.IndexMap.{get};
ghost use Rattle.bv_terms.specs.Fitting.{IsFitting};
ghost use Rattle.bv_terms.specs.Shapes.{shape_of};
ghost use Rattle.bv_terms.specs.Values.{KeepsTerms, width_at};
ghost use Rattle.bv_terms.specs.Variables.{KeepsVariables};
ghost use Rattle.bv_rewrite.specs.declared.walk.Visit.TheVariants as visit;
ghost use Rattle.bv_rewrite.specs.Simpler.{StandsFor};
ghost use Rattle.bv_rewrite.specs.Walks.{AreDone, AreInside, standing, visited, weight, weights, with_children};

use crate::add_by::add_by;
use crate::rewrite::Rewrite;
use bv_terms::node::{Node, TermId};
use bv_terms::pool::TermPool;
use indexmap::IndexMap;
use odr_list::memory::Memory;

/// What is to be done with a term.
#[derive(Clone, Copy, Debug)]
pub enum Visit {
    /// See that what it stands on comes first.
    Enter(TermId),
    /// Make what stands for it, once it is made of what it stands on.
    Leave(TermId),
}

/// What stands for a term: itself, before it was left.
pub fn stands_for(done: &IndexMap<usize, TermId>, term: TermId) -> TermId
    ensures { result.number ≡ standing (get nat_eq done.now) term.number }
{
    match done.get(&term.number) {
        Some(id) => *id,
        None => term,
    }
}

// A node on what stands for its children.
fn remade<'a>(done: &IndexMap<usize, TermId>, node: Node<'a>) -> Node<'a>
    ensures { shape_of result ≡ with_children (standing (get nat_eq done.now)) (shape_of node.entry) }
{
    match node {
        Node::Const { width, value } => Node::Const { width, value },
        Node::Var { width, number } => Node::Var { width, number },
        Node::Not(of) => Node::Not(stands_for(done, of)),
        Node::Neg(of) => Node::Neg(stands_for(done, of)),
        Node::Bin { op, left, right } => Node::Bin {
            op,
            left: stands_for(done, left),
            right: stands_for(done, right),
        },
        Node::Extract { of, high, low } => Node::Extract {
            of: stands_for(done, of),
            high,
            low,
        },
        Node::ZeroExtend { of, width } => Node::ZeroExtend {
            of: stands_for(done, of),
            width,
        },
        Node::SignExtend { of, width } => Node::SignExtend {
            of: stands_for(done, of),
            width,
        },
        Node::Ite { when, yes, no } => Node::Ite {
            when: stands_for(done, when),
            yes: stands_for(done, yes),
            no: stands_for(done, no),
        },
        Node::ByteSelect {
            first,
            bytes,
            index,
        } => Node::ByteSelect {
            first,
            bytes,
            index: stands_for(done, index),
        },
    }
}

// Enters a term below another.
fn enter_child(
    walk: &mut Vec<Visit>,
    child: TermId,
    pool: &TermPool<'_>,
    above: TermId,
) -> Result<(), Memory>
    requires inside { AreInside pool.now walk.old.items }
    requires below { child.number < above.number }
    requires within { above.number ≤ length pool.now }
    ensures inside { OnOk result (AreInside pool.now walk.new.items) }
    ensures weight { OnOk result (weights walk.new.items ≤ weights walk.old.items + 5 ^ above.number) }
{
    let _pool = pool;
    let _above = above;
    walk.push(Visit::Enter(child))?;
    Ok(())
}

// Enters the terms that a node stands on.
fn enter_children(
    walk: &mut Vec<Visit>,
    node: Node<'_>,
    pool: &TermPool<'_>,
    above: TermId,
) -> Result<(), Memory>
    requires inside { AreInside pool.now walk.old.items }
    requires within { above.number ≤ length pool.now }
    requires fitting { IsFitting (width_at pool.now) above.number (shape_of node) }
    ensures inside { OnOk result (AreInside pool.now walk.new.items) }
    ensures weight { OnOk result (weights walk.new.items ≤ weights walk.old.items + 3 * 5 ^ above.number) }
{
    match node {
        Node::Const { .. } => Ok(()),
        Node::Var { .. } => Ok(()),
        Node::Not(of) => enter_child(walk, of, pool, above),
        Node::Neg(of) => enter_child(walk, of, pool, above),
        Node::Bin { left, right, .. } => {
            enter_child(walk, left, pool, above)?;
            enter_child(walk, right, pool, above)
        }
        Node::Extract { of, .. } => enter_child(walk, of, pool, above),
        Node::ZeroExtend { of, .. } => enter_child(walk, of, pool, above),
        Node::SignExtend { of, .. } => enter_child(walk, of, pool, above),
        Node::Ite { when, yes, no } => {
            enter_child(walk, when, pool, above)?;
            enter_child(walk, yes, pool, above)?;
            enter_child(walk, no, pool, above)
        }
        Node::ByteSelect { index, .. } => enter_child(walk, index, pool, above),
    }
}

// Sees that what a term stands on comes before it, unless it was left already.
fn enter(
    pool: &TermPool<'_>,
    walk: &mut Vec<Visit>,
    done: &IndexMap<usize, TermId>,
    term: TermId,
) -> Result<(), Memory>
    requires inside { AreInside pool.now walk.old.items }
    requires within { term.number < length pool.now }
    ensures inside { OnOk result (AreInside pool.now walk.new.items) }
    ensures lighter { OnOk result (weights walk.new.items < weights walk.old.items + weight (visit.Enter term)) }
{
    if done.contains_key(&term.number) {
        return Ok(());
    }
    let node = pool.node(term);
    walk.push(Visit::Leave(term))?;
    enter_children(walk, node, pool, term)
}

// What stands for a term, made of what stands for its children.
fn made<'a, R: Rewrite>(
    pool: &mut TermPool<'a>,
    done: &IndexMap<usize, TermId>,
    term: TermId,
    book: &R,
) -> Result<TermId, Memory>
    requires within { term.number < length pool.old }
    requires done { AreDone pool.old (get nat_eq done.now) }
    ensures stands { IfOk result (λ id. StandsFor pool.new pool.new term.number id.number) }
    ensures older { KeepsTerms pool.old pool.new }
    ensures variables { KeepsVariables pool.old pool.new }
{
    let node = pool.node(term);
    add_by(pool, remade(done, node), book)
}

// Makes what stands for a term.
fn leave<'a, R: Rewrite>(
    pool: &mut TermPool<'a>,
    done: &mut IndexMap<usize, TermId>,
    term: TermId,
    book: &R,
) -> Result<(), Memory>
    requires within { term.number < length pool.old }
    requires done { AreDone pool.old (get nat_eq done.old) }
    ensures done { OnOk result (AreDone pool.new (get nat_eq done.new)) }
    ensures older { KeepsTerms pool.old pool.new }
    ensures variables { KeepsVariables pool.old pool.new }
{
    let id = made(pool, done, term, book)?;
    done.insert(term.number, id)?;
    Ok(())
}

/// Does one visit.
pub fn follow<'a, R: Rewrite>(
    pool: &mut TermPool<'a>,
    walk: &mut Vec<Visit>,
    done: &mut IndexMap<usize, TermId>,
    visit: Visit,
    book: &R,
) -> Result<(), Memory>
    requires within { visited visit < length pool.old }
    requires inside { AreInside pool.old walk.old.items }
    requires done { AreDone pool.old (get nat_eq done.old) }
    ensures inside { OnOk result (AreInside pool.new walk.new.items) }
    ensures lighter { OnOk result (weights walk.new.items < weights walk.old.items + weight visit) }
    ensures done { OnOk result (AreDone pool.new (get nat_eq done.new)) }
    ensures older { KeepsTerms pool.old pool.new }
    ensures variables { KeepsVariables pool.old pool.new }
{
    match visit {
        Visit::Enter(term) => enter(pool, walk, done, term),
        Visit::Leave(term) => leave(pool, done, term, book),
    }
}
