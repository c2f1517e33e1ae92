//! Which terms one stands on.
ghost use Rattle.std.specs.Prelude.{◌≡◌, ◌+◌, ◌<◌, false, length, replicate, IfOk};
ghost use Rattle.bv_terms.specs.Shapes.{shape_of, children};
ghost use Rattle.bit_clauses.specs.Marks.{AreBelow, AreNeeded, MarksBelow, mark_all};

use bv_terms::node::{Node, TermId};
use bv_terms::pool::TermPool;
use odr_list::memory::Memory;
use std::alloc::Global;

// Marks the terms that a node stands on.
fn mark_children(marks: &mut [bool], node: Node<'_>)
    requires { AreBelow (length marks.old) (shape_of node) }
    ensures { marks.new ≡ mark_all marks.old (children (shape_of node.entry)) }
{
    match node {
        Node::Const { .. } => {}
        Node::Var { .. } => {}
        Node::Not(of) => marks[of.number] = true,
        Node::Neg(of) => marks[of.number] = true,
        Node::Bin { left, right, .. } => {
            marks[left.number] = true;
            marks[right.number] = true;
        }
        Node::Extract { of, .. } => marks[of.number] = true,
        Node::ZeroExtend { of, .. } => marks[of.number] = true,
        Node::SignExtend { of, .. } => marks[of.number] = true,
        Node::Ite { when, yes, no } => {
            marks[when.number] = true;
            marks[yes.number] = true;
            marks[no.number] = true;
        }
        Node::ByteSelect { index, .. } => marks[index.number] = true,
    }
}

// Marks the terms that a marked term stands on.
fn mark_below(pool: &TermPool<'_>, marks: &mut [bool], id: TermId)
    requires known { id.number < length pool.now }
    requires within { id.number < length marks.old }
    ensures { MarksBelow pool.now id.number marks.old marks.new }
{
    let node = pool.node(id);
    if !marks[id.number] {
        return;
    }
    mark_children(marks, node);
}

// Marks the terms that one stands on, of which none was marked, and itself.
fn mark_needed(pool: &TermPool<'_>, root: TermId, marks: &mut [bool])
    requires known { root.number < length pool.now }
    requires blank { marks.old ≡ replicate (root.number + 1) false }
    ensures { AreNeeded pool.now root.number marks.new }
{
    marks[root.number] = true;
    for i in 0..marks.len() {
        let number = marks.len() - 1 - i;
        mark_below(pool, marks, TermId { number });
    }
}

// As many marks as there are terms up to one, none of them set.
fn blank_marks(alloc: Global, root: usize) -> Result<Vec<bool>, Memory>
    ensures { IfOk result (λ marks. marks.items ≡ replicate (root + 1) false) }
{
    let mut marks = Vec::new(alloc);
    while marks.len() <= root {
        marks.push(false)?;
    }
    Ok(marks)
}

/// For each term up to one whether that one stands on it, itself among them.
pub fn needed(alloc: Global, pool: &TermPool<'_>, root: TermId) -> Result<Vec<bool>, Memory>
    requires { root.number < length pool.now }
    ensures { IfOk result (λ marks. AreNeeded pool.now root.number marks.items) }
{
    let mut marks = blank_marks(alloc, root.number)?;
    mark_needed(pool, root, marks.as_mut_slice());
    Ok(marks)
}
