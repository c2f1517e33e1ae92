//! The literals of a node, from those of the terms that it stands on.
ghost use Rattle.std.specs.Prelude.{◌≡◌, ◌<◌, ◌≤◌, ◌^◌, length, true, All, IfOk, OnErr};
ghost use Rattle.clause_store.specs.declared.lit.Lit.{Lit};
ghost use Rattle.bv_terms.specs.Fitting.{IsFitting};
ghost use Rattle.bv_terms.specs.Shapes.{shape_of};
ghost use Rattle.clause_store.specs.Formula.{Grows};
ghost use Rattle.bit_clauses.specs.Nodes.{lits_at, width_in, HaveLiterals, IsOperation, SpellsNode};

use crate::bit_list::BitList;
use crate::byte_select::byte_select;
use crate::operation::operation;
use crate::unary::{choice, inverse, negative, part, with_signs, with_zeros};
use crate::wiring::constant;
use bv_terms::node::{Node, TermId};
use clause_store::lit::Lit;
use clause_store::store::ClauseStore;
use odr_list::memory::Memory;
use std::alloc::Global;

// The literals of a term of a table.
fn lits_of(terms: &[BitList], id: TermId) -> &[Lit]
    requires { id.number < length terms.now }
    ensures { result.now ≡ lits_at terms.now id.number }
{
    terms[id.number].as_slice()
}

/// The literals of a node that is no variable, by a literal that is true.
pub fn node_bits(
    alloc: Global,
    clauses: &mut ClauseStore<'_>,
    terms: &[BitList],
    node: Node<'_>,
    yes: Lit,
) -> Result<BitList, Memory>
    requires operation { IsOperation (shape_of node) }
    requires fitting { IsFitting (width_in terms.now) (length terms.now) (shape_of node) }
    requires children { HaveLiterals terms.now clauses.old.vars (shape_of node) }
    requires yes_known { yes.var < clauses.old.vars }
    ensures spells { IfOk result (λ out. SpellsNode clauses.old clauses.new terms.now yes (shape_of node.entry) out) }
    ensures err { OnErr result (Grows clauses.old clauses.new) }
{
    match node {
        Node::Const { width, value } => constant(alloc, yes, width as usize, value),
        Node::Var { .. } => unreachable!(),
        Node::Not(of) => inverse(alloc, lits_of(terms, of)),
        Node::Neg(of) => negative(alloc, clauses, lits_of(terms, of), yes),
        Node::Bin { op, left, right } => operation(
            alloc,
            clauses,
            op,
            lits_of(terms, left),
            lits_of(terms, right),
            yes,
        ),
        Node::Extract { of, high, low } => {
            part(alloc, lits_of(terms, of), high as usize, low as usize)
        }
        Node::ZeroExtend { of, width } => with_zeros(
            alloc,
            lits_of(terms, of),
            width as usize,
            yes,
        ),
        Node::SignExtend { of, width } => with_signs(alloc, lits_of(terms, of), width as usize),
        Node::Ite {
            when,
            yes: first,
            no: second,
        } => choice(
            alloc,
            clauses,
            lits_of(terms, when),
            lits_of(terms, first),
            lits_of(terms, second),
            yes,
        ),
        Node::ByteSelect {
            first,
            bytes,
            index,
        } => { byte_select(alloc, clauses, first, bytes, lits_of(terms, index), yes) }
    }
}
