//! The pool of terms: nodes over an arena that stands outside it, each kept once.
ghost use Rattle.std.specs.Prelude.{◌≡◌, ◌<◌, ◌≤◌, ◌^◌, true, false, [], ◌∷◌, Some, length, slice_get, IfOk, IfSome, OnErr};
ghost use Rattle.std.specs.List.{list_all};
ghost use Rattle.bv_terms.specs.BitVectors.{bin_width, bits};
ghost use Rattle.bv_terms.specs.Constants.{constant_at, is_constant_at};
ghost use Rattle.bv_terms.specs.Fitting.{AreOperands, IsBits, IsFitting, IsWidth};
ghost use Rattle.bv_terms.specs.Folded.{FoldsTo, is_folded};
ghost use Rattle.bv_terms.specs.Shapes.{shape_of};
ghost use Rattle.bv_terms.specs.Shared.{GainsAtMost, IsShared};
ghost use Rattle.bv_terms.specs.Values.{Assignment, KeepsTerms, node_value, node_width, term_at, value_at, width_at};
ghost use Rattle.bv_terms.specs.Variables.{IsTermOf, KeepsVariables};

use crate::bits::Bits;
use crate::node::{BinOp, Node, TermId};
use crate::term::Term;
use crate::value::{chosen, entry, inverse, negative_of, operation, part, with_signs};
use bumpalo::Bump;
use indexmap::IndexSet;
use odr_list::memory::Memory;
use std::alloc::Global;
use std::marker::Model;

/// Terms over an arena that stands outside the pool, seen by contracts as the list of their nodes. Equal
/// nodes share one id, and a node stands on nodes before it.
#[derive(Drop)]
pub struct TermPool<'a> {
    arena: &'a Bump,
    terms: IndexSet<Term<'a>>,
}

impl<'a> Model for TermPool<'a> {
    ghost use Rattle.std.specs.Prelude.{List};
    ghost use Rattle.bv_terms.specs.Shapes.{Shape};
    ghost use Rattle.bv_terms.specs.Placed.{ArePlaced, shapes_of};

    ghost Value = { List Shape };

    ghost view = { λ p. shapes_of p.terms.keys };

    ghost invariant = { λ p. ArePlaced p.terms.keys };
}

impl<'a> TermPool<'a> {
    /// The pool without a term. Takes no memory.
    pub fn new(alloc: Global, arena: &'a Bump) -> TermPool<'a>
        ensures { result ≡ [] }
    {
        TermPool {
            arena,
            terms: IndexSet::new(alloc),
        }
    }

    /// A term with the value of this node under every assignment. A node with a child whose children are all constants is
    /// folded: its term is a constant. Any other node is kept as it is. Where the pool has the node to be kept already, its term
    /// is the answer, and the pool stays as it was; else the node stands behind the others. Want of memory leaves the pool
    /// as it was.
    pub fn add(&mut self, node: Node<'a>) -> Result<TermId, Memory>
        requires { IsFitting (width_at self.old) (length self.old) (shape_of node) }
        ensures term { IfOk result (λ id. IsTermOf self.old self.new (shape_of node.entry) id.number) }
        ensures folded { is_folded self.old (shape_of node.entry) ≡ true → IfOk result (λ id. is_constant_at self.new id.number ≡ true) }
        ensures kept { is_folded self.old (shape_of node.entry) ≡ false → IfOk result (λ id. slice_get self.new id.number ≡ Some (shape_of node.entry)) }
        ensures shared { IfOk result (λ id. IsShared self.old self.new id.number) }
        ensures gains { IfOk result (λ id. GainsAtMost self.old self.new id.number) }
        ensures older { KeepsTerms self.old self.new }
        ensures variables { KeepsVariables self.old self.new }
        ensures err { OnErr result (self.new ≡ self.old) }
    {
        let kept = self.folded(node);
        self.store(kept)
    }

    // The term that keeps this node.
    fn store(&mut self, node: Node<'a>) -> Result<TermId, Memory>
        requires { IsFitting (width_at self.old) (length self.old) (shape_of node) }
        ensures found { IfOk result (λ id. slice_get self.new id.number ≡ Some (shape_of node.entry)) }
        ensures term { IfOk result (λ id. IsTermOf self.old self.new (shape_of node.entry) id.number) }
        ensures shared { IfOk result (λ id. IsShared self.old self.new id.number) }
        ensures gains { IfOk result (λ id. GainsAtMost self.old self.new id.number) }
        ensures older { KeepsTerms self.old self.new }
        ensures variables { KeepsVariables self.old self.new }
        ensures err { OnErr result (self.new ≡ self.old) }
    {
        let width = self.node_width(node);
        let (number, _) = self.terms.insert_full(Term { node, width })?;
        Ok(TermId { number })
    }

    /// A copy of a table in the arena.
    pub fn table(&mut self, bytes: &[u8]) -> Result<&'a [u8], Memory>
        ensures table { IfOk result (λ copy. copy.now ≡ bytes.now) }
        ensures same { self.new ≡ self.old }
    {
        Ok(self.arena.try_alloc_slice_copy(bytes)?)
    }

    /// The node of a term. Takes no memory.
    pub fn node(&self, id: TermId) -> Node<'a>
        requires { id.number < length self.now }
        ensures node { slice_get self.now id.number ≡ Some (shape_of result) }
        ensures fitting { IsFitting (width_at self.now) id.number (shape_of result) }
        ensures width { width_at self.now id.number ≡ node_width (width_at self.now) (shape_of result) }
        ensures value { (w : Assignment) → value_at w self.now id.number ≡ node_value w (term_at w self.now) (shape_of result) }
    {
        self.term(id).node
    }

    /// The width of a term in bits. Takes no memory.
    pub fn width(&self, id: TermId) -> u8
        requires { id.number < length self.now }
        ensures width { result ≡ width_at self.now id.number }
        ensures within { IsWidth result }
        ensures below { (w : Assignment) → value_at w self.now id.number < 2 ^ result }
    {
        self.term(id).width
    }

    /// The value of a term that is a constant. Takes no memory.
    pub fn constant(&self, id: TermId) -> Option<u64>
        requires { id.number < length self.now }
        ensures constant { result ≡ constant_at self.now id.number }
        ensures value { IfSome result (λ value. (w : Assignment) → value_at w self.now id.number ≡ value) }
    {
        match self.node(id) {
            Node::Const { value, .. } => Some(value),
            _ => None,
        }
    }

    // Whether a term is a constant.
    fn is_constant(&self, id: TermId) -> bool
        requires { id.number < length self.now }
        ensures { result ≡ is_constant_at self.now id.number }
    {
        self.constant(id).is_some()
    }

    // Whether a node has a child, and all its children are constants.
    fn is_folded(&self, node: Node<'a>) -> bool
        requires { IsFitting (width_at self.now) (length self.now) (shape_of node) }
        ensures { result ≡ is_folded self.now (shape_of node.entry) }
    {
        match node {
            Node::Const { .. } | Node::Var { .. } => false,
            Node::Not(of) | Node::Neg(of) => self.is_constant(of),
            Node::Bin { left, right, .. } => self.is_constant(left) && self.is_constant(right),
            Node::Extract { of, .. } => self.is_constant(of),
            Node::ZeroExtend { of, .. } | Node::SignExtend { of, .. } => self.is_constant(of),
            Node::Ite { when, yes, no } => self.are_constants(when, yes, no),
            Node::ByteSelect { index, .. } => self.is_constant(index),
        }
    }

    // Whether three terms are constants.
    fn are_constants(&self, first: TermId, second: TermId, third: TermId) -> bool
        requires first_inside { first.number < length self.now }
        requires second_inside { second.number < length self.now }
        requires third_inside { third.number < length self.now }
        ensures { result ≡ list_all (is_constant_at self.now) (first.number ∷ second.number ∷ third.number ∷ []) }
    {
        if !self.is_constant(first) {
            return false;
        }
        self.is_constant(second) && self.is_constant(third)
    }

    // The width and the value of a term that is a constant.
    fn bits(&self, id: TermId) -> Bits
        requires inside { id.number < length self.now }
        requires constant { is_constant_at self.now id.number ≡ true }
        ensures bits { IsBits result.width result.value }
        ensures width { result.width ≡ width_at self.now id.number }
        ensures vector { (w : Assignment) → term_at w self.now id.number ≡ bits result.width result.value }
    {
        let width = self.width(id);
        match self.constant(id) {
            Some(value) => Bits { width, value },
            None => unreachable!(),
        }
    }

    // The value of a node whose children are constants.
    fn value_of(&self, node: Node<'a>) -> u64
        requires fitting { IsFitting (width_at self.now) (length self.now) (shape_of node) }
        requires folded { is_folded self.now (shape_of node) ≡ true }
        ensures { (w : Assignment) → node_value w (term_at w self.now) (shape_of node.entry) ≡ result }
    {
        match node {
            Node::Const { value, .. } => value,
            Node::Var { .. } => unreachable!(),
            Node::Not(of) => inverse(self.bits(of)),
            Node::Neg(of) => negative_of(self.bits(of)),
            Node::Bin { op, left, right } => operation(op, self.bits(left), self.bits(right)),
            Node::Extract { of, high, low } => part(self.bits(of), high, low),
            Node::ZeroExtend { of, .. } => self.bits(of).value,
            Node::SignExtend { of, width } => with_signs(self.bits(of), width),
            Node::Ite { when, yes, no } => {
                chosen(self.bits(when), self.bits(yes), self.bits(no))
            }
            Node::ByteSelect {
                first,
                bytes,
                index,
            } => entry(first, bytes, self.bits(index).value),
        }
    }

    // The node that the pool keeps for one.
    fn folded(&self, node: Node<'a>) -> Node<'a>
        requires { IsFitting (width_at self.now) (length self.now) (shape_of node) }
        ensures folds { FoldsTo self.now (shape_of node.entry) (shape_of result) }
        ensures fitting { IsFitting (width_at self.now) (length self.now) (shape_of result) }
    {
        let _terms = &self.terms;
        if !self.is_folded(node) {
            return node;
        }
        let width = self.node_width(node);
        let value = self.value_of(node);
        Node::Const { width, value }
    }

    // The node and the width of a term.
    fn term(&self, id: TermId) -> Term<'a>
        requires { id.number < length self.now }
        ensures node { slice_get self.now id.number ≡ Some (shape_of result.node) }
        ensures width { result.width ≡ width_at self.now id.number }
        ensures fitting { IsFitting (width_at self.now) id.number (shape_of result.node) }
        ensures within { IsWidth result.width }
        ensures below { (w : Assignment) → value_at w self.now id.number < 2 ^ result.width }
    {
        match self.terms.get_index(id.number) {
            Some(term) => *term,
            None => unreachable!(),
        }
    }

    /// The width of a term with this node, in bits. Takes no memory.
    pub fn node_width(&self, node: Node<'a>) -> u8
        requires { IsFitting (width_at self.now) (length self.now) (shape_of node) }
        ensures width { result ≡ node_width (width_at self.now) (shape_of node.entry) }
        ensures within { IsWidth result }
        ensures below { (w : Assignment) → node_value w (term_at w self.now) (shape_of node.entry) < 2 ^ result }
    {
        let _terms = &self.terms;
        self.width_from(node)
    }

    // The width of a node that fits this pool.
    fn width_from(&self, node: Node<'a>) -> u8
        requires { IsFitting (width_at self.now) (length self.now) (shape_of node) }
        ensures { result ≡ node_width (width_at self.now) (shape_of node.entry) }
    {
        match node {
            Node::Const { width, .. } => width,
            Node::Var { width, .. } => width,
            Node::Not(of) => self.width(of),
            Node::Neg(of) => self.width(of),
            Node::Bin { op, left, right } => operation_width(
                op,
                self.width(left),
                self.width(right),
            ),
            Node::Extract { of, high, low } => {
                let whole = self.width(of);
                prove!(high < whole);
                high - low + 1
            }
            Node::ZeroExtend { width, .. } => width,
            Node::SignExtend { width, .. } => width,
            Node::Ite { yes, .. } => self.width(yes),
            Node::ByteSelect { .. } => 8,
        }
    }
}

/// The width of an operation on terms of these widths.
fn operation_width(op: BinOp, left: u8, right: u8) -> u8
    requires operands { AreOperands op left right }
    requires left_within { IsWidth left }
    requires right_within { IsWidth right }
    ensures { result ≡ bin_width op left right }
{
    match op {
        BinOp::Eq | BinOp::Ult | BinOp::Slt => 1,
        BinOp::Concat => left + right,
        _ => left,
    }
}
