//! The Blaster: literals and clauses for terms.
ghost use Rattle.std.specs.Prelude.{◌≡◌, ◌<◌, ◌∷◌, ◌++◌, ◌↔◌, ℕ, true, List, None, Some, [], length, slice_get, slice_index_or, IfOk, IsTrue, MatchOption, OnOk, OnErr};
ghost use Rattle.bv_terms.specs.Fitting.{IsFitting, IsWidth};
ghost use Rattle.bv_terms.specs.Shapes.{Shape, Var, children, shape_of};
ghost use Rattle.bv_terms.specs.Values.{Assignment, node_value, node_width, term_at, value_at, width_at};
ghost use Rattle.clause_store.specs.Formula.{Grows};
ghost use Rattle.bit_clauses.specs.Bits.{Adds, AddsFor, AreBuilt, Asserts, BuildsTerm, BuiltBelow, HasBits, HasRoom, IsBlasted, IsBuilt, IsOf, Steps, first_of};
ghost use Rattle.bit_clauses.specs.Marks.{AreNeeded};
ghost use Rattle.bit_clauses.specs.Nodes.{IsOperation, lits_at};

use crate::bit_list::BitList;
use crate::marks::needed;
use crate::nodes::node_bits;
use crate::variable_map::VariableMap;
use crate::variables::{Variable, fresh_run, run_bits};
use bv_terms::node::{Node, TermId};
use bv_terms::pool::TermPool;
use clause_store::lit::Lit;
use clause_store::store::ClauseStore;
use odr_list::memory::Memory;
use std::alloc::Global;
use std::marker::Model;

/// The literals of the terms of one pool, by the clauses of one store. Both may grow between calls.
#[derive(Drop)]
pub struct Blaster {
    // A literal that a clause makes true, once one was asked for.
    yes: Option<Lit>,
    variables: VariableMap,
    // By the number of the term; none for a term without literals.
    terms: Vec<BitList>,
}

impl Model for Blaster {
    ghost use Rattle.bit_clauses.specs.Bits.{Bits};

    ghost Value = { Bits };

    ghost view = { λ b. record { sure = b.yes; variables = b.variables; terms = b.terms.items } };
}

impl Blaster {
    /// No literal. Takes no memory.
    pub fn new(alloc: Global) -> Blaster
        ensures { result ≡ record { sure = None; variables = []; terms = [] } }
    {
        Blaster {
            yes: None,
            variables: VariableMap::new(alloc),
            terms: Vec::new(alloc),
        }
    }

    // A literal that a clause makes true.
    fn sure(&mut self, clauses: &mut ClauseStore<'_>) -> Result<Lit, Memory>
        ensures blasted { IfOk result (λ l. Adds self.old self.new clauses.old clauses.new) }
        ensures sure { IfOk result (λ l. self.new.sure ≡ Some l) }
        ensures err { OnErr result (Grows clauses.old clauses.new) }
    {
        match self.yes {
            Some(yes) => Ok(yes),
            None => self.make_sure(clauses),
        }
    }

    // A new literal with the clause that makes it true.
    fn make_sure(&mut self, clauses: &mut ClauseStore<'_>) -> Result<Lit, Memory>
        requires { self.old.sure ≡ None }
        ensures blasted { IfOk result (λ l. Adds self.old self.new clauses.old clauses.new) }
        ensures sure { IfOk result (λ l. self.new.sure ≡ Some l) }
        ensures err { OnErr result (Grows clauses.old clauses.new) }
    {
        let var = clauses.fresh()?;
        let yes = Lit {
            var,
            positive: true,
        };
        clauses.add(&[yes])?;
        self.yes = Some(yes);
        Ok(yes)
    }

    // The lowest bit of a variable.
    fn variable(
        &mut self,
        clauses: &mut ClauseStore<'_>,
        width: u8,
        number: u32,
    ) -> Result<u64, Memory>
        ensures blasted { IfOk result (λ first. AddsFor width number self.old self.new clauses.old clauses.new) }
        ensures found { IfOk result (λ first. first_of self.new.variables width number ≡ Some first) }
        ensures terms { IfOk result (λ first. self.new.terms ≡ self.old.terms) }
        ensures err { OnErr result (Grows clauses.old clauses.new) }
    {
        match self.variables.first(width, number) {
            Some(first) => Ok(first),
            None => self.make_variable(clauses, width, number),
        }
    }

    // New literals for a variable that has none.
    fn make_variable(
        &mut self,
        clauses: &mut ClauseStore<'_>,
        width: u8,
        number: u32,
    ) -> Result<u64, Memory>
        requires { first_of self.old.variables width number ≡ None }
        ensures blasted { IfOk result (λ first. AddsFor width number self.old self.new clauses.old clauses.new) }
        ensures found { IfOk result (λ first. first_of self.new.variables width number ≡ Some first) }
        ensures terms { IfOk result (λ first. self.new.terms ≡ self.old.terms) }
        ensures err { OnErr result (Grows clauses.old clauses.new) }
    {
        let first = fresh_run(clauses, width)?;
        self.variables.push(Variable {
            width,
            number,
            first,
        })?;
        Ok(first)
    }

    // The literals of a variable's term.
    fn build_variable(
        &mut self,
        alloc: Global,
        pool: &TermPool<'_>,
        clauses: &mut ClauseStore<'_>,
        id: TermId,
        width: u8,
        number: u32,
    ) -> Result<(), Memory>
        requires known { IsOf self.old pool.now clauses.old }
        requires within { id.number < length pool.now }
        requires room { id.number < length self.old.terms }
        requires free { length (lits_at self.old.terms id.number) ≡ 0 }
        requires node { slice_get pool.now id.number ≡ Some (Var width number) }
        requires width { width_at pool.now id.number ≡ width }
        requires is_width { IsWidth width }
        requires value { (t : Assignment) → value_at t pool.now id.number ≡ t.value_of width number }
        ensures builds { OnOk result (BuildsTerm self.old self.new pool.now clauses.old clauses.new id.number) }
        ensures err { OnErr result (Grows clauses.old clauses.new) }
    {
        let first = self.variable(clauses, width, number)?;
        let out = run_bits(alloc, clauses, first, width)?;
        self.terms[id.number] = out;
        Ok(())
    }

    // The literals of a term that is no variable.
    fn build_operation(
        &mut self,
        alloc: Global,
        pool: &TermPool<'_>,
        clauses: &mut ClauseStore<'_>,
        id: TermId,
        node: Node<'_>,
        yes: Lit,
    ) -> Result<(), Memory>
        requires known { IsOf self.old pool.now clauses.old }
        requires sure { self.old.sure ≡ Some yes }
        requires within { id.number < length pool.now }
        requires room { id.number < length self.old.terms }
        requires free { length (lits_at self.old.terms id.number) ≡ 0 }
        requires node { slice_get pool.now id.number ≡ Some (shape_of node) }
        requires operation { IsOperation (shape_of node) }
        requires fitting { IsFitting (width_at pool.now) id.number (shape_of node) }
        requires width { width_at pool.now id.number ≡ node_width (width_at pool.now) (shape_of node) }
        requires is_width { IsWidth (width_at pool.now id.number) }
        requires value { (t : Assignment) → value_at t pool.now id.number ≡ node_value t (term_at t pool.now) (shape_of node) }
        requires children { AreBuilt self.old (shape_of node) }
        ensures builds { OnOk result (BuildsTerm self.old self.new pool.now clauses.old clauses.new id.number) }
        ensures err { OnErr result (Grows clauses.old clauses.new) }
    {
        let out = node_bits(alloc, clauses, self.terms.as_slice(), node, yes)?;
        self.terms[id.number] = out;
        Ok(())
    }

    // The literals of a term; those that it stands on have some.
    fn build(
        &mut self,
        alloc: Global,
        pool: &TermPool<'_>,
        clauses: &mut ClauseStore<'_>,
        id: TermId,
        yes: Lit,
    ) -> Result<(), Memory>
        requires known { IsOf self.old pool.now clauses.old }
        requires sure { self.old.sure ≡ Some yes }
        requires within { id.number < length pool.now }
        requires room { id.number < length self.old.terms }
        requires free { length (lits_at self.old.terms id.number) ≡ 0 }
        requires children { BuiltBelow self.old pool.now id.number }
        ensures builds { OnOk result (BuildsTerm self.old self.new pool.now clauses.old clauses.new id.number) }
        ensures err { OnErr result (Grows clauses.old clauses.new) }
    {
        let _width = pool.width(id);
        let node = pool.node(id);
        match variable_of(node) {
            Some((width, number)) => self.build_variable(alloc, pool, clauses, id, width, number),
            None => self.build_operation(alloc, pool, clauses, id, node, yes),
        }
    }

    // The literals of a term, if it is marked and has none.
    fn step(
        &mut self,
        alloc: Global,
        pool: &TermPool<'_>,
        clauses: &mut ClauseStore<'_>,
        id: TermId,
        yes: Lit,
        marked: bool,
    ) -> Result<(), Memory>
        requires known { IsOf self.old pool.now clauses.old }
        requires sure { self.old.sure ≡ Some yes }
        requires within { id.number < length pool.now }
        requires room { id.number < length self.old.terms }
        requires children { marked ≡ true → BuiltBelow self.old pool.now id.number }
        ensures steps { OnOk result (Steps marked self.old self.new pool.now clauses.old clauses.new id.number) }
        ensures err { OnErr result (Grows clauses.old clauses.new) }
    {
        if !marked {
            return Ok(());
        }
        if self.terms[id.number].len() == 0 {
            return self.build(alloc, pool, clauses, id, yes);
        }
        Ok(())
    }

    // The literals of the marked terms.
    fn build_all(
        &mut self,
        alloc: Global,
        pool: &TermPool<'_>,
        clauses: &mut ClauseStore<'_>,
        root: TermId,
        marks: &[bool],
        yes: Lit,
    ) -> Result<(), Memory>
        requires known { IsOf self.old pool.now clauses.old }
        requires sure { self.old.sure ≡ Some yes }
        requires within { root.number < length pool.now }
        requires room { root.number < length self.old.terms }
        requires needed { AreNeeded pool.now root.number marks.now }
        ensures blasted { OnOk result (IsBlasted self.old self.new pool.now clauses.old clauses.new root.number) }
        ensures built { OnOk result (IsBuilt self.new root.number) }
        ensures err { OnErr result (Grows clauses.old clauses.new) }
    {
        for number in 0..marks.len() {
            self.step(alloc, pool, clauses, TermId { number }, yes, marks[number])?;
        }
        Ok(())
    }

    // An entry for each term up to one.
    fn make_room(&mut self, alloc: Global, id: TermId) -> Result<(), Memory>
        ensures { OnOk result (HasRoom self.old self.new id.number) }
    {
        pad(alloc, &mut self.terms, id.number)?;
        Ok(())
    }

    // Whether a term has literals.
    fn is_built(&self, id: TermId) -> bool
        ensures { IsTrue result ↔ IsBuilt self.now id.number }
    {
        match self.terms.get(id.number) {
            Some(bits) => bits.len() > 0,
            None => false,
        }
    }

    // The literals of a term and of those that it stands on.
    fn build_from(
        &mut self,
        alloc: Global,
        pool: &TermPool<'_>,
        clauses: &mut ClauseStore<'_>,
        term: TermId,
    ) -> Result<(), Memory>
        requires within { term.number < length pool.now }
        requires known { IsOf self.old pool.now clauses.old }
        ensures blasted { OnOk result (IsBlasted self.old self.new pool.now clauses.old clauses.new term.number) }
        ensures built { OnOk result (IsBuilt self.new term.number) }
        ensures err { OnErr result (Grows clauses.old clauses.new) }
    {
        let yes = self.sure(clauses)?;
        self.make_room(alloc, term)?;
        let marks = needed(alloc, pool, term)?;
        self.build_all(alloc, pool, clauses, term, marks.as_slice(), yes)?;
        Ok(())
    }

    // The literals of a term, if it has none.
    fn ensure_built(
        &mut self,
        alloc: Global,
        pool: &TermPool<'_>,
        clauses: &mut ClauseStore<'_>,
        term: TermId,
    ) -> Result<(), Memory>
        requires within { term.number < length pool.now }
        requires known { IsOf self.old pool.now clauses.old }
        ensures blasted { OnOk result (IsBlasted self.old self.new pool.now clauses.old clauses.new term.number) }
        ensures built { OnOk result (IsBuilt self.new term.number) }
        ensures again { IsBuilt self.old term.number → (self.new ≡ self.old) × (clauses.new ≡ clauses.old) }
        ensures err { OnErr result (Grows clauses.old clauses.new) }
    {
        if self.is_built(term) {
            return Ok(());
        }
        self.build_from(alloc, pool, clauses, term)
    }

    /// The literals of a term of this Blaster's pool, the one of the lowest bit first, with the clauses that fix
    /// them; nothing is added for a term that has literals. Pool and clauses are those of the earlier calls, or have grown since. After an error the older clauses
    /// are as they were, and the Blaster isn't to be used any more.
    pub fn bits<'a>(
        &mut self,
        alloc: Global,
        pool: &TermPool<'a>,
        clauses: &mut ClauseStore<'a>,
        term: TermId,
    ) -> Result<BitList, Memory>
        requires within { term.number < length pool.now }
        requires known { IsOf self.old pool.now clauses.old }
        ensures blasted { IfOk result (λ bits. IsBlasted self.old self.new pool.now clauses.old clauses.new term.number) }
        ensures built { IfOk result (λ bits. HasBits self.new pool.now clauses.new term.number) }
        ensures bits { IfOk result (λ bits. bits ≡ lits_at self.new.terms term.number) }
        ensures again { IsBuilt self.old term.number → (self.new ≡ self.old) × (clauses.new ≡ clauses.old) }
        ensures err { OnErr result (Grows clauses.old clauses.new) }
    {
        self.ensure_built(alloc, pool, clauses, term)?;
        let bits = BitList::of(alloc, self.terms[term.number].as_slice())?;
        Ok(bits)
    }

    /// Makes a term of one bit true. Beside what `bits` adds, this adds one clause with the term's literal alone.
    pub fn assert_true<'a>(
        &mut self,
        alloc: Global,
        pool: &TermPool<'a>,
        clauses: &mut ClauseStore<'a>,
        term: TermId,
    ) -> Result<(), Memory>
        requires within { term.number < length pool.now }
        requires one_bit { width_at pool.now term.number ≡ 1 }
        requires known { IsOf self.old pool.now clauses.old }
        ensures asserts { OnOk result (Asserts self.old self.new pool.now clauses.old clauses.new term.number) }
        ensures err { OnErr result (Grows clauses.old clauses.new) }
    {
        let bits = self.bits(alloc, pool, clauses, term)?;
        let lit = bits.bit(0);
        clauses.add(&[lit])?;
        Ok(())
    }
}

// An entry for each term up to one.
fn pad(alloc: Global, terms: &mut Vec<BitList>, id: usize) -> Result<(), Memory>
    ensures same { (j : ℕ) → lits_at terms.new.items j ≡ lits_at terms.old.items j }
    ensures room { OnOk result (id < length terms.new.items) }
{
    while terms.len() <= id {
        terms.push(BitList::new(alloc))?;
    }
    Ok(())
}

// The variable that a node is, by width and number.
fn variable_of(node: Node<'_>) -> Option<(u8, u32)>
    ensures { MatchOption result (IsOperation (shape_of node.entry)) (λ v. shape_of node.entry ≡ Var v.0 v.1) }
{
    match node {
        Node::Var { width, number } => Some((width, number)),
        Node::Const { .. } => None,
        Node::Not(_) => None,
        Node::Neg(_) => None,
        Node::Bin { .. } => None,
        Node::Extract { .. } => None,
        Node::ZeroExtend { .. } => None,
        Node::SignExtend { .. } => None,
        Node::Ite { .. } => None,
        Node::ByteSelect { .. } => None,
    }
}
