//! The encoder.
ghost use Rattle.std.specs.Prelude.{◌≡◌, ◌<◌, ◌∷◌, ◌++◌, [], length, map, IfOk, OnOk, OnErr, All, None, false, slice_index_or};
ghost use Rattle.bv_terms.specs.Constants.{constant_at};
ghost use Rattle.bv_terms.specs.Values.{width_at};
ghost use Rattle.clause_store.specs.Formula.{Grows};
ghost use Rattle.bit_clauses.specs.Bits.{IsBuilt};
ghost use Rattle.bit_clauses.specs.Nodes.{lits_at};
ghost use Rattle.bv_terms.specs.declared.node.TermId.{TermId};
ghost use Rattle.encoder.specs.Encodes.{AreBuilt, Encodes, IsKnown, IsTest, Requires, joined};

use bit_clauses::bit_list::BitList;
use bit_clauses::blaster::Blaster;
use bv_terms::node::TermId;
use bv_terms::pool::TermPool;
use clause_store::lit::Lit;
use clause_store::store::ClauseStore;
use odr_list::list::List;
use odr_list::memory::Memory;
use order_clauses::order_lit::OrderLit;
use std::alloc::Global;

/// Terms of one pool, the literals that they were given, and all clauses.
#[derive(Drop)]
pub struct Encoder<'a> {
    pub pool: TermPool<'a>,
    pub blaster: Blaster,
    pub clauses: ClauseStore<'a>,
}

// Appends literals.
fn copy_bits(bits: &BitList, lits: &mut List<Lit>) -> Result<(), Memory>
    ensures { OnOk result (lits.new ≡ lits.old ++ bits.now) }
{
    for k in 0..bits.len() {
        lits.push(bits.bit(k))?;
    }
    Ok(())
}

impl<'a> Encoder<'a> {
    /// Appends the literals of a term, the one of the lowest bit first, with the clauses that fix them.
    ///
    /// # Errors
    ///
    /// `Memory` alone, which leaves older variables and clauses; the encoder isn't to be used any more.
    pub fn append(
        &mut self,
        alloc: Global,
        term: TermId,
        lits: &mut List<Lit>,
    ) -> Result<(), Memory>
        requires within { term.number < length self.old.pool }
        requires known { IsKnown self.old }
        ensures encodes { OnOk result (Encodes self.old self.new (term.number ∷ [])) }
        ensures built { OnOk result (IsBuilt self.new.blaster term.number) }
        ensures lits { OnOk result (lits.new ≡ lits.old ++ lits_at self.new.blaster.terms term.number) }
        ensures pool { self.new.pool ≡ self.old.pool }
        ensures err { OnErr result (Grows self.old.clauses self.new.clauses) }
    {
        let _width = self.pool.width(term);
        let bits = self
            .blaster
            .bits(alloc, &self.pool, &mut self.clauses, term)?;
        copy_bits(&bits, lits)
    }

    /// The literals of some terms, one term after the other.
    ///
    /// # Errors
    ///
    /// As above.
    pub fn literals(&mut self, alloc: Global, terms: &[TermId]) -> Result<List<Lit>, Memory>
        requires within { All (λ (id : TermId). id.number < length self.old.pool) terms.now }
        requires known { IsKnown self.old }
        ensures encodes { IfOk result (λ lits. Encodes self.old self.new (map (λ (id : TermId). id.number) terms.now)) }
        ensures built { IfOk result (λ lits. AreBuilt self.new (map (λ (id : TermId). id.number) terms.now)) }
        ensures lits { IfOk result (λ lits. lits ≡ joined self.new.blaster.terms (map (λ (id : TermId). id.number) terms.now)) }
        ensures pool { self.new.pool ≡ self.old.pool }
        ensures err { OnErr result (Grows self.old.clauses self.new.clauses) }
    {
        let mut lits = List::new(alloc);
        for k in 0..terms.len() {
            self.append(alloc, terms[k], &mut lits)?;
        }
        Ok(lits)
    }

    // The literal of a term of one bit that is no constant.
    fn literal(&mut self, alloc: Global, term: TermId) -> Result<Lit, Memory>
        requires within { term.number < length self.old.pool }
        requires bit { width_at self.old.pool term.number ≡ 1 }
        requires known { IsKnown self.old }
        ensures encodes { IfOk result (λ l. Encodes self.old self.new (term.number ∷ [])) }
        ensures built { IfOk result (λ l. IsBuilt self.new.blaster term.number) }
        ensures literal { IfOk result (λ l. l ≡ slice_index_or (lits_at self.new.blaster.terms term.number) 0 (record { var = 0; positive = false })) }
        ensures pool { self.new.pool ≡ self.old.pool }
        ensures err { OnErr result (Grows self.old.clauses self.new.clauses) }
    {
        let bits = self
            .blaster
            .bits(alloc, &self.pool, &mut self.clauses, term)?;
        Ok(bits.bit(0))
    }

    /// What says that a term of one bit is 1. A constant gets no literal.
    ///
    /// # Errors
    ///
    /// As above.
    pub fn test(&mut self, alloc: Global, term: TermId) -> Result<OrderLit, Memory>
        requires within { term.number < length self.old.pool }
        requires bit { width_at self.old.pool term.number ≡ 1 }
        requires known { IsKnown self.old }
        ensures encodes { IfOk result (λ test. Encodes self.old self.new (term.number ∷ [])) }
        ensures test { IfOk result (λ test. IsTest self.new term.number test) }
        ensures pool { self.new.pool ≡ self.old.pool }
        ensures err { OnErr result (Grows self.old.clauses self.new.clauses) }
    {
        match self.pool.constant(term) {
            Some(1) => Ok(OrderLit::Always),
            Some(_) => Ok(OrderLit::Never),
            None => Ok(OrderLit::Is(self.literal(alloc, term)?)),
        }
    }

    /// Makes a term of one bit 1.
    ///
    /// # Errors
    ///
    /// As above.
    pub fn require(&mut self, alloc: Global, term: TermId) -> Result<(), Memory>
        requires within { term.number < length self.old.pool }
        requires bit { width_at self.old.pool term.number ≡ 1 }
        requires known { IsKnown self.old }
        ensures requires_it { OnOk result (Requires self.old self.new term.number) }
        ensures pool { self.new.pool ≡ self.old.pool }
        ensures err { OnErr result (Grows self.old.clauses self.new.clauses) }
    {
        self.blaster
            .assert_true(alloc, &self.pool, &mut self.clauses, term)
    }
}
