//! What terms are made of.

/// A term of a pool, named by the place of its node there.
#[derive(Clone, Copy, Debug, PartialEq, Eq, Hash)]
pub struct TermId {
    /// How many nodes the pool had before this one.
    pub number: usize,
}

/// An operation on two terms, named as SMT-LIB names it without `bv`. `Eq`, `Ult` and `Slt` give one bit;
/// the left of `Concat` is the high part.
#[derive(Clone, Copy, Debug, PartialEq, Eq, Hash)]
pub enum BinOp {
    And,
    Or,
    Xor,
    Add,
    Sub,
    Mul,
    Udiv,
    Urem,
    Shl,
    Lshr,
    Ashr,
    Eq,
    Ult,
    Slt,
    Concat,
}

/// One node of a term; its children are terms of the same pool. Widths are in bits.
#[derive(Clone, Copy, Debug, PartialEq, Eq, Hash)]
pub enum Node<'a> {
    /// A constant, whose value is below 2 to the power of its width.
    Const {
        width: u8,
        value: u64,
    },
    /// A variable. Two are the same one exactly where width and number are equal.
    Var {
        width: u8,
        number: u32,
    },
    /// Each bit turned round.
    Not(TermId),
    /// The negative, in two's complement.
    Neg(TermId),
    /// An operation on two terms.
    Bin {
        op: BinOp,
        left: TermId,
        right: TermId,
    },
    /// The bits from `low` up to `high`, both included.
    Extract {
        of: TermId,
        high: u8,
        low: u8,
    },
    /// The term with zeros in front, up to a width.
    ZeroExtend {
        of: TermId,
        width: u8,
    },
    /// The term with copies of its highest bit in front, up to a width.
    SignExtend {
        of: TermId,
        width: u8,
    },
    /// One of two terms, as a term of one bit chooses: `yes` where it is 1.
    Ite {
        when: TermId,
        yes: TermId,
        no: TermId,
    },
    /// The byte of a table at an index that counts from `first`, or 0 outside the table.
    ByteSelect {
        first: u32,
        bytes: &'a [u8],
        index: TermId,
    },
}
