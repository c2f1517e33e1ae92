ghost use Rattle.std.specs.Prelude.{◌≡◌, ◌<◌, [], ◌∷◌, length, IfOk};
ghost use Rattle.bv_terms.specs.declared.node.BinOp.TheVariants as op;
ghost use Rattle.bv_terms.specs.BitVectors.{bin_value, bits, byte_value, extract_value, neg_value, not_value, sign_extend_value};
ghost use Rattle.bv_terms.specs.Values.{KeepsTerms, width_at};

use crate::node::{BinOp, Node, TermId};
use crate::pool::TermPool;
use bumpalo::Bump;
use odr_list::memory::Memory;
use std::alloc::Global;
use std::test::Fail;

// The definitions at values that were worked out from the formulas of the standard by hand.
fn worked_values()
    ensures sum_wraps { bin_value op.Add (bits 8 200) (bits 8 100) ≡ 44 }
    ensures difference_wraps { bin_value op.Sub (bits 8 3) (bits 8 5) ≡ 254 }
    ensures product_wraps { bin_value op.Mul (bits 32 0x12345678) (bits 32 0xfedcba98) ≡ 0x35068740 }
    ensures quotient { bin_value op.Udiv (bits 32 0xfedcba98) (bits 32 0x12345678) ≡ 14 }
    ensures quotient_by_zero { bin_value op.Udiv (bits 8 200) (bits 8 0) ≡ 255 }
    ensures remainder_by_zero { bin_value op.Urem (bits 8 200) (bits 8 0) ≡ 200 }
    ensures shift_by_the_width { bin_value op.Shl (bits 32 1) (bits 32 32) ≡ 0 }
    ensures shift_of_a_negative { bin_value op.Ashr (bits 8 165) (bits 8 3) ≡ 244 }
    ensures far_shift_of_a_negative { bin_value op.Ashr (bits 8 165) (bits 8 255) ≡ 255 }
    ensures negative_is_less { bin_value op.Slt (bits 8 255) (bits 8 1) ≡ 1 }
    ensures left_is_high { bin_value op.Concat (bits 8 1) (bits 4 2) ≡ 18 }
    ensures negative_of_one { neg_value (bits 64 1) ≡ 0xffff_ffff_ffff_ffff }
    ensures negative_of_zero { neg_value (bits 8 0) ≡ 0 }
    ensures turned_round { not_value (bits 1 1) ≡ 0 }
    ensures middle_bits { extract_value (bits 8 0xa5) 6 2 ≡ 9 }
    ensures sign_in_front { sign_extend_value (bits 8 0x80) 16 ≡ 0xff80 }
    ensures byte_inside { byte_value 5 (7 ∷ 8 ∷ 9 ∷ []) 7 ≡ 9 }
    ensures byte_before { byte_value 5 (7 ∷ 8 ∷ 9 ∷ []) 4 ≡ 0 }
    ensures byte_after { byte_value 5 (7 ∷ 8 ∷ 9 ∷ []) 8 ≡ 0 }
{}

#[test]
fn operations_have_the_values_of_the_standard() {
    worked_values();
}

#[test]
fn equal_nodes_share_an_id(rt: HostRuntime) -> Result<(), Fail> {
    let arena = Bump::new(rt.alloc());
    let mut pool = TermPool::new(rt.alloc(), &arena);
    let first = pool.table(&[1, 2])?;
    let second = pool.table(&[1, 2])?;
    let index = pool.add(Node::Var {
        width: 8,
        number: 0,
    })?;
    let one = pool.add(Node::ByteSelect {
        first: 0,
        bytes: first,
        index,
    })?;
    let other = pool.add(Node::ByteSelect {
        first: 0,
        bytes: second,
        index,
    })?;
    assert_eq!(rt; one, other);
    let wider = pool.add(Node::Var {
        width: 9,
        number: 0,
    })?;
    assert_ne!(rt; wider, index);
    assert_eq!(rt; pool.width(wider), 9);
    assert_eq!(rt;
        pool.node(wider),
        Node::Var {
            width: 9,
            number: 0
        }
    );
    Ok(())
}

// A constant of 8 bits.
fn byte(pool: &mut TermPool<'_>, value: u8) -> Result<TermId, Memory>
    ensures inside { IfOk result (λ id. id.number < length pool.new) }
    ensures width { IfOk result (λ id. width_at pool.new id.number ≡ 8) }
    ensures older { KeepsTerms pool.old pool.new }
{
    pool.add(Node::Const {
        width: 8,
        value: value as u64,
    })
}

// The width and the value of the constant that an operation on two constants of 8 bits becomes.
fn folded(alloc: Global, op: BinOp, left: u8, right: u8) -> Result<(u8, Option<u64>), Memory> {
    let arena = Bump::new(alloc);
    let mut pool = TermPool::new(alloc, &arena);
    let left = byte(&mut pool, left)?;
    let right = byte(&mut pool, right)?;
    let term = pool.add(Node::Bin { op, left, right })?;
    Ok((pool.width(term), pool.constant(term)))
}

#[test]
fn operations_on_constants_are_constants(rt: HostRuntime) -> Result<(), Fail> {
    let rows = [
        (BinOp::And, 0xf0, 0xaa, 8, 0xa0),
        (BinOp::Or, 0xf0, 0x0a, 8, 0xfa),
        (BinOp::Xor, 0xf0, 0xaa, 8, 0x5a),
        (BinOp::Add, 3, 4, 8, 7),
        (BinOp::Add, 200, 100, 8, 44),
        (BinOp::Sub, 3, 5, 8, 254),
        (BinOp::Mul, 20, 13, 8, 4),
        (BinOp::Udiv, 200, 7, 8, 28),
        (BinOp::Udiv, 200, 0, 8, 255),
        (BinOp::Urem, 200, 7, 8, 4),
        (BinOp::Urem, 200, 0, 8, 200),
        (BinOp::Shl, 0x81, 1, 8, 2),
        (BinOp::Shl, 1, 8, 8, 0),
        (BinOp::Lshr, 0x81, 7, 8, 1),
        (BinOp::Ashr, 165, 3, 8, 244),
        (BinOp::Ashr, 165, 255, 8, 255),
        (BinOp::Eq, 5, 5, 1, 1),
        (BinOp::Ult, 255, 1, 1, 0),
        (BinOp::Slt, 255, 1, 1, 1),
        (BinOp::Concat, 1, 2, 16, 0x102),
    ];
    for (op, left, right, width, value) in rows {
        assert_eq!(rt; folded(rt.alloc(), op, left, right)?, (width, Some(value)));
    }
    Ok(())
}

#[test]
fn other_nodes_on_constants_are_constants(rt: HostRuntime) -> Result<(), Fail> {
    let arena = Bump::new(rt.alloc());
    let mut pool = TermPool::new(rt.alloc(), &arena);
    let bytes = pool.table(&[7, 8, 9])?;
    let of = byte(&mut pool, 0xa5)?;
    let one = pool.add(Node::Const { width: 1, value: 1 })?;
    let turned = pool.add(Node::Not(of))?;
    assert_eq!(rt; pool.constant(turned), Some(0x5a));
    let negative = pool.add(Node::Neg(of))?;
    assert_eq!(rt; pool.constant(negative), Some(0x5b));
    let middle = pool.add(Node::Extract {
        of,
        high: 6,
        low: 2,
    })?;
    assert_eq!(rt; (pool.width(middle), pool.constant(middle)), (5, Some(9)));
    let wide = pool.add(Node::ZeroExtend { of, width: 16 })?;
    assert_eq!(rt; (pool.width(wide), pool.constant(wide)), (16, Some(0xa5)));
    let signed = pool.add(Node::SignExtend { of, width: 16 })?;
    assert_eq!(rt;
        (pool.width(signed), pool.constant(signed)),
        (16, Some(0xffa5))
    );
    let choice = pool.add(Node::Ite {
        when: one,
        yes: turned,
        no: of,
    })?;
    assert_eq!(rt; choice, turned);
    let entry = pool.add(Node::ByteSelect {
        first: 0xa4,
        bytes,
        index: of,
    })?;
    assert_eq!(rt; pool.constant(entry), Some(8));
    Ok(())
}

#[test]
fn a_node_on_a_variable_is_kept(rt: HostRuntime) -> Result<(), Fail> {
    let arena = Bump::new(rt.alloc());
    let mut pool = TermPool::new(rt.alloc(), &arena);
    let zero = byte(&mut pool, 0)?;
    let variable = pool.add(Node::Var {
        width: 8,
        number: 0,
    })?;
    let sum = Node::Bin {
        op: BinOp::Add,
        left: variable,
        right: zero,
    };
    let kept = pool.add(sum)?;
    assert_eq!(rt; pool.node(kept), sum);
    assert_eq!(rt; pool.constant(kept), None);
    Ok(())
}
