//! Parts of a word that are cut twice, put together again, undone and chosen.
ghost use Rattle.std.specs.Prelude.{◌≡◌, ◌<◌, ◌+◌, ◌-◌, length, IfOk};
ghost use Rattle.bv_terms.specs.declared.node.BinOp.TheVariants as op;
ghost use Rattle.bv_terms.specs.Fitting.{IsFitting};
ghost use Rattle.bv_terms.specs.Shapes.{Bin, Extract};
ghost use Rattle.bv_terms.specs.Values.{KeepsTerms, width_at};

use crate::add_by::add_by;
use crate::rewrite::NoRules;
use bumpalo::Bump;
use bv_terms::node::{BinOp, Node, TermId};
use bv_terms::pool::TermPool;
use odr_list::memory::Memory;
use std::test::Fail;

fn cut(pool: &mut TermPool<'_>, of: TermId, high: u8, low: u8) -> Result<TermId, Memory>
    requires { IsFitting (width_at pool.old) (length pool.old) (Extract of.number high low) }
    ensures inside { IfOk result (λ id. id.number < length pool.new) }
    ensures width { IfOk result (λ id. width_at pool.new id.number ≡ high + 1 - low) }
    ensures older { KeepsTerms pool.old pool.new }
{
    add_by(pool, Node::Extract { of, high, low }, &NoRules)
}

fn join(pool: &mut TermPool<'_>, left: TermId, right: TermId) -> Result<TermId, Memory>
    requires { IsFitting (width_at pool.old) (length pool.old) (Bin op.Concat left.number right.number) }
    ensures inside { IfOk result (λ id. id.number < length pool.new) }
    ensures width { IfOk result (λ id. width_at pool.new id.number ≡ width_at pool.old left.number + width_at pool.old right.number) }
    ensures older { KeepsTerms pool.old pool.new }
{
    let op = BinOp::Concat;
    add_by(pool, Node::Bin { op, left, right }, &NoRules)
}

#[test]
fn halves_of_a_word_are_the_word(rt: HostRuntime) -> Result<(), Fail> {
    let arena = Bump::new(rt.alloc());
    let mut pool = TermPool::new(rt.alloc(), &arena);
    let width = 32;
    let word = pool.add(Node::Var { width, number: 0 })?;
    let low = cut(&mut pool, word, 15, 0)?;
    let high = cut(&mut pool, word, 31, 16)?;
    let whole = join(&mut pool, high, low)?;
    assert_eq!(rt; whole, word);
    let swapped = join(&mut pool, low, high)?;
    assert!(rt; swapped != word);
    let byte = cut(&mut pool, swapped, 23, 16)?;
    let lowest = cut(&mut pool, word, 7, 0)?;
    assert_eq!(rt; byte, lowest);
    let inner = cut(&mut pool, low, 11, 4)?;
    let outer = cut(&mut pool, word, 11, 4)?;
    assert_eq!(rt; inner, outer);
    let across = cut(&mut pool, swapped, 19, 12)?;
    assert!(rt; across != inner);
    Ok(())
}

#[test]
fn what_is_undone_is_the_term(rt: HostRuntime) -> Result<(), Fail> {
    let arena = Bump::new(rt.alloc());
    let mut pool = TermPool::new(rt.alloc(), &arena);
    let width = 32;
    let word = pool.add(Node::Var { width, number: 0 })?;
    let inverse = add_by(&mut pool, Node::Not(word), &NoRules)?;
    let itself = add_by(&mut pool, Node::Not(inverse), &NoRules)?;
    assert_eq!(rt; itself, word);
    let negative = add_by(&mut pool, Node::Neg(word), &NoRules)?;
    let positive = add_by(&mut pool, Node::Neg(negative), &NoRules)?;
    assert_eq!(rt; positive, word);
    let wide = add_by(&mut pool, Node::ZeroExtend { of: word, width }, &NoRules)?;
    assert_eq!(rt; wide, word);
    let signed = add_by(&mut pool, Node::SignExtend { of: word, width }, &NoRules)?;
    assert_eq!(rt; signed, word);
    Ok(())
}

#[test]
fn a_constant_chooses(rt: HostRuntime) -> Result<(), Fail> {
    let arena = Bump::new(rt.alloc());
    let mut pool = TermPool::new(rt.alloc(), &arena);
    let width = 1;
    let yes = pool.add(Node::Var { width, number: 0 })?;
    let no = pool.add(Node::Var { width, number: 1 })?;
    let one = pool.add(Node::Const { width, value: 1 })?;
    let zero = pool.add(Node::Const { width, value: 0 })?;
    let first = add_by(&mut pool, Node::Ite { when: one, yes, no }, &NoRules)?;
    assert_eq!(rt; first, yes);
    let second = add_by(
        &mut pool,
        Node::Ite {
            when: zero,
            yes,
            no,
        },
        &NoRules,
    )?;
    assert_eq!(rt; second, no);
    let either = add_by(
        &mut pool,
        Node::Ite {
            when: yes,
            yes: no,
            no,
        },
        &NoRules,
    )?;
    assert_eq!(rt; either, no);
    Ok(())
}
