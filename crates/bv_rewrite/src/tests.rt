ghost use Rattle.std.specs.Prelude.{◌≡◌, ◌<◌, length, IfOk};
ghost use Rattle.bv_terms.specs.BitVectors.{bin_width};
ghost use Rattle.bv_terms.specs.Fitting.{AreOperands, IsWidth};
ghost use Rattle.bv_terms.specs.Values.{KeepsTerms, width_at};
ghost use Rattle.bv_rewrite.specs.Bytes.{AreBytes, IsByte};

use crate::add_by::add_by;
use crate::rewrite::{Book, NoRules, Rewrite};
use crate::rule::Rule;
use crate::rules::{neutral_left, neutral_right, same, zero};
use crate::simplify::simplify;
use crate::view::View;
use Operand::{One, Ones, X, Y, Zero};
use Outcome::{First, Kept, Second, Value};
use bumpalo::Bump;
use bv_terms::node::{BinOp, Node, TermId};
use bv_terms::pool::TermPool;
use odr_list::memory::Memory;
use std::alloc::Global;
use std::test::Fail;

// A child: a variable or a constant.
#[derive(Clone, Copy, Debug, PartialEq, Eq)]
enum Operand {
    X,
    Y,
    Zero,
    One,
    Ones,
}

// What an operation became.
#[derive(Clone, Copy, Debug, PartialEq, Eq)]
enum Outcome {
    First,
    Second,
    Value(u64),
    Kept,
}

// All bits of a width set.
fn ones(width: u8) -> u64 {
    match width {
        1 => 1,
        8 => 0xff,
        32 => 0xffff_ffff,
        _ => 0xffff_ffff_ffff_ffff,
    }
}

// A constant, of which the bits above the width are dropped.
fn constant(pool: &mut TermPool<'_>, width: u8, value: u64) -> Result<TermId, Memory>
    requires { IsWidth width }
    ensures inside { IfOk result (λ id. id.number < length pool.new) }
    ensures width { IfOk result (λ id. width_at pool.new id.number ≡ width) }
    ensures older { KeepsTerms pool.old pool.new }
{
    let value = (value as u128 % 2u128.pow(width as u32)) as u64;
    pool.add(Node::Const { width, value })
}

fn child(pool: &mut TermPool<'_>, width: u8, which: Operand) -> Result<TermId, Memory>
    requires { IsWidth width }
    ensures inside { IfOk result (λ id. id.number < length pool.new) }
    ensures width { IfOk result (λ id. width_at pool.new id.number ≡ width) }
    ensures older { KeepsTerms pool.old pool.new }
{
    match which {
        Operand::X => pool.add(Node::Var { width, number: 0 }),
        Operand::Y => pool.add(Node::Var { width, number: 1 }),
        Operand::Zero => constant(pool, width, 0),
        Operand::One => constant(pool, width, 1),
        Operand::Ones => constant(pool, width, ones(width)),
    }
}

// What an operation becomes by a book, in a pool that had its children alone.
fn made_by<R: Rewrite>(
    alloc: Global,
    width: u8,
    op: BinOp,
    left: Operand,
    right: Operand,
    book: &R,
) -> Result<Outcome, Memory>
    requires { IsWidth width }
{
    let arena = Bump::new(alloc);
    let mut pool = TermPool::new(alloc, &arena);
    let left = child(&mut pool, width, left)?;
    let right = child(&mut pool, width, right)?;
    let node = match op {
        BinOp::Concat => Node::Not(left),
        _ => Node::Bin { op, left, right },
    };
    let term = add_by(&mut pool, node, book)?;
    if term == left {
        return Ok(Outcome::First);
    }
    if term == right {
        return Ok(Outcome::Second);
    }
    match pool.constant(term) {
        Some(value) => Ok(Outcome::Value(value)),
        None => Ok(Outcome::Kept),
    }
}

// A term with so many zeros added to it, one after another.
fn with_zeros(
    pool: &mut TermPool<'_>,
    term: TermId,
    zero: TermId,
    count: usize,
) -> Result<TermId, Memory>
    requires inside { term.number < length pool.old }
    requires zero_inside { zero.number < length pool.old }
    requires width { width_at pool.old term.number ≡ width_at pool.old zero.number }
    ensures inside { IfOk result (λ id. id.number < length pool.new) }
    ensures older { KeepsTerms pool.old pool.new }
{
    let mut sum = term;
    for i in 0..count {
        sum = pool.add(Node::Bin {
            op: BinOp::Add,
            left: sum,
            right: zero,
        })?;
    }
    Ok(sum)
}

// An operation, its children, and what it becomes, at every width.
const ROWS: [(BinOp, Operand, Operand, Outcome); 33] = [
    (BinOp::Add, X, Zero, First),
    (BinOp::Sub, X, Zero, First),
    (BinOp::Or, X, Zero, First),
    (BinOp::Xor, X, Zero, First),
    (BinOp::Shl, X, Zero, First),
    (BinOp::Lshr, X, Zero, First),
    (BinOp::Ashr, X, Zero, First),
    (BinOp::Mul, X, One, First),
    (BinOp::Udiv, X, One, First),
    (BinOp::And, X, Ones, First),
    (BinOp::Add, Zero, X, Second),
    (BinOp::Or, Zero, X, Second),
    (BinOp::Xor, Zero, X, Second),
    (BinOp::Mul, One, X, Second),
    (BinOp::And, Ones, X, Second),
    (BinOp::And, X, Zero, Second),
    (BinOp::And, Zero, X, First),
    (BinOp::Mul, X, Zero, Second),
    (BinOp::Mul, Zero, X, First),
    (BinOp::And, X, X, First),
    (BinOp::Or, X, X, First),
    (BinOp::Sub, X, X, Value(0)),
    (BinOp::Xor, X, X, Value(0)),
    (BinOp::Ult, X, X, Value(0)),
    (BinOp::Slt, X, X, Value(0)),
    (BinOp::Eq, X, X, Value(1)),
    (BinOp::Sub, Zero, X, Kept),
    (BinOp::Udiv, X, X, Kept),
    (BinOp::Urem, X, X, Kept),
    (BinOp::Udiv, One, X, Kept),
    (BinOp::Shl, Zero, X, Kept),
    (BinOp::Add, X, Y, Kept),
    (BinOp::Eq, X, Y, Kept),
];

#[test]
fn each_rule_of_the_table(rt: HostRuntime) -> Result<(), Fail> {
    let alloc = rt.alloc();
    let book = Book {
        first: Book {
            first: Rule::new(Box::new(alloc, |view: View| neutral_right(view))?),
            second: Rule::new(Box::new(alloc, |view: View| neutral_left(view))?),
        },
        second: Book {
            first: Rule::new(Box::new(alloc, |view: View| zero(view))?),
            second: Rule::new(Box::new(alloc, |view: View| same(view))?),
        },
    };
    for (op, left, right, want) in ROWS {
        for width in [1u8, 8, 32, 64] {
            prove!(0 < width && width <= 64);
            assert_eq!(rt;
                made_by(alloc, width, op, left, right, &book)?,
                want,
                "{op:?} {left:?} {right:?} {width}"
            );
        }
    }
    Ok(())
}

#[test]
fn a_term_is_simplified_from_the_leaves_up(rt: HostRuntime) -> Result<(), Fail> {
    let alloc = rt.alloc();
    let arena = Bump::new(alloc);
    let mut pool = TermPool::new(alloc, &arena);
    let x = child(&mut pool, 8, X)?;
    let zero = child(&mut pool, 8, Zero)?;
    let sum = with_zeros(&mut pool, x, zero, 20000)?;
    assert_eq!(rt; simplify(alloc, &mut pool, sum, &NoRules)?, sum);
    let rule = Rule::new(Box::new(alloc, |view: View| neutral_right(view))?);
    assert_eq!(rt; simplify(alloc, &mut pool, sum, &rule)?, x);
    Ok(())
}

// Three terms of 8 bits.
#[derive(Clone, Copy)]
struct Three {
    first: TermId,
    second: TermId,
    third: TermId,
}

// The pseudo-random number after one.
fn after(seed: u64) -> u64 {
    seed.wrapping_mul(6364136223846793005)
        .wrapping_add(1442695040888963407)
}

fn one_of(pool: &TermPool<'_>, terms: Three, number: u64) -> TermId
    requires { AreBytes pool.now terms.first.number terms.second.number terms.third.number }
    ensures { IsByte pool.now result.number }
{
    let _pool = pool;
    match number % 3 {
        0 => terms.first,
        1 => terms.second,
        _ => terms.third,
    }
}

// An operation that gives a term of its operands' width.
fn random_operation(number: u64) -> BinOp
    ensures operands { AreOperands result 8 8 }
    ensures width { bin_width result 8 8 ≡ 8 }
{
    match number % 11 {
        0 => BinOp::And,
        1 => BinOp::Or,
        2 => BinOp::Xor,
        3 => BinOp::Add,
        4 => BinOp::Sub,
        5 => BinOp::Mul,
        6 => BinOp::Udiv,
        7 => BinOp::Urem,
        8 => BinOp::Shl,
        9 => BinOp::Lshr,
        _ => BinOp::Ashr,
    }
}

fn random_node(pool: &mut TermPool<'_>, terms: Three, seed: u64) -> Result<TermId, Memory>
    requires { AreBytes pool.old terms.first.number terms.second.number terms.third.number }
    ensures byte { IfOk result (λ id. IsByte pool.new id.number) }
    ensures older { KeepsTerms pool.old pool.new }
{
    let left = one_of(pool, terms, seed / 65536);
    let right = one_of(pool, terms, seed / 4294967296);
    let op = random_operation(seed / 1099511627776);
    pool.add(Node::Bin { op, left, right })
}

// A term over three variables, made in so many steps, of which each stands on the last three terms.
fn random_term(pool: &mut TermPool<'_>, seed: u64, steps: u32) -> Result<TermId, Memory>
    ensures { IfOk result (λ id. IsByte pool.new id.number) }
{
    let mut terms = variables(pool)?;
    let mut random = seed;
    for i in 0..steps {
        random = after(random);
        let made = random_node(pool, terms, random)?;
        terms = Three {
            first: terms.second,
            second: terms.third,
            third: made,
        };
    }
    Ok(terms.third)
}

fn byte_variable(pool: &mut TermPool<'_>, number: u32) -> Result<TermId, Memory>
    ensures byte { IfOk result (λ id. IsByte pool.new id.number) }
    ensures older { KeepsTerms pool.old pool.new }
{
    pool.add(Node::Var { width: 8, number })
}

fn variables(pool: &mut TermPool<'_>) -> Result<Three, Memory>
    ensures { IfOk result (λ t. AreBytes pool.new t.first.number t.second.number t.third.number) }
{
    let first = byte_variable(pool, 0)?;
    let second = byte_variable(pool, 1)?;
    let third = byte_variable(pool, 2)?;
    Ok(Three {
        first,
        second,
        third,
    })
}

// The value of an operation, by Rust's own arithmetic.
fn rust_value(op: BinOp, left: u8, right: u8) -> u8 {
    match op {
        BinOp::And => left & right,
        BinOp::Or => left | right,
        BinOp::Xor => left ^ right,
        BinOp::Add => left.wrapping_add(right),
        BinOp::Sub => left.wrapping_sub(right),
        BinOp::Mul => left.wrapping_mul(right),
        BinOp::Udiv => left.checked_div(right).unwrap_or(255),
        BinOp::Urem => left.checked_rem(right).unwrap_or(left),
        BinOp::Shl => left.checked_shl(right as u32).unwrap_or(0),
        BinOp::Lshr => left.checked_shr(right as u32).unwrap_or(0),
        BinOp::Ashr => {
            if left < 128 {
                left.checked_shr(right as u32).unwrap_or(0)
            } else {
                !(!left).checked_shr(right as u32).unwrap_or(0)
            }
        }
        _ => 0,
    }
}

// The value of a term of bytes, by the values of those before it.
fn node_value(node: Node<'_>, values: &[u8], assignment: u64) -> u8 {
    match node {
        Node::Const { value, .. } => (value % 256) as u8,
        Node::Var { number, .. } => {
            let place = if number == 0 {
                1
            } else if number == 1 {
                256
            } else {
                65536
            };
            (assignment / place % 256) as u8
        }
        Node::Bin { op, left, right } => {
            let left = values.get(left.number).copied().unwrap_or(0);
            let right = values.get(right.number).copied().unwrap_or(0);
            rust_value(op, left, right)
        }
        _ => 0,
    }
}

// The value of a term under an assignment, whose low bytes are the values of the variables.
fn term_value(
    alloc: Global,
    pool: &TermPool<'_>,
    term: TermId,
    assignment: u64,
) -> Result<u8, Memory>
    requires { term.number < length pool.now }
{
    let mut values = Vec::new(alloc);
    for number in 0..term.number {
        let value = node_value(pool.node(TermId { number }), values.as_slice(), assignment);
        values.push(value)?;
    }
    Ok(node_value(pool.node(term), values.as_slice(), assignment))
}

// Whether a random term and what it becomes have one value under each of four random assignments.
fn keeps_values<R: Rewrite>(alloc: Global, seed: u64, book: &R) -> Result<bool, Memory> {
    let arena = Bump::new(alloc);
    let mut pool = TermPool::new(alloc, &arena);
    let term = random_term(&mut pool, seed, 8)?;
    let simpler = simplify(alloc, &mut pool, term, book)?;
    let mut assignment = seed;
    for i in 0..4u8 {
        assignment = after(assignment);
        let before = term_value(alloc, &pool, term, assignment / 65536)?;
        let now = term_value(alloc, &pool, simpler, assignment / 65536)?;
        if before != now {
            return Ok(false);
        }
    }
    Ok(true)
}

#[test]
fn random_terms_keep_their_values(rt: HostRuntime) -> Result<(), Fail> {
    let alloc = rt.alloc();
    let book = Book {
        first: Rule::new(Box::new(alloc, |view: View| neutral_right(view))?),
        second: Book {
            first: Rule::new(Box::new(alloc, |view: View| zero(view))?),
            second: Rule::new(Box::new(alloc, |view: View| same(view))?),
        },
    };
    for seed in 0..60u64 {
        assert!(rt; keeps_values(alloc, seed, &book)?, "{seed}");
    }
    Ok(())
}
