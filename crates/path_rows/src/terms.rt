//! What terms come to, worked out from the meaning of SMT-LIB's operations and not by the pool that keeps the terms.

ghost use Rattle.std.specs.Prelude.{◌<◌, length};

use bv_terms::node::{BinOp, Node, TermId};
use bv_terms::pool::TermPool;
use odr_list::list::List;
use odr_list::memory::Memory;
use odr_log::log::Pos;
use plain_walk::given::{Supplied, bytes_at, won_at};
use std::alloc::Global;

/// What a term comes to: a number of so many bits.
#[derive(Clone, Copy)]
struct Number {
    width: u8,
    value: u64,
}

/// So many ones, of a width from 1 to 64.
fn ones(width: u8) -> u64 {
    u64::MAX >> 64u8.saturating_sub(width).min(63)
}

/// Moved towards the high bits, with zeros behind.
fn moved_up(value: u64, by: u64) -> u64 {
    if by < 64 { value << by } else { 0 }
}

/// Moved towards the low bits, with zeros in front.
fn moved_down(value: u64, by: u64) -> u64 {
    if by < 64 { value >> by } else { 0 }
}

impl Number {
    fn is_negative(self) -> bool {
        self.value > ones(self.width) >> 1
    }

    /// With the highest bit of the width turned round, which puts numbers with a sign into the order of those without.
    fn lifted(self) -> u64 {
        self.value ^ ones(self.width) ^ (ones(self.width) >> 1)
    }

    /// With copies of the highest bit in front.
    fn extended(self) -> u64 {
        if self.is_negative() {
            self.value | (u64::MAX ^ ones(self.width))
        } else {
            self.value
        }
    }

    /// Moved towards the low bits, with copies of the highest bit in front.
    fn halved(self, times: u64) -> u64 {
        let front = if self.is_negative() {
            ones(self.width) ^ moved_down(ones(self.width), times)
        } else {
            0
        };
        front | moved_down(self.value, times)
    }
}

/// An operation; bits above its width may be anything.
fn operation(op: BinOp, left: Number, right: Number) -> u64 {
    match op {
        BinOp::And => left.value & right.value,
        BinOp::Or => left.value | right.value,
        BinOp::Xor => left.value ^ right.value,
        BinOp::Add => left.value.wrapping_add(right.value),
        BinOp::Sub => left.value.wrapping_sub(right.value),
        BinOp::Mul => left.value.wrapping_mul(right.value),
        BinOp::Udiv => left.value.checked_div(right.value).unwrap_or(u64::MAX),
        BinOp::Urem => left.value.checked_rem(right.value).unwrap_or(left.value),
        BinOp::Shl => moved_up(left.value, right.value),
        BinOp::Lshr => moved_down(left.value, right.value),
        BinOp::Ashr => left.halved(right.value),
        BinOp::Eq => u64::from(left.value == right.value),
        BinOp::Ult => u64::from(left.value < right.value),
        BinOp::Slt => u64::from(left.lifted() < right.lifted()),
        BinOp::Concat => moved_up(left.value, u64::from(right.width)) | right.value,
    }
}

/// The byte of a table, 0 outside it.
fn entry(first: u32, bytes: &[u8], index: u64) -> u64 {
    let place = index.checked_sub(u64::from(first));
    let place = place.and_then(|place| usize::try_from(place).ok());
    place
        .and_then(|place| bytes.get(place))
        .map_or(0, |byte| u64::from(*byte))
}

/// The step whose variables have this number, or numbers that begin with it.
fn step_of(number: u32) -> Option<Pos> {
    let thread = u8::try_from(number / 0x4_0000).ok()?;
    Some(Pos {
        thread,
        step: number % 0x4_0000,
    })
}

/// The value of a variable: of 8 bits it is a byte that a step reads, of one bit the outcome of a store-conditional.
fn variable(rows: &[List<Supplied>], width: u8, number: u32) -> Option<u64> {
    match width {
        1 => Some(u64::from(won_at(rows, step_of(number)?))),
        8 => {
            let bytes = bytes_at(rows, step_of(number / 0x100)?);
            let byte = bytes.get((number % 0x100) as usize).copied();
            Some(u64::from(byte.unwrap_or(0)))
        }
        // No other variable stands for anything.
        _ => Some(0),
    }
}

/// What nodes came to, in the order of their pool.
#[derive(Drop)]
pub struct Values {
    numbers: Vec<Number>,
}

impl Values {
    fn number(&self, id: TermId) -> Option<Number> {
        self.numbers.get(id.number).copied()
    }

    /// What a term comes to.
    pub fn of(&self, id: TermId) -> Option<u64> {
        Some(self.number(id)?.value)
    }

    /// What a node on nodes before it comes to; bits above its width may be anything.
    fn of_node(&self, rows: &[List<Supplied>], node: Node<'_>) -> Option<u64> {
        Some(match node {
            Node::Const { value, .. } => value,
            Node::Var { width, number } => variable(rows, width, number)?,
            Node::Not(of) => u64::MAX ^ self.number(of)?.value,
            Node::Neg(of) => 0u64.wrapping_sub(self.number(of)?.value),
            Node::Bin { op, left, right } => {
                operation(op, self.number(left)?, self.number(right)?)
            }
            Node::Extract { of, low, .. } => moved_down(self.number(of)?.value, u64::from(low)),
            Node::ZeroExtend { of, .. } => self.number(of)?.value,
            Node::SignExtend { of, .. } => self.number(of)?.extended(),
            Node::Ite { when, yes, no } => {
                let chosen = if self.number(when)?.value == 1 {
                    yes
                } else {
                    no
                };
                self.number(chosen)?.value
            }
            Node::ByteSelect {
                first,
                bytes,
                index,
            } => entry(first, bytes, self.number(index)?.value),
        })
    }
}

/// What the terms of a pool come to, up to one of them, where steps are given this; none where a variable is of no step.
pub fn evaluate(
    alloc: Global,
    pool: &TermPool<'_>,
    last: TermId,
    rows: &[List<Supplied>],
) -> Result<Option<Values>, Memory>
    requires { last.number < length pool.now }
{
    let mut values = Values {
        numbers: Vec::new(alloc),
    };
    for number in 0..=last.number {
        let id = TermId { number };
        let width = pool.width(id);
        let Some(value) = values.of_node(rows, pool.node(id)) else {
            return Ok(None);
        };
        let value = value & ones(width);
        values.numbers.push(Number { width, value })?;
    }
    Ok(Some(values))
}
