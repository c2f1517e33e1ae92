//! Readers of statements.
ghost use Rattle.std.specs.Prelude.{◌≡◌, IfOk, IfSome};
ghost use Rattle.rv32_asm.specs.Reading.{Gives};
ghost use Rattle.rv32_asm.specs.Statement.{numbers_of, zeros_of, choice_of, instruction_of, statement_by, statement_of};
ghost use Rattle.rv32_asm.specs.Seen.{statement_seen, IsSoundStatement};

use crate::code::Code;
use crate::instructions::instruction;
use crate::reader::{is_over, number_in, word};
use crate::stored::{self, NumberSize};
use odr_list::memory::Memory;
use std::alloc::Global;

/// A part of the program.
#[derive(Clone, Copy, Debug, PartialEq, Eq)]
pub(crate) enum Part {
    Text,
    Data,
}

/// What a line says beside its label.
#[derive(Debug, Drop)]
pub(crate) enum Statement<'a> {
    Empty,
    Choose(Part),
    Bytes(Vec<u8>),
    Instruction(Code<'a>),
}

fn choice(part: Part, bytes: &[u8]) -> Option<Statement<'_>>
    ensures value { Gives statement_seen result (choice_of part bytes.now) }
    ensures sound { IfSome result (λ s. IsSoundStatement (statement_seen s)) }
{
    if is_over(bytes) {
        Some(Statement::Choose(part))
    } else {
        None
    }
}

#[tactic(auto, unfolding(crate::specs::Statement::numbers_of))]
fn numbers(alloc: Global, size: NumberSize, bytes: &[u8]) -> Result<Option<Statement<'_>>, Memory>
    ensures value { IfOk result (λ s. Gives statement_seen s (numbers_of size bytes.now)) }
    ensures sound { IfOk result (λ s. IfSome s (λ x. IsSoundStatement (statement_seen x))) }
{
    if is_over(bytes) {
        return Ok(None);
    }
    match stored::numbers(alloc, size, bytes)? {
        Some(stored) => Ok(Some(Statement::Bytes(stored))),
        None => Ok(None),
    }
}

#[tactic(auto, unfolding(crate::specs::Statement::zeros_of))]
fn zeros(alloc: Global, bytes: &[u8]) -> Result<Option<Statement<'_>>, Memory>
    ensures value { IfOk result (λ s. Gives statement_seen s (zeros_of bytes.now)) }
    ensures sound { IfOk result (λ s. IfSome s (λ x. IsSoundStatement (statement_seen x))) }
{
    match number_in(bytes, 0, 65536) {
        Some((count, rest)) if is_over(rest) => {
            let zeros = vec![in alloc; 0u8; count as usize]?;
            Ok(Some(Statement::Bytes(zeros)))
        }
        _ => Ok(None),
    }
}

#[tactic(auto, unfolding(crate::specs::Statement::instruction_of))]
fn instruction_statement<'a>(word: &[u8], bytes: &'a [u8]) -> Option<Statement<'a>>
    ensures value { Gives statement_seen result (instruction_of word.now bytes.now) }
    ensures sound { IfSome result (λ s. IsSoundStatement (statement_seen s)) }
{
    let (code, rest) = instruction(word, bytes)?;
    if is_over(rest) {
        Some(Statement::Instruction(code))
    } else {
        None
    }
}

/// The statement that begins with this word.
#[tactic(auto, unfolding(crate::specs::Statement::statement_by))]
fn statement_from<'a>(
    alloc: Global,
    word: &[u8],
    bytes: &'a [u8],
) -> Result<Option<Statement<'a>>, Memory>
    ensures value { IfOk result (λ s. Gives statement_seen s (statement_by word.now bytes.now)) }
    ensures sound { IfOk result (λ s. IfSome s (λ x. IsSoundStatement (statement_seen x))) }
{
    match word {
        b".text" => Ok(choice(Part::Text, bytes)),
        b".data" => Ok(choice(Part::Data, bytes)),
        b".byte" => numbers(alloc, NumberSize::Byte, bytes),
        b".word" => numbers(alloc, NumberSize::Word, bytes),
        b".zero" => zeros(alloc, bytes),
        _ => Ok(instruction_statement(word, bytes)),
    }
}

/// The statement that bytes are, or `None` where they are no statement.
#[tactic(auto, unfolding(crate::specs::Statement::statement_of))]
pub(crate) fn read_statement(alloc: Global, bytes: &[u8]) -> Result<Option<Statement<'_>>, Memory>
    ensures value { IfOk result (λ s. Gives statement_seen s (statement_of bytes.now)) }
    ensures sound { IfOk result (λ s. IfSome s (λ x. IsSoundStatement (statement_seen x))) }
{
    if is_over(bytes) {
        return Ok(Some(Statement::Empty));
    }
    match word(bytes) {
        Some((word, rest)) => statement_from(alloc, word, rest),
        None => Ok(None),
    }
}
