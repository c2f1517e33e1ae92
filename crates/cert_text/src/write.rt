ghost use Rattle.std.specs.Prelude.{◌≡◌, ◌++◌, ◌∷◌, [], OnOk, IfOk};
ghost use Rattle.std.specs.List.{flat_map};
ghost use Rattle.cert_text.specs.Text.{place_text, literal_text, spaced, words_of, line_of, mark_of, cert_text};
ghost use Rattle.cert_text.specs.declared.cert.CertLit.TheVariants.{Var};

use crate::cert::{Cert, CertLine, CertLit};
use odr_list::memory::Memory;
use std::alloc::Global;

/// Appends a thread and a step.
fn push_place(alloc: Global, text: &mut Vec<u8>, thread: u8, step: u32) -> Result<(), Memory>
    ensures { OnOk result (text.new.items ≡ text.old.items ++ place_text thread step) }
{
    let place = format!(in alloc; "{}.{}", thread, step)?;
    text.extend_from_slice(place.as_bytes())?;
    Ok(())
}

/// Appends a variable, or its opposite.
fn push_variable(
    alloc: Global,
    text: &mut Vec<u8>,
    number: u64,
    positive: bool,
) -> Result<(), Memory>
    ensures { OnOk result (text.new.items ≡ text.old.items ++ literal_text (Var number positive)) }
{
    if positive {
        let variable = format!(in alloc; "x{}", number)?;
        text.extend_from_slice(variable.as_bytes())?;
        return Ok(());
    }
    let opposite = format!(in alloc; "-x{}", number)?;
    text.extend_from_slice(opposite.as_bytes())?;
    Ok(())
}

/// Appends a literal.
fn push_literal(alloc: Global, text: &mut Vec<u8>, literal: CertLit) -> Result<(), Memory>
    ensures { OnOk result (text.new.items ≡ text.old.items ++ literal_text literal) }
{
    match literal {
        CertLit::Before {
            first_thread,
            first_step,
            second_thread,
            second_step,
        } => {
            push_place(alloc, text, first_thread, first_step)?;
            text.push(b'<')?;
            push_place(alloc, text, second_thread, second_step)?;
        }
        CertLit::Var { number, positive } => push_variable(alloc, text, number, positive)?,
    }
    Ok(())
}

/// Appends a literal after a space.
fn push_spaced(alloc: Global, text: &mut Vec<u8>, literal: CertLit) -> Result<(), Memory>
    ensures { OnOk result (text.new.items ≡ text.old.items ++ spaced literal) }
{
    text.push(b' ')?;
    push_literal(alloc, text, literal)
}

/// Appends literals, each after a space.
fn push_others(alloc: Global, text: &mut Vec<u8>, literals: &[CertLit]) -> Result<(), Memory>
    ensures { OnOk result (text.new.items ≡ text.old.items ++ flat_map spaced literals.now) }
{
    for literal in literals {
        push_spaced(alloc, text, *literal)?;
    }
    Ok(())
}

/// Appends the literals of a line.
fn push_words(alloc: Global, text: &mut Vec<u8>, line: &[CertLit]) -> Result<(), Memory>
    ensures { OnOk result (text.new.items ≡ text.old.items ++ words_of line.now) }
{
    if let Some((first, others)) = line.split_first() {
        push_literal(alloc, text, *first)?;
        push_others(alloc, text, others)?;
    }
    Ok(())
}

/// Appends a line with its line feed.
fn push_line(alloc: Global, text: &mut Vec<u8>, line: &[CertLit]) -> Result<(), Memory>
    ensures { OnOk result (text.new.items ≡ text.old.items ++ line_of line.now) }
{
    push_words(alloc, text, line)?;
    text.push(b'\n')?;
    Ok(())
}

/// Appends lines, each with its line feed.
fn push_lines(alloc: Global, text: &mut Vec<u8>, lines: &[CertLine]) -> Result<(), Memory>
    ensures { OnOk result (text.new.items ≡ text.old.items ++ flat_map line_of lines.now) }
{
    for line in lines {
        push_line(alloc, text, line.as_slice())?;
    }
    Ok(())
}

/// The one text of a certificate: a line for the mark, and one for each of its lines.
pub fn write_cert(alloc: Global, cert: &Cert) -> Result<Vec<u8>, Memory>
    ensures { IfOk result (λ text. text.items ≡ cert_text cert.now) }
{
    let mark = if cert.whole { "whole\n" } else { "part\n" };
    let mut text = Vec::from_slice(alloc, mark.as_bytes())?;
    push_lines(alloc, &mut text, cert.lines.as_slice())?;
    Ok(text)
}
