//! Lines of a text.
ghost use Rattle.std.specs.Prelude.{◌≡◌, ◌<◌, ◌≤◌, ◌==◌, not, IfOk, length, ◌∷◌};
ghost use Rattle.std.specs.List.{prefix_len};
ghost use Rattle.rv32_asm.specs.Reading.{Gives};
ghost use Rattle.rv32_asm.specs.Line.{label_at, is_ascii as ascii, before_comment as front, line_of, lines_of};
ghost use Rattle.rv32_asm.specs.Seen.{line_seen, IsSoundLine};

use crate::reader::{after_mark, name_in};
use crate::statement::{Statement, read_statement};
use odr_list::memory::Memory;
use std::alloc::Global;

/// A label, a statement, both or neither; no statement where the line is no line of the grammar.
#[derive(Debug, Drop)]
pub(crate) struct Line<'a> {
    pub(crate) label: Option<&'a [u8]>,
    pub(crate) statement: Option<Statement<'a>>,
}

/// A name and a colon.
#[tactic(auto, unfolding(crate::specs::Line::label_at))]
fn label(bytes: &[u8]) -> Option<(&[u8], &[u8])>
    ensures { Gives (λ x. (x.0.now, x.1.now)) result (label_at bytes.now) }
{
    let (name, rest) = name_in(bytes)?;
    Some((name, after_mark(rest, b':')?))
}

fn is_ascii(bytes: &[u8]) -> bool
    ensures { result ≡ ascii bytes.now }
{
    bytes.iter().all(|byte| *byte < 128)
}

fn code_len(bytes: &[u8]) -> usize
    ensures count { result ≡ prefix_len (λ b. not (b == 35)) bytes.now }
    ensures within { result ≤ length bytes.now }
{
    bytes.iter().take_while(|byte| **byte != b'#').count()
}

fn before_comment(bytes: &[u8]) -> &[u8]
    ensures { result.now ≡ front bytes.now }
{
    &bytes[..code_len(bytes)]
}

#[tactic(auto, unfolding(crate::specs::Line::line_of))]
pub(crate) fn read_line(alloc: Global, bytes: &[u8]) -> Result<Line<'_>, Memory>
    ensures value { IfOk result (λ line. line_seen line ≡ line_of bytes.now) }
    ensures sound { IfOk result (λ line. IsSoundLine (line_seen line)) }
{
    let code = before_comment(bytes);
    let (label, rest) = match label(code) {
        Some((name, rest)) => (Some(name), rest),
        None => (None, code),
    };
    let statement = if is_ascii(bytes) {
        read_statement(alloc, rest)?
    } else {
        None
    };
    Ok(Line { label, statement })
}

fn line_len(text: &[u8]) -> usize
    ensures count { result ≡ prefix_len (λ b. not (b == 10)) text.now }
    ensures within { result ≤ length text.now }
{
    text.iter().take_while(|byte| **byte != b'\n').count()
}

/// The first line of a text, and what stands behind its line feed.
pub(crate) fn first_line(text: &[u8]) -> (&[u8], &[u8])
    requires { 0 < length text.now }
    ensures lines { lines_of text.now ≡ result.0.now ∷ lines_of result.1.now }
    ensures shorter { length result.1.now < length text.now }
{
    let len = line_len(text);
    let (line, rest) = text.split_at(len);
    match rest {
        [_, after @ ..] => (line, after),
        [] => (line, rest),
    }
}
