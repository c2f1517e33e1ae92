ghost use Rattle.std.specs.Prelude.{◌≡◌, ◌↔◌, IsTrue, Bool, List, ℕ, ◌∷◌, ◌++◌, IfOk, IfSome, IfNone};
ghost use Rattle.cert_text.specs.Text.{literal_text, words_of, mark_of};
ghost use Rattle.cert_text.specs.Grammar.{IsAfter, MayStand, IsFullLine};
ghost use Rattle.cert_text.specs.declared.cert.CertLit.{CertLit};

use crate::cert::{CertLine, CertLit};
use crate::literal::read_literal;
use crate::order::stands_before;
use odr_list::list::List;
use odr_list::memory::Memory;
use sched_text::split::split_once;
use std::alloc::Global;

/// The mark of the first line, and what follows the line.
pub fn read_mark(bytes: &[u8]) -> Option<(bool, &[u8])>
    ensures mark { IfSome result (λ found. bytes.now ≡ mark_of found.0 ++ 10 ∷ found.1.now) }
    ensures none { IfNone result ((whole : Bool) (after : List ℕ) → bytes.now ≡ mark_of whole ++ 10 ∷ after → ⊥) }
{
    if let Some(after) = bytes.strip_prefix(b"whole\n") {
        return Some((true, after));
    }
    let after = bytes.strip_prefix(b"part\n")?;
    Some((false, after))
}

/// Whether a literal stands after the last one, if there is one.
fn stands_after(last: Option<CertLit>, literal: &CertLit) -> bool
    ensures { IsTrue result ↔ IsAfter last literal.now }
{
    match last {
        Some(last) => stands_before(&last, literal),
        None => true,
    }
}

/// The literal that a word says, where it may stand after `last`.
fn next_literal(word: &[u8], last: Option<CertLit>) -> Option<CertLit>
    ensures said { IfSome result (λ literal. MayStand last literal × (word.now ≡ literal_text literal)) }
    ensures none { IfNone result ((literal : CertLit) → MayStand last literal →
        word.now ≡ literal_text literal → ⊥) }
{
    let literal = read_literal(word)?;
    if !stands_after(last, &literal) {
        return None;
    }
    Some(literal)
}

/// The literals of a line without its line feed, if there are some.
fn read_words(alloc: Global, words: &[u8]) -> Result<Option<CertLine>, Memory>
    ensures line { IfOk result (λ found. IfSome found (λ line. IsFullLine line × (words.now ≡ words_of line))) }
    ensures none { IfOk result (λ found. IfNone found ((line : List CertLit) → IsFullLine line →
        words.now ≡ words_of line → ⊥)) }
{
    let mut line = List::new(alloc);
    let mut last = None;
    let mut rest = words;
    while let Some((word, after)) = split_once(rest, b' ') {
        let Some(literal) = next_literal(word, last) else {
            return Ok(None);
        };
        line.push(literal)?;
        last = Some(literal);
        rest = after;
    }
    let Some(literal) = next_literal(rest, last) else {
        return Ok(None);
    };
    line.push(literal)?;
    Ok(Some(line))
}

/// The first line, if it has literals, and what follows it.
pub fn next_line(alloc: Global, rest: &[u8]) -> Result<Option<(CertLine, &[u8])>, Memory>
    ensures line { IfOk result (λ found. IfSome found (λ line. IsFullLine line.0 ×
        (rest.now ≡ words_of line.0 ++ 10 ∷ line.1.now))) }
    ensures none { IfOk result (λ found. IfNone found ((line : List CertLit) (after : List ℕ) → IsFullLine line →
        rest.now ≡ words_of line ++ 10 ∷ after → ⊥)) }
{
    let Some((words, after)) = split_once(rest, b'\n') else {
        return Ok(None);
    };
    let Some(line) = read_words(alloc, words)? else {
        return Ok(None);
    };
    Ok(Some((line, after)))
}
