//! What the lines of a text come to.
ghost use Rattle.std.specs.Prelude.{◌≡◌, ◌<◌, ◌≤◌, ◌+◌, ◌^◌, All, IfOk, OnOk, map, Some, bytes_eq, ◌∷◌, ◌++◌, [], length, IfSome, option_map};
ghost use Rattle.rv32_asm.specs.Seen.{label_seen, code_of, IsSound, draft_seen, IsSoundDraft, IsSoundLine, IsSoundStatement, line_seen, statement_seen};
ghost use Rattle.std.specs.List.{list_any};
ghost use Rattle.rv32_asm.specs.Statement.{Bytes, Instruction};
ghost use Rattle.rv32_asm.specs.Draft.{start, place_of, is_defined as defined, is_second as second, in_part, settled as settled_of, labels_with, size_of, with_entry, with_statement, after_line, draft_of};

use crate::code::Code;
use crate::line::{Line, first_line, read_line};
use crate::statement::{Part, Statement};
use odr_list::memory::Memory;
use std::alloc::Global;

/// The most bytes that a part may have.
pub(crate) const MOST_BYTES: u64 = 65_536;

/// A name and its address.
#[derive(Clone, Copy, Debug)]
pub(crate) struct Label<'a> {
    pub(crate) name: &'a [u8],
    pub(crate) address: u64,
}

/// An instruction with its line and address, or a line at fault.
#[derive(Clone, Copy, Debug)]
pub(crate) struct Entry<'a> {
    pub(crate) line: u64,
    pub(crate) address: u64,
    pub(crate) code: Option<Code<'a>>,
}

/// What the lines so far come to. Past the limit the bytes of the data part are only counted.
#[derive(Debug, Drop)]
pub(crate) struct Draft<'a> {
    pub(crate) lines: u64,
    pub(crate) part: Part,
    pub(crate) labels: Vec<Label<'a>>,
    pub(crate) entries: Vec<Entry<'a>>,
    pub(crate) text_len: u64,
    pub(crate) stored_len: u64,
    pub(crate) stored: Vec<u8>,
}

/// The sum of two lengths; one that no memory holds is answered as want of it.
fn longer(len: u64, more: u64) -> Result<u64, Memory>
    ensures value { IfOk result (λ sum. sum ≡ len + more) }
    ensures fits { IfOk result (λ sum. sum < 2 ^ 62) }
{
    match len.checked_add(more) {
        Some(sum) if sum < 1 << 62 => Ok(sum),
        _ => Err(Memory),
    }
}

fn has_name(labels: &[Label<'_>], name: &[u8]) -> bool
    ensures { result ≡ list_any (λ l. bytes_eq l.name.now name.now) labels.now }
{
    labels.iter().any(|label| label.name == name)
}

/// Whether there is a label of this name.
fn is_defined(labels: &[Label<'_>], name: &[u8]) -> bool
    ensures { result ≡ defined (map label_seen labels.now) name.now }
{
    has_name(labels, name)
}

impl<'a> Draft<'a> {
    pub(crate) fn new(alloc: Global) -> Draft<'a>
        ensures value { draft_seen result ≡ start }
        ensures sound { IsSoundDraft result }
    {
        Draft {
            lines: 0,
            part: Part::Text,
            labels: Vec::new(alloc),
            entries: Vec::new(alloc),
            text_len: 0,
            stored_len: 0,
            stored: Vec::new(alloc),
        }
    }

    /// The address of the next byte of the chosen part.
    fn place(&self) -> u64
        requires { IsSoundDraft self.now }
        ensures value { result ≡ place_of (draft_seen self.now) }
        ensures fits { result < 2 ^ 63 }
    {
        match self.part {
            Part::Text => 0x10000 + self.text_len,
            Part::Data => 0x100000 + self.stored_len,
        }
    }

    fn push_entry(&mut self, code: Option<Code<'a>>) -> Result<(), Memory>
        requires draft { IsSoundDraft self.old }
        requires code { IfSome code (λ c. IsSound (code_of c)) }
        ensures value { OnOk result (draft_seen self.new ≡ with_entry (draft_seen self.old) (option_map code_of code.entry)) }
        ensures sound { OnOk result (IsSoundDraft self.new) }
    {
        let entry = Entry {
            line: self.lines,
            address: self.place(),
            code,
        };
        self.entries.push(entry)?;
        Ok(())
    }

    /// Appends bytes to the data part; past the limit they are only counted.
    fn store(&mut self, bytes: &[u8]) -> Result<(), Memory>
        requires { IsSoundDraft self.old }
        ensures value { OnOk result (draft_seen self.new ≡ with_statement (draft_seen self.old) (Some (Bytes bytes.now))) }
        ensures sound { OnOk result (IsSoundDraft self.new) }
    {
        let len = longer(self.stored_len, bytes.len() as u64)?;
        if len <= MOST_BYTES {
            self.stored.extend_from_slice(bytes)?;
        }
        self.stored_len = len;
        Ok(())
    }

    fn add_instruction(&mut self, code: Code<'a>) -> Result<(), Memory>
        requires draft { IsSoundDraft self.old }
        requires code { IsSound (code_of code) }
        ensures value { OnOk result (draft_seen self.new ≡ with_statement (draft_seen self.old) (Some (Instruction (code_of code.entry)))) }
        ensures sound { OnOk result (IsSoundDraft self.new) }
    {
        let len = longer(self.text_len, size(&code))?;
        self.push_entry(Some(code))?;
        self.text_len = len;
        Ok(())
    }

    fn add_label(&mut self, label: Option<&'a [u8]>) -> Result<(), Memory>
        requires { IsSoundDraft self.old }
        ensures value { OnOk result (draft_seen self.new ≡ record (draft_seen self.old) { labels = labels_with (draft_seen self.old) (option_map (λ l. l.now) label.entry) }) }
        ensures sound { OnOk result (IsSoundDraft self.new) }
    {
        if let Some(name) = label {
            if !is_defined(self.labels.as_slice(), name) {
                let address = self.place();
                self.labels.push(Label { name, address })?;
            }
        }
        Ok(())
    }

    /// Whether a name is defined already.
    fn is_second(&self, label: Option<&[u8]>) -> bool
        ensures { result ≡ second (draft_seen self.now).labels (option_map (λ l. l.now) label.entry) }
    {
        match label {
            Some(name) => is_defined(self.labels.as_slice(), name),
            None => false,
        }
    }

    /// Takes a statement; one that stands in the wrong part is a fault of its line.
    fn add_statement(&mut self, statement: Statement<'a>) -> Result<(), Memory>
        requires draft { IsSoundDraft self.old }
        requires statement { IsSoundStatement (statement_seen statement) }
        ensures value { OnOk result (draft_seen self.new ≡ with_statement (draft_seen self.old) (in_part (draft_seen self.old).part (Some (statement_seen statement.entry)))) }
        ensures sound { OnOk result (IsSoundDraft self.new) }
    {
        match (self.part, statement) {
            (_, Statement::Empty) => Ok(()),
            (_, Statement::Choose(part)) => {
                self.part = part;
                Ok(())
            }
            (Part::Data, Statement::Bytes(bytes)) => self.store(bytes.as_slice()),
            (Part::Text, Statement::Instruction(code)) => self.add_instruction(code),
            _ => self.push_entry(None),
        }
    }

    /// Takes the next line.
    #[tactic(auto, unfolding(crate::specs::Draft::after_line))]
    pub(crate) fn take_line(&mut self, line: Line<'a>) -> Result<(), Memory>
        requires lines { self.old.lines + 1 < 2 ^ 64 }
        requires draft { IsSoundDraft self.old }
        requires line { IsSoundLine (line_seen line) }
        ensures value { OnOk result (draft_seen self.new ≡ after_line (draft_seen self.old) (line_seen line.entry)) }
        ensures sound { OnOk result (IsSoundDraft self.new) }
    {
        let is_second = self.is_second(line.label);
        self.lines += 1;
        self.add_label(line.label)?;
        match line.statement {
            Some(statement) if !is_second => self.add_statement(statement),
            _ => self.push_entry(None),
        }
    }
}

/// How many bytes the instruction has: `la` is two instructions.
fn size(code: &Code<'_>) -> u64
    ensures value { result ≡ size_of (code_of code.now) }
    ensures small { result ≤ 8 }
{
    match code {
        Code::AddressOf { .. } => 8,
        _ => 4,
    }
}

/// What the lines of a text come to.
#[tactic(auto, unfolding(crate::specs::Draft::draft_of))]
pub(crate) fn read_draft(alloc: Global, text: &[u8]) -> Result<Draft<'_>, Memory>
    ensures value { IfOk result (λ draft. draft_seen draft ≡ draft_of text.now) }
    ensures sound { IfOk result IsSoundDraft }
    ensures lines { IfOk result (λ draft. draft.lines ≤ length text.now) }
{
    let mut draft = Draft::new(alloc);
    let mut rest = text;
    while !rest.is_empty() {
        let (line, after) = first_line(rest);
        draft.take_line(read_line(alloc, line)?)?;
        rest = after;
    }
    Ok(draft)
}
