//! The bytes of the text part.
ghost use Rattle.std.specs.Prelude.{◌≡◌, [], ◌∷◌, map, OnOk};
ghost use Rattle.rv32_decode.specs.Valid.{IsValid};
ghost use Rattle.rv32_asm.specs.Assembly.{entries_code};
ghost use Rattle.rv32_asm.specs.File.{AppendsCode, GivesText};
ghost use Rattle.rv32_asm.specs.Seen.{label_seen, entry_seen, instrs_of, AreValid, IsSoundDraft, items_of};

use crate::draft::Draft;
use crate::elf::put_word;
use crate::fault::AsmFault;
use crate::resolve::{Resolved, resolve};
use odr_list::memory::Memory;
use rv32_decode::encode;
use rv32_decode::instr::Instr;
use std::alloc::Global;

fn push_instr(text: &mut Vec<u8>, i: &Instr) -> Result<(), Memory>
    requires { IsValid i.now }
    ensures { OnOk result (AppendsCode (i.now ∷ []) text.old.items text.new.items) }
{
    let word = encode(i);
    put_word(text, word)?;
    Ok(())
}

fn push_resolved(text: &mut Vec<u8>, resolved: Resolved) -> Result<(), Memory>
    requires { AreValid resolved }
    ensures { OnOk result (AppendsCode (instrs_of resolved) text.old.items text.new.items) }
{
    match resolved {
        Resolved::One(i) => push_instr(text, &i),
        Resolved::Two(first, second) => {
            push_instr(text, &first)?;
            push_instr(text, &second)
        }
    }
}

/// The text part of a draft, or the fault of its least line at fault.
pub(crate) fn text_part(alloc: Global, draft: &Draft<'_>) -> Result<Vec<u8>, AsmFault>
    requires { IsSoundDraft draft.now }
    ensures { GivesText (items_of result) (entries_code (map label_seen draft.now.labels.items) (map entry_seen draft.now.entries.items)) }
{
    let mut text = Vec::new(alloc);
    for entry in draft.entries.as_slice() {
        let resolved = resolve(draft.labels.as_slice(), entry)?;
        push_resolved(&mut text, resolved)?;
    }
    Ok(text)
}
