ghost use Rattle.std.specs.Prelude.{◌≡◌, ◌<◌, [], true, is_some, IfOk, IfSome, OnSome};
ghost use Rattle.elf_image.specs.Memory.{Stands, all_writable, writes_of, bytes_of};
ghost use Rattle.guest_mem.specs.Blocks.{cells_of};
ghost use Rattle.guest_mem.specs.Width.{size_of};
ghost use Rattle.rv_model.specs.Values.{load_size, store_size};
ghost use Rattle.rv_model.specs.Step.{reach_of};
ghost use Rattle.rv_model.specs.Instruction.{access_of, may_amo, word_in, act};
ghost use Rattle.rv_model.specs.declared.hearing.Heard.{Heard};
ghost use Rattle.guest_machine.specs.Notes.{IsPlain};
ghost use Rattle.guest_machine.specs.Ran.{Ran};

use crate::alone::compute;
use crate::note::Note;
use guest_mem::guest_memory::GuestMem;
use guest_mem::width::Width;
use odr_log::log::Cause;
use rv_model::state::Local;
use rv_model::values::{amo, extend, offset_by};
use rv32_decode::instr::{AmoOp, Instr, LoadOp, StoreOp};

fn load_width(op: LoadOp) -> Width
    ensures { size_of result ≡ load_size op }
{
    match op {
        LoadOp::Lb | LoadOp::Lbu => Width::One,
        LoadOp::Lh | LoadOp::Lhu => Width::Two,
        LoadOp::Lw => Width::Four,
    }
}

fn store_width(op: StoreOp) -> Width
    ensures { size_of result ≡ store_size op }
{
    match op {
        StoreOp::Sb => Width::One,
        StoreOp::Sh => Width::Two,
        StoreOp::Sw => Width::Four,
    }
}

/// Does a load.
#[tactic(auto, unfolding(rv_model::specs::Instruction::act, rv_model::specs::Instruction::access_of))]
pub fn load(
    local: &mut Local,
    memory: &GuestMem,
    op: LoadOp,
    rd: u8,
    rs1: u8,
    offset: i32,
) -> Result<Note, Cause>
    requires rd { rd < 32 }
    requires rs1 { rs1 < 32 }
    ensures ran { (heard : Heard) → heard.reach ≡ reach_of (cells_of memory.now) (access_of local.old (Instr.Load op rd rs1 offset))
        → Ran (cells_of memory.now) local.old (act local.old (Instr.Load op rd rs1 offset) heard) result local.new (cells_of memory.now) }
    ensures plain { IfOk result IsPlain }
{
    let address = offset_by(local.register(rs1), offset);
    match memory.get(address, load_width(op)) {
        None => Err(Cause::LoadFault),
        Some(value) => {
            compute(local, rd, extend(op, value));
            Ok(Note::Nothing)
        }
    }
}

/// Does a store.
#[tactic(auto, unfolding(rv_model::specs::Instruction::act, rv_model::specs::Instruction::access_of))]
pub fn store(
    local: &mut Local,
    memory: &mut GuestMem,
    op: StoreOp,
    rs1: u8,
    rs2: u8,
    offset: i32,
) -> Result<Note, Cause>
    requires rs1 { rs1 < 32 }
    requires rs2 { rs2 < 32 }
    ensures ran { (heard : Heard) → heard.reach ≡ reach_of (cells_of memory.old) (access_of local.old (Instr.Store op rs1 rs2 offset))
        → Ran (cells_of memory.old) local.old (act local.old (Instr.Store op rs1 rs2 offset) heard) result local.new (cells_of memory.new) }
    ensures plain { IfOk result IsPlain }
{
    let address = offset_by(local.register(rs1), offset);
    let value = local.register(rs2);
    if !memory.put(address, store_width(op), value) {
        return Err(Cause::StoreFault);
    }
    local.pc = local.next_pc();
    Ok(Note::Nothing)
}

/// The word at an address that LR, SC and AMO may use.
fn word_at(memory: &GuestMem, address: u32) -> Option<u32>
    ensures usable { is_some result ≡ may_amo address (reach_of (cells_of memory.now) (record { address = address; count = 4 })) }
    ensures word { IfSome result (λ word. word ≡ word_in (reach_of (cells_of memory.now) (record { address = address; count = 4 }))) }
    ensures writable { OnSome result (all_writable (cells_of memory.now) address 4 ≡ true) }
{
    if !memory.can_amo(address) {
        return None;
    }
    memory.get(address, Width::Four)
}

/// Does a load-reserved.
#[tactic(auto, unfolding(rv_model::specs::Instruction::act, rv_model::specs::Instruction::access_of))]
pub fn load_reserved(
    local: &mut Local,
    memory: &GuestMem,
    rd: u8,
    rs1: u8,
    aq: bool,
    rl: bool,
) -> Result<Note, Cause>
    requires rd { rd < 32 }
    requires rs1 { rs1 < 32 }
    ensures ran { (heard : Heard) → heard.reach ≡ reach_of (cells_of memory.now) (access_of local.old (Instr.LoadReserved rd rs1 aq rl))
        → Ran (cells_of memory.now) local.old (act local.old (Instr.LoadReserved rd rs1 aq rl) heard) result local.new (cells_of memory.now) }
    ensures plain { IfOk result IsPlain }
{
    let _ = (aq, rl);
    match word_at(memory, local.register(rs1)) {
        None => Err(Cause::AmoFault),
        Some(word) => {
            compute(local, rd, word);
            Ok(Note::Nothing)
        }
    }
}

/// Stores a word at an address that may be written.
fn put_word(memory: &mut GuestMem, address: u32, word: u32)
    requires { all_writable (cells_of memory.old) address 4 ≡ true }
    ensures { Stands (cells_of memory.old) (writes_of address (bytes_of 4 word) []) (cells_of memory.new) }
{
    let _stored = memory.put(address, Width::Four, word);
}

/// Does a store-conditional, which stores only where it wins.
#[tactic(auto, unfolding(rv_model::specs::Instruction::act, rv_model::specs::Instruction::access_of))]
pub fn store_conditional(
    local: &mut Local,
    memory: &mut GuestMem,
    won: bool,
    rd: u8,
    rs1: u8,
    rs2: u8,
    aq: bool,
    rl: bool,
) -> Result<Note, Cause>
    requires rd { rd < 32 }
    requires rs1 { rs1 < 32 }
    requires rs2 { rs2 < 32 }
    ensures ran { (heard : Heard) → heard.reach ≡ reach_of (cells_of memory.old) (access_of local.old (Instr.StoreConditional rd rs1 rs2 aq rl)) → heard.won ≡ won
        → Ran (cells_of memory.old) local.old (act local.old (Instr.StoreConditional rd rs1 rs2 aq rl) heard) result local.new (cells_of memory.new) }
    ensures plain { IfOk result IsPlain }
{
    let _ = (aq, rl);
    let address = local.register(rs1);
    let word = local.register(rs2);
    if word_at(memory, address).is_none() {
        return Err(Cause::AmoFault);
    }
    if !won {
        compute(local, rd, 1);
        return Ok(Note::Nothing);
    }
    put_word(memory, address, word);
    compute(local, rd, 0);
    Ok(Note::Nothing)
}

/// Does an atomic memory operation.
#[tactic(auto, unfolding(rv_model::specs::Instruction::act, rv_model::specs::Instruction::access_of))]
pub fn atomic(
    local: &mut Local,
    memory: &mut GuestMem,
    op: AmoOp,
    rd: u8,
    rs1: u8,
    rs2: u8,
    aq: bool,
    rl: bool,
) -> Result<Note, Cause>
    requires rd { rd < 32 }
    requires rs1 { rs1 < 32 }
    requires rs2 { rs2 < 32 }
    ensures ran { (heard : Heard) → heard.reach ≡ reach_of (cells_of memory.old) (access_of local.old (Instr.Amo op rd rs1 rs2 aq rl))
        → Ran (cells_of memory.old) local.old (act local.old (Instr.Amo op rd rs1 rs2 aq rl) heard) result local.new (cells_of memory.new) }
    ensures plain { IfOk result IsPlain }
{
    let _ = (aq, rl);
    let address = local.register(rs1);
    let operand = local.register(rs2);
    match word_at(memory, address) {
        None => Err(Cause::AmoFault),
        Some(old) => {
            put_word(memory, address, amo(op, old, operand));
            compute(local, rd, old);
            Ok(Note::Nothing)
        }
    }
}
