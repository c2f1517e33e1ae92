ghost use Rattle.std.specs.Prelude.{◌≡◌, ◌≤◌, ◌<◌, ◌^◌, ◌*◌, ◌/◌, [], length, IfOk, Some, None, if◌then◌else◌};
ghost use Rattle.elf_image.specs.Memory.{writes_of, bytes_of};
ghost use Rattle.rv32_decode.specs.Valid.{IsValid};
ghost use Rattle.rv_model.specs.Values.{store_size, load_size, extended};
ghost use Rattle.plain_machine.specs.Short.{IsShort};
ghost use Rattle.plain_machine.specs.Met.{HasCount, IsMet, word_bytes};
ghost use Rattle.rv_model.specs.Calls.{kind_at, record_of};
ghost use Rattle.rv_model.specs.declared.hearing.Heard.{Heard};
ghost use Rattle.rv_model.specs.Instruction.{IsAlone, IsAtomic, no_access, buffer_of, access_of, is_aligned, may_amo, word_in, computes, jumps, branches, loads, stores, atomically, call_writes, calls_out, act, act_at, access_at, asked_by, asked_at, conditional_of, conditional_at, wins, reserving, reserving_at};

use crate::calls;
use crate::memory::number_of;
use elf_image::write::Write;
use odr_list::memory::Memory;
use odr_log::log::{Call, Cause};
use rv_model::hearing::{Access, Asked, Heard, Outcome, Reach};
use rv_model::state::{Local, Note};
use rv_model::values::{alu, amo, extend, imm_alu, load_size, offset_by, store_size, taken};
use rv_model::writes::Writes;
use rv32_decode::instr::{Instr, LoadOp, StoreOp};
use std::alloc::Global;

fn no_access() -> Access
    ensures { result ≡ no_access }
{
    Access {
        address: 0,
        count: 0,
    }
}

/// The buffer of a write or a read call that is not too long.
fn buffer_of(local: &Local) -> Access
    ensures { result ≡ buffer_of local.now }
{
    let number = local.register(17);
    let count = local.register(11);
    if (number == 8 || number == 9) && count <= 256 {
        return Access {
            address: local.register(10),
            count,
        };
    }
    no_access()
}

/// The bytes that an instruction accesses.
#[tactic(auto, unfolding(rv_model::specs::Instruction::access_of))]
pub fn access_of(local: &Local, instr: &Instr) -> Access
    requires { IsValid instr.now }
    ensures { result ≡ access_of local.now instr.now }
{
    match *instr {
        Instr::Load {
            op,
            rs1,
            offset,
            ..
        } => Access {
            address: offset_by(local.register(rs1), offset),
            count: load_size(op),
        },
        Instr::Store {
            op,
            rs1,
            offset,
            ..
        } => Access {
            address: offset_by(local.register(rs1), offset),
            count: store_size(op),
        },
        Instr::LoadReserved { rs1, .. }
        | Instr::StoreConditional { rs1, .. }
        | Instr::Amo { rs1, .. } => Access {
            address: local.register(rs1),
            count: 4,
        },
        Instr::Ecall => buffer_of(local),
        _ => no_access(),
    }
}

/// What a call asks of the shared state, none for another instruction.
#[tactic(auto, unfolding(rv_model::specs::Instruction::asked_by))]
pub fn asked_by(local: &Local, instr: &Instr, reach: &Reach) -> Option<Asked>
    ensures { result ≡ asked_by local.now instr.now reach.now }
{
    match instr {
        Instr::Ecall => calls::asked_at(local, reach),
        _ => None,
    }
}

/// The address of a store-conditional.
#[tactic(auto, unfolding(rv_model::specs::Instruction::conditional_of))]
pub fn conditional_of(local: &Local, instr: &Instr) -> Option<u32>
    requires { IsValid instr.now }
    ensures { result ≡ conditional_of local.now instr.now }
{
    match *instr {
        Instr::StoreConditional { rs1, .. } => Some(local.register(rs1)),
        _ => None,
    }
}

/// Whether a store-conditional at this address wins under this reservation.
pub fn wins(conditional: Option<u32>, reservation: Option<u32>) -> bool
    ensures { result ≡ wins conditional reservation }
{
    match (conditional, reservation) {
        (Some(address), Some(reserved)) => reserved == address,
        _ => false,
    }
}

/// The thread's own reservation after an instruction.
#[tactic(auto, unfolding(rv_model::specs::Instruction::reserving))]
pub fn reserving(local: &Local, instr: &Instr, reservation: Option<u32>) -> Option<u32>
    requires { IsValid instr.now }
    ensures { result ≡ reserving local.now instr.now reservation }
{
    match *instr {
        Instr::LoadReserved { rs1, .. } => Some(local.register(rs1)),
        Instr::StoreConditional { .. } => None,
        _ => reservation,
    }
}

/// The writes of an access, the byte at the lowest address first.
fn writes_at(alloc: Global, address: u32, bytes: &[u8]) -> Result<Writes, Memory>
    ensures { IfOk result (λ writes. writes ≡ writes_of address bytes.now []) }
{
    let mut writes = Writes::new(alloc);
    let mut at = address;
    for byte in bytes {
        writes.push(Write {
            address: at,
            byte: *byte,
        })?;
        at = at.wrapping_add(1);
    }
    Ok(writes)
}

/// The writes of the low bytes of a word.
fn writes_of_word(alloc: Global, address: u32, op: StoreOp, value: u32) -> Result<Writes, Memory>
    ensures { IfOk result (λ writes. writes ≡ writes_of address (bytes_of (store_size op) value) []) }
{
    let [a, b, c, d] = value.to_le_bytes();
    match op {
        StoreOp::Sb => writes_at(alloc, address, &[a]),
        StoreOp::Sh => writes_at(alloc, address, &[a, b]),
        StoreOp::Sw => writes_at(alloc, address, &[a, b, c, d]),
    }
}

fn computes(alloc: Global, local: Local, rd: u8, value: u32) -> Outcome
    requires { rd < 32 }
    ensures { result ≡ computes local rd value }
{
    Outcome::Goes {
        local: local.with_register(rd, value).onward(),
        writes: Writes::new(alloc),
        note: Note::Nothing,
    }
}

fn jumps(alloc: Global, local: Local, rd: u8, target: u32, note: Note) -> Outcome
    requires { rd < 32 }
    ensures { result ≡ jumps local rd target note }
{
    if target % 4 != 0 {
        return Outcome::Faults(Cause::Misaligned);
    }
    let next = local.next_pc();
    Outcome::Goes {
        local: local.with_register(rd, next).gone_to(target),
        writes: Writes::new(alloc),
        note,
    }
}

fn branches(alloc: Global, local: Local, taken: bool, target: u32) -> Outcome
    ensures { result ≡ branches local taken target }
{
    if taken && target % 4 != 0 {
        return Outcome::Faults(Cause::Misaligned);
    }
    Outcome::Goes {
        local: if taken {
            local.gone_to(target)
        } else {
            local.onward()
        },
        writes: Writes::new(alloc),
        note: Note::Branch(taken),
    }
}

fn loads(alloc: Global, local: Local, op: LoadOp, rd: u8, reach: &Reach) -> Outcome
    requires rd { rd < 32 }
    requires count { HasCount (load_size op) reach.now }
    ensures { result ≡ loads local rd (extended op) reach.now.bytes }
{
    match &reach.bytes {
        None => Outcome::Faults(Cause::LoadFault),
        Some(bytes) => computes(alloc, local, rd, extend(op, number_of(bytes.as_slice()))),
    }
}

fn stores(
    alloc: Global,
    local: Local,
    op: StoreOp,
    address: u32,
    value: u32,
    writable: bool,
) -> Result<Outcome, Memory>
    ensures { IfOk result (λ outcome. outcome ≡ stores local address (bytes_of (store_size op) value) writable) }
{
    if !writable {
        return Ok(Outcome::Faults(Cause::StoreFault));
    }
    let writes = writes_of_word(alloc, address, op, value)?;
    Ok(Outcome::Goes {
        local: local.onward(),
        writes,
        note: Note::Nothing,
    })
}

/// The number that the bytes of a word spell, 0 where they may not be read.
fn word_in(reach: &Reach) -> u32
    requires { HasCount 4 reach.now }
    ensures { result ≡ word_in reach.now }
{
    match &reach.bytes {
        None => 0,
        Some(bytes) => number_of(bytes.as_slice()),
    }
}

fn may_amo(address: u32, reach: &Reach) -> bool
    ensures { result ≡ may_amo address reach.now }
{
    address % 4 == 0 && (reach.bytes.is_some() && reach.writable)
}

/// LR, SC and AMO: the value of rd, and the word that is stored if one is.
fn atomically(
    alloc: Global,
    local: Local,
    rd: u8,
    address: u32,
    reach: &Reach,
    value: u32,
    stored: Option<u32>,
) -> Result<Outcome, Memory>
    requires { rd < 32 }
    ensures { IfOk result (λ outcome. outcome ≡ atomically local rd address reach.now value (word_bytes stored)) }
{
    if !may_amo(address, reach) {
        return Ok(Outcome::Faults(Cause::AmoFault));
    }
    let writes = match stored {
        None => Writes::new(alloc),
        Some(word) => writes_of_word(alloc, address, StoreOp::Sw, word)?,
    };
    Ok(Outcome::Goes {
        local: local.with_register(rd, value).onward(),
        writes,
        note: Note::Nothing,
    })
}

fn call_writes(alloc: Global, address: u32, call: &Call) -> Result<Writes, Memory>
    ensures { IfOk result (λ writes. writes ≡ call_writes address call.now) }
{
    match call {
        Call::Read { bytes, .. } => writes_at(alloc, address, bytes.as_slice()),
        _ => Ok(Writes::new(alloc)),
    }
}

fn calls_out(
    alloc: Global,
    local: Local,
    thread: u8,
    joined: u32,
    call: Call,
) -> Result<Outcome, Memory>
    requires { IsShort call }
    ensures { IfOk result (λ outcome. outcome ≡ calls_out local thread joined call) }
{
    let a0 = local.register(10);
    let answer = calls::answer_of(thread, joined, &call, a0);
    let writes = call_writes(alloc, a0, &call)?;
    Ok(Outcome::Goes {
        local: local.with_register(10, answer).onward(),
        writes,
        note: Note::Called(call),
    })
}

/// A call with the reply that it heard.
fn call_of(local: &Local, heard: Heard) -> Call
    requires { IsMet local.now Instr.Ecall heard }
    ensures value { result ≡ record_of (kind_at local.now heard.reach) heard.reply }
    ensures short { IsShort result }
{
    let kind = calls::kind_at(local, heard.reach);
    calls::record_of(kind, heard.reply)
}

/// What an instruction does that neither accesses memory nor calls.
#[tactic(auto, unfolding(rv_model::specs::Instruction::act))]
fn act_alone(alloc: Global, local: Local, instr: &Instr) -> Outcome
    requires valid { IsValid instr.now }
    requires alone { IsAlone instr.now }
    ensures { (heard : Heard) → result ≡ act local instr.now heard }
{
    match *instr {
        Instr::Lui { rd, imm } => computes(alloc, local, rd, imm),
        Instr::Auipc { rd, imm } => computes(alloc, local, rd, local.pc.wrapping_add(imm)),
        Instr::Jal { rd, offset } => {
            jumps(alloc, local, rd, offset_by(local.pc, offset), Note::Nothing)
        }
        Instr::Jalr { rd, rs1, offset } => {
            let target = even(offset_by(local.register(rs1), offset));
            jumps(alloc, local, rd, target, Note::Jump(target))
        }
        Instr::Branch {
            op,
            rs1,
            rs2,
            offset,
        } => {
            let taken = taken(op, local.register(rs1), local.register(rs2));
            branches(alloc, local, taken, offset_by(local.pc, offset))
        }
        Instr::Imm { op, rd, rs1, imm } => {
            computes(alloc, local, rd, imm_alu(op, local.register(rs1), imm))
        }
        Instr::Op { op, rd, rs1, rs2 } => {
            computes(
                alloc,
                local,
                rd,
                alu(op, local.register(rs1), local.register(rs2)),
            )
        }
        Instr::Fence { .. } => Outcome::Goes {
            local: local.onward(),
            writes: Writes::new(alloc),
            note: Note::Nothing,
        },
        Instr::Ebreak => Outcome::Faults(Cause::Breakpoint),
        _ => unreachable!(),
    }
}

/// An address with bit 0 cleared.
fn even(address: u32) -> u32
    ensures { result ≡ address / 2 * 2 }
{
    address / 2 * 2
}

/// What an instruction of the extension A does with what it hears.
#[tactic(auto, unfolding(rv_model::specs::Instruction::act))]
fn act_atomically(
    alloc: Global,
    local: Local,
    instr: &Instr,
    heard: &Heard,
) -> Result<Outcome, Memory>
    requires valid { IsValid instr.now }
    requires atomic { IsAtomic instr.now }
    requires count { HasCount 4 heard.now.reach }
    ensures { IfOk result (λ outcome. outcome ≡ act local instr.now heard.now) }
{
    match *instr {
        Instr::LoadReserved { rd, rs1, .. } => {
            let word = word_in(&heard.reach);
            atomically(
                alloc,
                local,
                rd,
                local.register(rs1),
                &heard.reach,
                word,
                None,
            )
        }
        Instr::StoreConditional { rd, rs1, rs2, .. } => {
            let (value, stored) = conditionally(heard.won, local.register(rs2));
            atomically(
                alloc,
                local,
                rd,
                local.register(rs1),
                &heard.reach,
                value,
                stored,
            )
        }
        Instr::Amo {
            op,
            rd,
            rs1,
            rs2,
            ..
        } => {
            let old = word_in(&heard.reach);
            let stored = Some(amo(op, old, local.register(rs2)));
            atomically(
                alloc,
                local,
                rd,
                local.register(rs1),
                &heard.reach,
                old,
                stored,
            )
        }
        _ => unreachable!(),
    }
}

/// What a store-conditional writes to rd, and the word that it stores if it wins.
fn conditionally(won: bool, word: u32) -> (u32, Option<u32>)
    ensures { result ≡ (if won then (0, Some word) else (1, None)) }
{
    if won { (0, Some(word)) } else { (1, None) }
}

/// What an instruction does with what it hears.
#[tactic(auto, unfolding(rv_model::specs::Instruction::act, rv_model::specs::Instruction::access_of))]
pub fn act(alloc: Global, local: Local, instr: &Instr, heard: Heard) -> Result<Outcome, Memory>
    requires valid { IsValid instr.now }
    requires met { IsMet local instr.now heard }
    ensures { IfOk result (λ outcome. outcome ≡ act local instr.now heard) }
{
    match *instr {
        Instr::Ecall => {
            let thread = heard.thread;
            let joined = heard.joined;
            let call = call_of(&local, heard);
            calls_out(alloc, local, thread, joined, call)
        }
        Instr::LoadReserved { .. } | Instr::StoreConditional { .. } | Instr::Amo { .. } => {
            act_atomically(alloc, local, instr, &heard)
        }
        Instr::Load { op, rd, .. } => Ok(loads(alloc, local, op, rd, &heard.reach)),
        Instr::Store {
            op,
            rs1,
            rs2,
            offset,
        } => {
            let address = offset_by(local.register(rs1), offset);
            let value = local.register(rs2);
            stores(alloc, local, op, address, value, heard.reach.writable)
        }
        _ => Ok(act_alone(alloc, local, instr)),
    }
}
