ghost use Rattle.std.specs.Prelude.{◌≡◌, ℕ, Option, Ok, IsTrue, IsFalse, IfOk, MatchResult};
ghost use Rattle.rv32_decode.specs.Valid.{IsValid};
ghost use Rattle.guest_mem.specs.Blocks.{cells_of};
ghost use Rattle.guest_calls.specs.Table.{args_of, asked_in_memory, is_live};
ghost use Rattle.rv_model.specs.Calls.{first_argument, waits};
ghost use Rattle.rv_model.specs.Step.{calls_then, reach_of};
ghost use Rattle.rv_model.specs.Instruction.{conditional_of, wins, access_of, asked_by, act};
ghost use Rattle.rv_model.specs.declared.hearing.Heard.{Heard};
ghost use Rattle.guest_machine.specs.Notes.{note_of, IsPlain};
ghost use Rattle.guest_machine.specs.Whole.{MakesRoom};
ghost use Rattle.guest_machine.specs.Ran.{Ran, IsQuiet};
ghost use Rattle.guest_machine.specs.Hearing.{heard_of};

use crate::alone::{compute, run_alone};
use crate::memory_access::{atomic, load, load_reserved, store, store_conditional};
use crate::note::Note;
use guest_calls::call::CallArgs;
use guest_calls::call_state::CallState;
use guest_mem::guest_memory::GuestMem;
use odr_log::log::Cause;
use rv_model::state::Local;
use rv32_decode::instr::Instr;

/// The arguments of the call that a thread makes.
pub fn args_of(local: &Local) -> CallArgs
    ensures { result ≡ args_of local.now }
{
    CallArgs {
        number: local.register(17),
        a0: local.register(10),
        a1: local.register(11),
    }
}

/// Does the guest call of a thread that is live and not blocked.
#[tactic(auto, unfolding(rv_model::specs::Instruction::act, rv_model::specs::Instruction::access_of, rv_model::specs::Instruction::asked_by))]
fn call(local: &mut Local, memory: &mut GuestMem, calls: &mut CallState, tid: u8) -> Note
    requires live { IsTrue (is_live calls.old tid) }
    requires unblocked { IsFalse (waits calls.old tid (asked_in_memory (cells_of memory.old) (args_of local.old))) }
    ensures ran { (reservation : Option ℕ) → Ran (cells_of memory.old) local.old (act local.old Instr.Ecall (heard_of (cells_of memory.old) calls.old tid reservation local.old Instr.Ecall)) (Ok result) local.new (cells_of memory.new) }
    ensures shared { calls.new ≡ calls_then calls.old tid (first_argument local.old) (note_of result) }
    ensures room { MakesRoom calls.old (note_of result) }
{
    let done = calls.apply(tid, args_of(local), memory);
    compute(local, 10, done.a0);
    Note::Call(done.note)
}

/// Does an instruction that is no guest call.
#[tactic(auto, using(crate::proofs::RanLemmas::ran_alone))]
fn run_quiet(
    local: &mut Local,
    memory: &mut GuestMem,
    instr: &Instr,
    won: bool,
) -> Result<Note, Cause>
    requires valid { IsValid instr.now }
    requires quiet { IsQuiet instr.now }
    ensures ran { (heard : Heard) → heard.reach ≡ reach_of (cells_of memory.old) (access_of local.old instr.now) → heard.won ≡ won
        → Ran (cells_of memory.old) local.old (act local.old instr.now heard) result local.new (cells_of memory.new) }
    ensures plain { IfOk result IsPlain }
{
    match *instr {
        Instr::Load {
            op,
            rd,
            rs1,
            offset,
        } => load(local, memory, op, rd, rs1, offset),
        Instr::Store {
            op,
            rs1,
            rs2,
            offset,
        } => store(local, memory, op, rs1, rs2, offset),
        Instr::LoadReserved { rd, rs1, aq, rl } => load_reserved(local, memory, rd, rs1, aq, rl),
        Instr::StoreConditional {
            rd,
            rs1,
            rs2,
            aq,
            rl,
        } => { store_conditional(local, memory, won, rd, rs1, rs2, aq, rl) }
        Instr::Amo {
            op,
            rd,
            rs1,
            rs2,
            aq,
            rl,
        } => atomic(local, memory, op, rd, rs1, rs2, aq, rl),
        _ => run_alone(local, instr),
    }
}

/// Does the instruction of a thread that is live and not blocked. `won` tells whether a store-conditional
/// wins.
#[tactic(auto, unfolding(rv_model::specs::Instruction::asked_by))]
pub fn run(
    local: &mut Local,
    memory: &mut GuestMem,
    calls: &mut CallState,
    tid: u8,
    instr: &Instr,
    won: bool,
) -> Result<Note, Cause>
    requires valid { IsValid instr.now }
    requires live { IsTrue (is_live calls.old tid) }
    requires unblocked { IsFalse (waits calls.old tid (asked_by local.old instr.now (reach_of (cells_of memory.old) (access_of local.old instr.now)))) }
    ensures ran { (reservation : Option ℕ) → wins (conditional_of local.old instr.now) reservation ≡ won
        → Ran (cells_of memory.old) local.old (act local.old instr.now (heard_of (cells_of memory.old) calls.old tid reservation local.old instr.now)) result local.new (cells_of memory.new) }
    ensures shared { MatchResult result (λ note. calls.new ≡ calls_then calls.old tid (first_argument local.old) (note_of note)) (λ fault. calls.new ≡ calls.old) }
    ensures room { IfOk result (λ note. MakesRoom calls.old (note_of note)) }
{
    match instr {
        Instr::Ecall => Ok(call(local, memory, calls, tid)),
        _ => run_quiet(local, memory, instr, won),
    }
}
