ghost use Rattle.std.specs.Prelude.{◌≡◌, ℕ, map};
ghost use Rattle.rv32_decode.specs.Valid.{IsValid};
ghost use Rattle.rv_model.specs.Instruction.{act};
ghost use Rattle.rv_model.specs.declared.hearing.Heard.{Heard};
ghost use Rattle.guest_machine.specs.Notes.{note_of};
ghost use Rattle.guest_machine.specs.Spans.{touches_span, losing_by, SpansWrites, CallSpans};

use crate::note::Note;
use guest_calls::note::CallNote;
use rv_model::hearing::Access;
use rv_model::state::{Local, Thread};
use rv_model::values::{offset_by, store_size};
use rv32_decode::instr::Instr;

/// Whether one of the span's bytes is in the aligned word at an address.
#[tactic(auto, using(crate::proofs::SpanLemmas::one_byte_more))]
fn touches(span: Access, reserved: u32) -> bool
    ensures { result ≡ touches_span span reserved }
{
    let mut at = span.address;
    for _done in 0..span.count {
        if at / 4 == reserved / 4 {
            return true;
        }
        at = at.wrapping_add(1);
    }
    false
}

/// Ends a thread's reservation where the span touches the reserved word.
fn end_reservation(thread: &mut Thread, span: Access)
    ensures { thread.new ≡ losing_by (touches_span span) thread.old }
{
    if let Some(reserved) = thread.reservation {
        if touches(span, reserved) {
            thread.reservation = None;
        }
    }
}

/// Ends the reservations of words that the span touches.
pub fn end_reservations(threads: &mut [Thread], span: Access)
    ensures { threads.new ≡ map (losing_by (touches_span span)) threads.old }
{
    for thread in threads.iter_mut() {
        end_reservation(thread, span);
    }
}

fn nothing() -> Access
    ensures { result ≡ record { address = 0; count = 0 } }
{
    Access {
        address: 0,
        count: 0,
    }
}

/// The bytes that an instruction wrote, from the thread before it, whether it won, and its note.
#[tactic(auto, unfolding(rv_model::specs::Instruction::act), using(crate::proofs::SpanLemmas::written_spans))]
pub fn written(before: &Local, instr: &Instr, won: bool, note: &Note) -> Access
    requires { IsValid instr.now }
    ensures { (heard : Heard) → heard.won ≡ won → SpansWrites (act before.now instr.now heard) (note_of note.now) result }
{
    match *instr {
        Instr::Store {
            op,
            rs1,
            offset,
            ..
        } => Access {
            address: offset_by(before.register(rs1), offset),
            count: store_size(op),
        },
        Instr::StoreConditional { rs1, .. } if won => Access {
            address: before.register(rs1),
            count: 4,
        },
        Instr::Amo { rs1, .. } => Access {
            address: before.register(rs1),
            count: 4,
        },
        Instr::Ecall => written_by_call(before, note),
        _ => nothing(),
    }
}

/// The bytes that a read call put into its buffer.
#[tactic(auto, using(crate::proofs::SpanLemmas::written_spans))]
fn written_by_call(before: &Local, note: &Note) -> Access
    ensures { (reserved : ℕ) → CallSpans before.now (note_of note.now) result reserved }
{
    match note {
        Note::Call(CallNote::Read { bytes, .. }) => Access {
            address: before.register(10),
            count: bytes.len() as u32,
        },
        _ => nothing(),
    }
}
