//! What a call answers, as a term.
ghost use Rattle.std.specs.Prelude.{◌≡◌, ◌≤◌, [], ◌∷◌, IfOk, length};
ghost use Rattle.bv_terms.specs.Values.{value_at};
ghost use Rattle.rv_model.specs.Calls.{answer_of, zero_if};
ghost use Rattle.rv_model.specs.CallsFit.{IsPossible};
ghost use Rattle.call_terms.specs.Records.{written_in};
ghost use Rattle.step_terms.specs.Made.{Grows, IsMade, IsTerm};

use bv_terms::node::TermId;
use bv_terms::pool::TermPool;
use odr_list::memory::Memory;
use odr_log::log::Call;
use step_terms::make::word;

fn zero_if(ok: bool) -> u32
    ensures { result ≡ zero_if ok }
{
    if ok { 0 } else { u32::MAX }
}

/// a0 after a call, of the term of a0 before it, where a join hands on the value of a term.
pub fn answer(
    pool: &mut TermPool<'_>,
    thread: u8,
    joined: TermId,
    call: &Call,
    a0: TermId,
) -> Result<TermId, Memory>
    requires joined { IsTerm pool.old 32 joined.number }
    requires a0 { IsTerm pool.old 32 a0.number }
    requires possible { IsPossible call.now }
    requires few { length (written_in call.now) ≤ 256 }
    ensures made { IfOk result (λ id. IsMade pool.old pool.new (joined.number ∷ a0.number ∷ []) 32
        (λ w. answer_of thread (value_at w pool.old joined.number) call.now (value_at w pool.old a0.number)) id.number) }
    ensures grows { Grows pool.old pool.new }
{
    match call {
        Call::Exit { .. } | Call::EndThread => Ok(a0),
        Call::Join { ok: true, .. } => Ok(joined),
        Call::Join { ok: false, .. } => word(pool, u32::MAX),
        Call::Spawn { child, .. } => word(pool, child.map_or(u32::MAX, u32::from)),
        Call::Lock { ok, .. } | Call::Unlock { ok, .. } => word(pool, zero_if(*ok)),
        Call::TryLock { got, .. } => word(pool, zero_if(*got)),
        Call::Write { bytes } => word(pool, bytes.len() as u32),
        Call::Read { bytes, .. } => word(pool, bytes.len() as u32),
        Call::WriteBad | Call::ReadBad | Call::Unknown { .. } => word(pool, u32::MAX),
        Call::SelfId => word(pool, u32::from(thread)),
        Call::Yield => word(pool, 0),
    }
}
