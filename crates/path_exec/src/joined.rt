//! The value that a join hands on.
ghost use Rattle.std.specs.Prelude.{◌≡◌, IfOk};
ghost use Rattle.path_exec.specs.Following.{AreWords, IsJoined, joined_end};
ghost use Rattle.step_terms.specs.Made.{Grows, IsTerm};

use bv_terms::node::TermId;
use bv_terms::pool::TermPool;
use odr_list::memory::Memory;
use odr_log::log::Call;
use rv_model::state::Note;
use step_terms::make::word;

// The end of a thread that is joined, if it is kept.
fn joined_end(ends: &[Option<TermId>], shown: &Note) -> Option<TermId>
    ensures { result ≡ joined_end ends.now shown.now }
{
    match shown {
        Note::Called(Call::Join { target, ok: true }) => match ends.get(*target as usize) {
            Some(end) => *end,
            None => None,
        },
        _ => None,
    }
}

/// The value that a step's join hands on, as a term; 0 where it joins no thread that ended.
pub fn joined(
    pool: &mut TermPool<'_>,
    ends: &[Option<TermId>],
    shown: &Note,
) -> Result<TermId, Memory>
    requires words { AreWords pool.old ends.now }
    ensures joined { IfOk result (IsJoined pool.old pool.new (joined_end ends.now shown.now)) }
    ensures word { IfOk result (λ id. IsTerm pool.new 32 id.number) }
    ensures grows { Grows pool.old pool.new }
{
    match joined_end(ends, shown) {
        Some(end) => Ok(end),
        None => word(pool, 0),
    }
}
