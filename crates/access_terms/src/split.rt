//! The bytes of a word that a store writes.
ghost use Rattle.std.specs.Prelude.{◌≡◌, ◌≤◌, IfOk};
ghost use Rattle.step_terms.specs.Made.{Grows, IsTerm};
ghost use Rattle.access_terms.specs.Split.{AreLowBytes};

use bv_terms::node::TermId;
use bv_terms::pool::TermPool;
use odr_list::list::List;
use odr_list::memory::Memory;
use std::alloc::Global;
use step_terms::memory::stored;

/// The low bytes of a word, the lowest first.
pub fn low_bytes(
    alloc: Global,
    pool: &mut TermPool<'_>,
    word: TermId,
    count: u32,
) -> Result<List<TermId>, Memory>
    requires word { IsTerm pool.old 32 word.number }
    requires few { count ≤ 4 }
    ensures split { IfOk result (AreLowBytes pool.old pool.new word.number count) }
    ensures grows { Grows pool.old pool.new }
{
    let mut bytes = List::new(alloc);
    for place in 0..count {
        let byte = stored(pool, word, place as u8)?;
        bytes.push(byte)?;
    }
    Ok(bytes)
}
