//! The decided pairs by the steps of their second places, and how many of them each thread has passed.
ghost use Rattle.std.specs.Prelude.{◌≡◌, ◌≤◌, ◌<◌, ◌↔◌, ◌⊎◌, IsTrue, IfSome, IfNone, IfOk, Some, Contains, length, slice_get, slice_index_or};
ghost use Rattle.std.specs.List.Sorted.{IsNonDecreasingBy};
ghost use Rattle.odr_log.specs.declared.log.Pos.{Pos};
ghost use Rattle.schedule_extract.specs.Going.{IsTaken};
ghost use Rattle.schedule_extract.specs.Marks.{ArePassed, IsPassed};

use odr_list::memory::Memory;
use odr_log::log::Pos;
use std::alloc::Global;

/// The pairs by the steps of their second places.
pub fn by_step(alloc: Global, decided: &[(Pos, Pos)]) -> Result<Vec<(Pos, Pos)>, Memory>
    ensures sorted { IfOk result (λ pairs. IsNonDecreasingBy (λ pair. pair.1.step) pairs.items) }
    ensures same { IfOk result (λ pairs. (pair : Pos × Pos) → Contains pairs.items pair ↔ Contains decided.now pair) }
{
    let mut pairs = decided.to_vec(alloc)?;
    pairs.sort_by_key(|pair| pair.1.step)?;
    Ok(pairs)
}

/// Whether a pair keeps back no step of a thread from its next one on.
fn is_passed(pair: (Pos, Pos), next: &[u32; 256], at: Pos) -> bool
    ensures { IsTrue result ↔ IsPassed next.now at pair }
{
    let first = pair.0;
    pair.1.step <= at.step && (pair.1 != at || first.step < next[first.thread as usize])
}

/// The first pair, from a mark on, that is not passed; the number of pairs if none is left.
pub fn pass(pairs: &[(Pos, Pos)], next: &[u32; 256], at: Pos, mark: usize) -> usize
    requires { ArePassed pairs.now next.now at mark }
    ensures passed { ArePassed pairs.now next.now at result }
    ensures next { IfSome (slice_get pairs.now result) (λ pair. IsPassed next.now at pair → ⊥) }
{
    let mut mark = mark;
    while mark < pairs.len() && is_passed(pairs[mark], next, at) {
        mark += 1;
    }
    mark
}

/// A step that is decided to stand before another and was not taken. The mark is the first pair that is not passed.
pub fn lacks_decided(pairs: &[(Pos, Pos)], next: &[u32; 256], at: Pos, mark: usize) -> Option<Pos>
    requires sorted { IsNonDecreasingBy (λ pair. pair.1.step) pairs.now }
    requires passed { ArePassed pairs.now next.now at mark }
    requires next { IfSome (slice_get pairs.now mark) (λ pair. IsPassed next.now at pair → ⊥) }
    ensures lacks { IfSome result (λ p. Contains pairs.now (p, at) × (slice_index_or next.now p.thread 0 ≤ p.step)) }
    ensures none { IfNone result ((p : Pos) → Contains pairs.now (p, at) → IsTaken next.now p) }
{
    if mark < pairs.len() && pairs[mark].1 == at {
        return Some(pairs[mark].0);
    }
    None
}
