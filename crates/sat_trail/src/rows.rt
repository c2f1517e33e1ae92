//! Writes to one table of an index each.
ghost use Rattle.std.specs.Prelude.{◌≡◌, ◌*◌, ◌+◌, ◌-◌, ◌<◌, ◌≤◌, ℕ, Some, [], ◌∷◌, ◌++◌, length, take, map, replicate, slice_get, slice_set, slice_index_or, IfOk, OnOk, OnErr};
ghost use Rattle.sat_trail.specs.Packing.{place_of};
ghost use Rattle.sat_trail.specs.Watching.{IsDropped, IsWritten};

use crate::packed::Packed;
use crate::watcher::{Entry, Pair, Watcher};
use clause_store::Memory;
use std::alloc::Global;

/// So many rows with nothing in them.
pub fn empty_rows(alloc: Global, count: usize) -> Result<Vec<Vec<Watcher>>, Memory>
    ensures { IfOk result (λ rows. map (λ r. r.items) rows.items ≡ replicate count []) }
{
    let mut rows = Vec::with_capacity(alloc, count)?;
    for _row in 0..count {
        rows.push(Vec::new(alloc))?;
    }
    Ok(rows)
}

/// Appends a watcher to the row of a literal.
pub fn push_row(rows: &mut Vec<Vec<Watcher>>, of: Packed, watcher: Watcher) -> Result<(), Memory>
    requires { place_of of < length rows.old.items }
    ensures ok { OnOk result (map (λ r. r.items) rows.new.items ≡ slice_set (map (λ r. r.items) rows.old.items) (place_of of) (slice_index_or (map (λ r. r.items) rows.old.items) (place_of of) [] ++ watcher ∷ [])) }
    ensures err { OnErr result (map (λ r. r.items) rows.new.items ≡ map (λ r. r.items) rows.old.items) }
    ensures length { length rows.new.items ≡ length rows.old.items }
{
    rows[of.place()].push(watcher)?;
    Ok(())
}

/// Takes a watcher out of the row of a literal; the last of the row takes its place.
pub fn drop_from_row(rows: &mut Vec<Vec<Watcher>>, of: Packed, at: usize)
    requires there { place_of of < length rows.old.items }
    requires within { at < length (slice_index_or (map (λ r. r.items) rows.old.items) (place_of of) []) }
    ensures { IsDropped (map (λ r. r.items) rows.old.items) (map (λ r. r.items) rows.new.items) (place_of of) at }
{
    let _watcher = rows[of.place()].swap_remove(at);
}

/// Writes a watcher in the row of a literal.
pub fn set_watcher(rows: &mut Vec<Vec<Watcher>>, of: Packed, at: usize, watcher: Watcher)
    requires there { place_of of < length rows.old.items }
    requires within { at < length (slice_index_or (map (λ r. r.items) rows.old.items) (place_of of) []) }
    ensures { map (λ r. r.items) rows.new.items ≡ slice_set (map (λ r. r.items) rows.old.items) (place_of of)
        (slice_set (slice_index_or (map (λ r. r.items) rows.old.items) (place_of of) []) at watcher) }
{
    let row = &mut rows[of.place()];
    row[at] = watcher;
}

/// Writes what a clause watches.
pub fn set_pair(entries: &mut Vec<Entry>, clause: u32, pair: Pair)
    requires { clause < length entries.old.items }
    ensures { IsWritten entries.old.items entries.new.items clause pair }
{
    entries[clause as usize].pair = pair;
}
