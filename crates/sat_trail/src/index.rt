ghost use Rattle.std.specs.Prelude.{◌≡◌, ◌*◌, ◌+◌, ◌-◌, ◌<◌, ◌≤◌, ◌^◌, Some, [], ◌∷◌, ◌++◌, length, take, map, slice_get, slice_set, IfOk, OnOk, OnErr};
ghost use Rattle.clause_store.specs.Formula.{IsKnown};
ghost use Rattle.sat_trail.specs.Packing.{place_of};
ghost use Rattle.sat_trail.specs.Watching.{IsIndexed, IsPairOf, IsStart, WithWatched, CanBlock, IsBlocked, CanMove, IsMoved, pair_of, row_of};

use crate::packed::Packed;
use crate::rows::{drop_from_row, empty_rows, push_row, set_pair, set_watcher};
use crate::watcher::{Entry, Pair, Watcher};
use clause_store::Memory;
use std::alloc::Global;
use std::marker::Model;

/// The literals of all clauses, and the clauses, are numbered in four bytes each.
const MOST_LITERALS: usize = 0xffff_ffff;

const MOST_CLAUSES: usize = 0x8000_0000;

/// Clauses, each of which watches two of its literals and stands in the rows of both, seen by contracts as the
/// clauses, their pairs and the rows. A clause's literals never move: the watched ones stand beside its bounds.
#[derive(Drop)]
pub struct Index {
    vars: usize,
    literals: Vec<Packed>,
    entries: Vec<Entry>,
    rows: Vec<Vec<Watcher>>,
}

impl Model for Index {
    ghost use Rattle.std.specs.Prelude.{map};
    ghost use Rattle.sat_trail.specs.Watching.{Watched, IsIndex, clauses_of, pairs_of};

    ghost Value = { Watched };

    ghost view = { λ i. record { vars = i.vars; clauses = clauses_of i.literals.items i.entries.items; pairs = pairs_of i.entries.items; rows = map (λ r. r.items) i.rows.items } };

    ghost invariant = { λ i. IsIndex i.vars i.literals.items i.entries.items (map (λ r. r.items) i.rows.items) };
}

impl Index {
    /// No clause.
    pub fn new(alloc: Global, vars: usize) -> Result<Index, Memory>
        requires { vars < 2 ^ 31 }
        ensures { IfOk result (λ index. IsStart vars index) }
    {
        let rows = empty_rows(alloc, 2 * vars)?;
        Ok(Index {
            vars,
            literals: Vec::new(alloc),
            entries: Vec::new(alloc),
            rows,
        })
    }

    /// The number of variables.
    pub fn vars(&self) -> usize
        ensures { result ≡ self.now.vars }
    {
        self.vars
    }

    /// The number of clauses.
    pub fn len(&self) -> usize
        ensures number { result ≡ length self.now.clauses }
        ensures indexed { IsIndexed self.now }
    {
        self.entries.len()
    }

    /// The literals of a clause.
    pub fn clause(&self, at: usize) -> &[Packed]
        requires { at < length self.now.clauses }
        ensures clause { slice_get self.now.clauses at ≡ Some result.now }
        ensures known { IsKnown self.now.vars result.now }
    {
        let _clauses = self.len();
        self.literals_at(at)
    }

    /// The literals that a clause watches.
    pub fn pair(&self, at: usize) -> Pair
        requires { at < length self.now.clauses }
        ensures pair { slice_get self.now.pairs at ≡ Some result }
        ensures known { (result.one.var < self.now.vars) × (result.two.var < self.now.vars) }
    {
        let _clauses = self.len();
        self.pair_at(at)
    }

    /// The number of watchers in the row of a literal.
    pub fn row_len(&self, of: Packed) -> usize
        requires { of.var < self.now.vars }
        ensures number { result ≡ length (row_of self.now of) }
        ensures indexed { IsIndexed self.now }
    {
        self.rows[of.place()].len()
    }

    /// A watcher in the row of a literal.
    pub fn watcher(&self, of: Packed, at: usize) -> Watcher
        requires known { of.var < self.now.vars }
        requires within { at < length (row_of self.now of) }
        ensures watcher { slice_get (row_of self.now of) at ≡ Some result }
        ensures numbered { result.clause < length self.now.clauses }
        ensures known { result.blocker.var < self.now.vars }
        ensures indexed { IsIndexed self.now }
    {
        let _clauses = self.len();
        self.watcher_at(of, at)
    }

    /// Appends a clause that watches two of its literals. Too many clauses or literals are want of memory.
    pub fn add(self, clause: &[Packed], one: Packed, two: Packed) -> Result<Index, Memory>
        requires known { IsKnown self.vars clause.now }
        requires watched { IsPairOf clause.now (pair_of one two) }
        ensures { IfOk result (λ index. WithWatched self index clause.now (pair_of one two)) }
    {
        let Index {
            vars,
            mut literals,
            mut entries,
            mut rows,
        } = self;
        let start = literals.len();
        let end = start + clause.len();
        let number = entries.len();
        if MOST_LITERALS < end || MOST_CLAUSES <= number {
            return Err(Memory);
        }
        literals.extend_from_slice(clause)?;
        entries.push(Entry {
            start: start as u32,
            end: end as u32,
            pair: Pair { one, two },
        })?;
        push_row(
            &mut rows,
            one,
            Watcher {
                clause: number as u32,
                blocker: two,
            },
        )?;
        push_row(
            &mut rows,
            two,
            Watcher {
                clause: number as u32,
                blocker: one,
            },
        )?;
        Ok(Index {
            vars,
            literals,
            entries,
            rows,
        })
    }

    /// Lets a clause watch another literal in place of the one in whose row it stands; want of memory leaves all as it was.
    pub fn move_watch(
        &mut self,
        from: Packed,
        at: usize,
        clause: u32,
        stay: Packed,
        to: Packed,
    ) -> Result<(), Memory>
        requires { CanMove self.old from at clause stay to }
        ensures ok { OnOk result (IsMoved self.old self.new from at clause stay to) }
        ensures err { OnErr result (self.new ≡ self.old) }
    {
        // The one step that can fail comes first, so that nothing has to be put back.
        push_row(
            &mut self.rows,
            to,
            Watcher {
                clause,
                blocker: stay,
            },
        )?;
        drop_from_row(&mut self.rows, from, at);
        set_pair(&mut self.entries, clause, Pair { one: to, two: stay });
        Ok(())
    }

    /// Lets a watcher have another literal of its clause as its blocker.
    pub fn set_blocker(&mut self, from: Packed, at: usize, clause: u32, blocker: Packed)
        requires { CanBlock self.old from at clause blocker }
        ensures { IsBlocked self.old self.new from }
    {
        set_watcher(&mut self.rows, from, at, Watcher { clause, blocker });
    }

    fn literals_at(&self, at: usize) -> &[Packed]
        requires { at < length self.now.clauses }
        ensures { slice_get self.now.clauses at ≡ Some result.now }
    {
        let entry = self.entries[at];
        &self.literals[entry.start as usize..entry.end as usize]
    }

    fn pair_at(&self, at: usize) -> Pair
        requires { at < length self.now.clauses }
        ensures { slice_get self.now.pairs at ≡ Some result }
    {
        self.entries[at].pair
    }

    fn watcher_at(&self, of: Packed, at: usize) -> Watcher
        requires known { of.var < self.now.vars }
        requires within { at < length (row_of self.now of) }
        ensures { slice_get (row_of self.now of) at ≡ Some result }
    {
        self.rows[of.place()][at]
    }
}
