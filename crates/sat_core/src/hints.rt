//! What guides the search: heat, phases, restarts, and which literals a line can do without. No clause speaks of
//! it, and no proof rests on it.
ghost use Rattle.std.specs.Prelude.{◌<◌, length};

use crate::cutting::Cutting;
use crate::heap::Heap;
use crate::marks::is_marked;
use crate::restarts::Restarts;
use clause_store::Memory;
use sat_trail::engine::Engine;
use sat_trail::packed::Packed;
use std::alloc::Global;

/// Guesses that are kept from line to line.
#[derive(Drop)]
pub struct Hints {
    heap: Heap,
    restarts: Restarts,
    cutting: Cutting,
    phases: Vec<bool>,
    cursor: usize,
}

impl Hints {
    /// Nothing is known yet: each variable is tried true first.
    pub fn new(alloc: Global, vars: usize) -> Result<Hints, Memory> {
        let heap = Heap::new(alloc, vars)?;
        let cutting = Cutting::new(alloc, vars)?;
        let phases = vec![in alloc; true; vars]?;
        Ok(Hints {
            heap,
            restarts: Restarts::new(),
            cutting,
            phases,
            cursor: 0,
        })
    }

    /// For an engine with no decision: all marked variables are to be picked from.
    pub fn begin(&mut self, is_first: &[bool]) {
        self.cursor = 0;
        self.cutting.begin();
        for (var, listed) in is_first.iter().enumerate() {
            if *listed {
                self.heap.insert(var);
            }
        }
    }

    /// Whether a line can do without a literal of this variable.
    pub fn is_dropped(&self, lit: Packed) -> bool {
        self.cutting.is_dropped(lit.var())
    }

    /// Whether a variable is tried true.
    pub fn prefers(&self, var: usize) -> bool {
        match self.phases.get(var) {
            Some(phase) => *phase,
            None => true,
        }
    }

    /// The hottest variable that wasn't given since the steps were taken back.
    pub fn next_hot(&mut self) -> Option<usize> {
        self.heap.pop()
    }

    /// The variable below which none is open.
    pub fn cursor(&self) -> usize {
        self.cursor
    }

    /// Remembers a variable below which none is open.
    pub fn set_cursor(&mut self, var: usize) {
        self.cursor = var;
    }

    /// Counts a line, and tells whether a restart is due.
    pub fn restart_is_due(&mut self) -> bool {
        self.restarts.is_due()
    }

    /// Before all steps from one on are taken back: their literals are tried again, and their variables picked again.
    pub fn release(&mut self, engine: &Engine, to: usize, is_first: &[bool]) {
        self.cursor = 0;
        self.cutting.cut_to(to);
        for at in to..engine.len() {
            let lit = engine.step(at).lit;
            let var = lit.var();
            if var < self.phases.len() {
                self.phases[var] = lit.positive();
            }
            if is_marked(is_first, lit) {
                self.heap.insert(var);
            }
        }
    }

    /// Before a false clause is analysed: the variables that lead to it become hotter, and it is found out which
    /// literals the line can do without.
    pub fn study(&mut self, engine: &Engine, clash: u32, is_first: &[bool]) -> Result<(), Memory>
        requires { clash < length engine.now.clauses }
    {
        self.cutting.study(engine, clash, is_first)?;
        for var in self.cutting.met() {
            self.heap.warm(*var);
        }
        self.heap.cool();
        Ok(())
    }
}
