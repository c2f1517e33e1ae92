//! Which literals of a line follow from its others, found by a walk of its own before the line is made. A literal
//! is dropped if the clause that forced it has only literals of the line, or such that can be dropped in turn.
ghost use Rattle.std.specs.Prelude.{◌<◌, length};

use crate::marks::{is_marked, quiet_below};
use clause_store::Memory;
use sat_trail::engine::Engine;
use sat_trail::packed::Packed;
use std::alloc::Global;

const DEPTH: u32 = 40;

/// What was found out about a variable.
#[derive(Clone, Copy, Debug)]
enum State {
    Unknown,
    /// The line names it, so far.
    Named,
    /// It follows from the line's others.
    Dropped,
    /// It doesn't, as far as was looked.
    Needed,
}

/// Where each variable stands among the steps, and what the last walk found.
#[derive(Drop)]
pub struct Cutting {
    places: Vec<usize>,
    levels: Vec<u32>,
    synced: usize,
    marks: Vec<bool>,
    states: Vec<State>,
    named_levels: Vec<bool>,
    touched: Vec<usize>,
    marked: Vec<usize>,
    named: Vec<usize>,
    met: Vec<usize>,
}

impl Cutting {
    /// Nothing is known.
    pub fn new(alloc: Global, vars: usize) -> Result<Cutting, Memory> {
        let places = vec![in alloc; 0; vars]?;
        let levels = vec![in alloc; 0; vars]?;
        let marks = vec![in alloc; false; vars]?;
        let states = vec![in alloc; State::Unknown; vars]?;
        let named_levels = vec![in alloc; false; vars]?;
        Ok(Cutting {
            places,
            levels,
            synced: 0,
            marks,
            states,
            named_levels,
            touched: Vec::new(alloc),
            marked: Vec::new(alloc),
            named: Vec::new(alloc),
            met: Vec::new(alloc),
        })
    }

    /// For another engine.
    pub fn begin(&mut self) {
        self.synced = 0;
    }

    /// All steps from one on are taken back.
    pub fn cut_to(&mut self, to: usize) {
        if to < self.synced {
            self.synced = to;
        }
    }

    /// The listed variables that the last walk met.
    pub fn met(&self) -> &[usize] {
        self.met.as_slice()
    }

    /// Whether the last walk found that a variable can be dropped.
    pub fn is_dropped(&self, var: usize) -> bool {
        match self.state_of(var) {
            State::Dropped => true,
            State::Unknown => false,
            State::Named => false,
            State::Needed => false,
        }
    }

    /// Walks down from a false clause, and looks at each literal that the line would have.
    pub fn study(&mut self, engine: &Engine, clash: u32, is_first: &[bool]) -> Result<(), Memory>
        requires { clash < length engine.now.clauses }
    {
        self.sync(engine);
        self.clear();
        self.mark_all(engine.clause(clash as usize))?;
        let key = self.walk(engine, is_first)?;
        self.spread(engine, is_first, key)?;
        for at in 0..self.named.len() {
            self.try_drop(engine, at)?;
        }
        Ok(())
    }

    // Notes the places and levels of steps that are new since the last walk.
    fn sync(&mut self, engine: &Engine) {
        let mut level = 0;
        if 0 < self.synced && self.synced <= engine.len() {
            level = self.level_of(engine.step(self.synced - 1).lit.var());
        }
        for at in self.synced..engine.len() {
            let step = engine.step(at);
            if step.reason.is_none() && level < 0x7fff_ffff {
                level += 1;
            }
            self.note(step.lit.var(), at, level);
        }
        self.synced = engine.len();
    }

    fn note(&mut self, var: usize, place: usize, level: u32) {
        if var < self.places.len() {
            self.places[var] = place;
        }
        if var < self.levels.len() {
            self.levels[var] = level;
        }
    }

    // Takes back what the last walk wrote.
    fn clear(&mut self) {
        for _left in 0..self.touched.len() {
            let Some(var) = self.touched.pop() else {
                break;
            };
            let level = self.level_of(var) as usize;
            if var < self.marks.len() {
                self.marks[var] = false;
            }
            if var < self.states.len() {
                self.states[var] = State::Unknown;
            }
            if level < self.named_levels.len() {
                self.named_levels[level] = false;
            }
        }
        self.marked.clear();
        self.named.clear();
        self.met.clear();
    }

    fn mark_all(&mut self, clause: &[Packed]) -> Result<(), Memory> {
        for lit in clause {
            self.mark(lit.var())?;
        }
        Ok(())
    }

    fn mark(&mut self, var: usize) -> Result<(), Memory> {
        if var < self.marks.len() && !self.marks[var] {
            self.marks[var] = true;
            self.touched.push(var)?;
            self.marked.push(var)?;
        }
        Ok(())
    }

    // The same walk as the one that makes the line, down to the key, of which it gives the place.
    fn walk(&mut self, engine: &Engine, is_first: &[bool]) -> Result<usize, Memory> {
        let mut at = engine.len();
        while at > 0 {
            at -= 1;
            let lit = engine.step(at).lit;
            if is_marked(self.marks.as_slice(), lit) {
                if self.level_of(lit.var()) == 0 || self.visit(engine, is_first, at, false)? {
                    return Ok(at);
                }
            }
        }
        Ok(0)
    }

    // Below the key the order of the marked steps doesn't matter, so no others are looked at.
    fn spread(&mut self, engine: &Engine, is_first: &[bool], key: usize) -> Result<(), Memory> {
        for at in 0..engine.vars() {
            let Some(marked) = self.marked.get(at) else {
                return Ok(());
            };
            let var = *marked;
            let place = self.place_of(var);
            if place < key && place < engine.len() && self.level_of(var) > 0 {
                self.visit(engine, is_first, place, true)?;
            }
        }
        Ok(())
    }

    // Does one marked step, and tells whether the key is found.
    fn visit(
        &mut self,
        engine: &Engine,
        is_first: &[bool],
        at: usize,
        keyed: bool,
    ) -> Result<bool, Memory>
        requires { at < length engine.now.steps }
    {
        let lit = engine.step(at).lit;
        let listed = is_marked(is_first, lit);
        if listed {
            self.met.push(lit.var())?;
        }
        let Some(reason) = reason_at(engine, at) else {
            return self.keep(lit.var(), keyed);
        };
        if listed && (keyed || quiet_below(engine, self.marks.as_slice(), at).is_some()) {
            return self.keep(lit.var(), keyed);
        }
        self.mark_all(reason)?;
        Ok(keyed)
    }

    // The first that is kept is the key, which is never dropped.
    fn keep(&mut self, var: usize, keyed: bool) -> Result<bool, Memory> {
        self.set_state(var, State::Named)?;
        let level = self.level_of(var) as usize;
        if level < self.named_levels.len() {
            self.named_levels[level] = true;
        }
        if keyed {
            self.named.push(var)?;
        }
        Ok(true)
    }

    fn try_drop(&mut self, engine: &Engine, at: usize) -> Result<(), Memory> {
        let Some(named) = self.named.get(at) else {
            return Ok(());
        };
        let var = *named;
        if self.follows(engine, var, DEPTH)? {
            self.set_state(var, State::Dropped)?;
        }
        Ok(())
    }

    // Whether the clause that forced a variable has only literals of the line, or such that follow from them.
    #[cycle(follows)]
    fn follows(&mut self, engine: &Engine, var: usize, depth: u32) -> Result<bool, Memory> {
        if depth == 0 {
            return Ok(false);
        }
        let lower = depth - 1;
        let place = self.place_of(var);
        if engine.len() <= place {
            return Ok(false);
        }
        let Some(reason) = reason_at(engine, place) else {
            return Ok(false);
        };
        for lit in reason {
            if lit.var() != var && !self.is_given(engine, lit.var(), lower)? {
                return Ok(false);
            }
        }
        Ok(true)
    }

    // Whether a variable is named by the line, or follows from it.
    #[cycle(follows)]
    fn is_given(&mut self, engine: &Engine, var: usize, depth: u32) -> Result<bool, Memory> {
        let level = self.level_of(var);
        if level == 0 {
            return Ok(true);
        }
        match self.state_of(var) {
            State::Named => Ok(true),
            State::Dropped => Ok(true),
            State::Needed => Ok(false),
            State::Unknown => {
                let good = self.has_named_level(level) && self.follows(engine, var, depth)?;
                self.set_state(var, if good { State::Dropped } else { State::Needed })?;
                Ok(good)
            }
        }
    }

    fn set_state(&mut self, var: usize, state: State) -> Result<(), Memory> {
        if var < self.states.len() {
            self.states[var] = state;
            self.touched.push(var)?;
        }
        Ok(())
    }

    fn state_of(&self, var: usize) -> State {
        match self.states.get(var) {
            Some(state) => *state,
            None => State::Unknown,
        }
    }

    fn level_of(&self, var: usize) -> u32 {
        match self.levels.get(var) {
            Some(level) => *level,
            None => 0,
        }
    }

    fn place_of(&self, var: usize) -> usize {
        match self.places.get(var) {
            Some(place) => *place,
            None => 0,
        }
    }

    fn has_named_level(&self, level: u32) -> bool {
        match self.named_levels.get(level as usize) {
            Some(named) => *named,
            None => false,
        }
    }
}

/// The clause that forced a step.
fn reason_at(engine: &Engine, at: usize) -> Option<&[Packed]>
    requires { at < length engine.now.steps }
{
    let _steps = engine.len();
    let clause = engine.step(at).reason?;
    Some(engine.clause(clause as usize))
}
