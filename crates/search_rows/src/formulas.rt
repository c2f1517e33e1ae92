//! Clauses that were told by hand, pigeons in holes, chains, and random clauses.
ghost use Rattle.std.specs.Prelude.{◌<◌, All, IfOk};

use clause_store::Memory;
use clause_store::lit::Lit;
use clause_store::store::ClauseStore;
use std::alloc::Global;

/// The literal that is true where the variable is.
pub fn yes(var: u64) -> Lit {
    Lit {
        var,
        positive: true,
    }
}

/// The literal that is true where the variable isn't.
pub fn not(var: u64) -> Lit {
    Lit {
        var,
        positive: false,
    }
}

/// Adds variables.
pub fn add_variables(store: &mut ClauseStore<'_>, count: u64) -> Result<(), Memory> {
    for _var in 0..count {
        store.fresh()?;
    }
    Ok(())
}

/// Adds a clause of those literals whose variables are there.
pub fn add(alloc: Global, store: &mut ClauseStore<'_>, lits: &[Lit]) -> Result<(), Memory> {
    let vars = store.vars();
    let mut known = Vec::new(alloc);
    for lit in lits {
        if lit.var < vars {
            known.push(*lit)?;
        }
    }
    store.add(known.as_slice())
}

/// Clauses that were told by hand.
#[derive(Clone, Copy, Debug)]
pub enum Told {
    Nothing,
    Empty,
    Unit,
    Units,
    OppositeUnits,
    Chain,
    ClosedChain,
    Twice,
    TwiceOpposite,
    Tautology,
    TautologyAlone,
    Square,
    OpenSquare,
}

/// Each of them, and whether it has a model.
pub static TOLD: [(Told, bool); 13] = [
    (Told::Nothing, true),
    (Told::Empty, false),
    (Told::Unit, true),
    (Told::Units, true),
    (Told::OppositeUnits, false),
    (Told::Chain, true),
    (Told::ClosedChain, false),
    (Told::Twice, true),
    (Told::TwiceOpposite, false),
    (Told::Tautology, false),
    (Told::TautologyAlone, true),
    (Told::Square, false),
    (Told::OpenSquare, true),
];

/// Four implications in a row, from a variable that is true.
fn add_implications(alloc: Global, store: &mut ClauseStore<'_>) -> Result<(), Memory> {
    add(alloc, store, &[yes(0)])?;
    add(alloc, store, &[not(0), yes(1)])?;
    add(alloc, store, &[yes(2), not(1)])?;
    add(alloc, store, &[not(2), yes(3)])
}

/// Three of four clauses on two variables.
fn add_three_corners(alloc: Global, store: &mut ClauseStore<'_>) -> Result<(), Memory> {
    add(alloc, store, &[yes(4), yes(7)])?;
    add(alloc, store, &[not(4), yes(7)])?;
    add(alloc, store, &[yes(4), not(7)])
}

/// Adds ten variables and the clauses.
pub fn add_told(alloc: Global, store: &mut ClauseStore<'_>, told: Told) -> Result<(), Memory> {
    add_variables(store, 10)?;
    match told {
        Told::Nothing => Ok(()),
        Told::Empty => add(alloc, store, &[]),
        Told::Unit => add(alloc, store, &[not(3)]),
        Told::Units => {
            add(alloc, store, &[yes(2)])?;
            add(alloc, store, &[not(9)])
        }
        Told::OppositeUnits => {
            add(alloc, store, &[yes(2)])?;
            add(alloc, store, &[not(2)])
        }
        Told::Chain => add_implications(alloc, store),
        Told::ClosedChain => {
            add_implications(alloc, store)?;
            add(alloc, store, &[not(3)])
        }
        Told::Twice => add(alloc, store, &[yes(5), yes(5)]),
        Told::TwiceOpposite => {
            add(alloc, store, &[yes(5), yes(5)])?;
            add(alloc, store, &[not(5), not(5), not(5)])
        }
        Told::Tautology => {
            add(alloc, store, &[yes(6), not(6)])?;
            add_three_corners(alloc, store)?;
            add(alloc, store, &[not(4), not(7), not(4)])
        }
        Told::TautologyAlone => add(alloc, store, &[not(6), yes(1), yes(6)]),
        Told::Square => {
            add_three_corners(alloc, store)?;
            add(alloc, store, &[not(4), not(7)])
        }
        Told::OpenSquare => add_three_corners(alloc, store),
    }
}

/// Pigeons have one hole less than they are; up to six.
#[derive(Clone, Copy, Debug)]
pub enum Pigeons {
    Four,
    Five,
    Six,
}

impl Pigeons {
    fn count(self) -> u64 {
        match self {
            Pigeons::Four => 4,
            Pigeons::Five => 5,
            Pigeons::Six => 6,
        }
    }
}

/// The variable of a pigeon in a hole.
fn place(pigeon: u64, hole: u64) -> u64 {
    pigeon % 8 * 5 + hole % 5
}

/// A pigeon is in one of the holes.
fn add_pigeon(
    alloc: Global,
    store: &mut ClauseStore<'_>,
    pigeon: u64,
    holes: u64,
) -> Result<(), Memory> {
    let mut clause = Vec::new(alloc);
    for hole in 0..holes {
        clause.push(yes(place(pigeon, hole)))?;
    }
    add(alloc, store, clause.as_slice())
}

/// No two of the first pigeons share a hole.
fn add_hole(
    alloc: Global,
    store: &mut ClauseStore<'_>,
    pigeons: u64,
    hole: u64,
) -> Result<(), Memory> {
    for pair in 0..64 {
        let one = pair / 8;
        let other = pair % 8;
        if one < other && other < pigeons {
            add(
                alloc,
                store,
                &[not(place(one, hole)), not(place(other, hole))],
            )?;
        }
    }
    Ok(())
}

/// Adds the variables and clauses of pigeons in holes.
pub fn add_pigeons(
    alloc: Global,
    store: &mut ClauseStore<'_>,
    pigeons: Pigeons,
) -> Result<(), Memory> {
    add_variables(store, 30)?;
    let count = pigeons.count();
    for number in 0..count {
        let next = number.saturating_add(1);
        add_pigeon(alloc, store, number, count.saturating_sub(1))?;
        if next < count {
            add_hole(alloc, store, count, number)?;
        }
    }
    Ok(())
}

/// A number that looks random.
fn scattered(number: u64) -> u64 {
    let mixed = number.wrapping_mul(0x9e37_79b9_7f4a_7c15);
    (mixed ^ (mixed >> 29)).wrapping_mul(0xbf58_476d_1ce4_e5b9) >> 32
}

fn random_literal(number: u64, vars: u64) -> Lit {
    let bits = scattered(number);
    Lit {
        var: bits.wrapping_div(2).checked_rem(vars).unwrap_or(0),
        positive: bits % 2 == 0,
    }
}

/// Adds variables, and clauses of three random literals on them.
pub fn add_random(
    alloc: Global,
    store: &mut ClauseStore<'_>,
    vars: u64,
    clauses: u64,
    seed: u64,
) -> Result<(), Memory> {
    add_variables(store, vars)?;
    for at in 0..clauses {
        let from = seed.wrapping_mul(1000).wrapping_add(at.wrapping_mul(3));
        let lits = [
            random_literal(from, vars),
            random_literal(from.wrapping_add(1), vars),
            random_literal(from.wrapping_add(2), vars),
        ];
        add(alloc, store, lits.as_slice())?;
    }
    Ok(())
}

/// Adds so many variables and a clause of two literals from each to the next; the first is true.
pub fn add_chain(alloc: Global, store: &mut ClauseStore<'_>, vars: u64) -> Result<(), Memory> {
    add_variables(store, vars)?;
    add(alloc, store, &[yes(0)])?;
    for var in 0..vars {
        let next = var.wrapping_add(1);
        if next < vars {
            add(alloc, store, &[not(var), yes(next)])?;
        }
    }
    Ok(())
}

/// The variables of a store below a number.
pub fn listed(alloc: Global, vars: u64, below: u64) -> Result<Vec<u64>, Memory>
    ensures { IfOk result (λ all. All (λ x. x < vars) all.items) }
{
    let mut all = Vec::new(alloc);
    for number in 0..vars {
        if number < below {
            all.push(number)?;
        }
    }
    Ok(all)
}
