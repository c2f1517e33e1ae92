//! Derivations with a change.
ghost use Rattle.std.specs.Prelude.{◌<◌, All, IfOk};
ghost use Rattle.clause_store.specs.Formula.{IsKnown};

use clause_store::Memory;
use clause_store::derivation::Derivation;
use clause_store::lit::Lit;
use std::alloc::Global;

/// A change of the line of a number.
#[derive(Clone, Copy, Debug)]
pub enum Edit {
    Nothing,
    /// The line is left out.
    Drops(usize),
    /// The line's first literal is turned round.
    Turns(usize),
}

impl Edit {
    fn drops(self, at: usize) -> bool {
        match self {
            Edit::Drops(number) => number == at,
            _ => false,
        }
    }

    fn turns(self, at: usize) -> bool {
        match self {
            Edit::Turns(number) => number == at,
            _ => false,
        }
    }
}

/// The literals of a line whose variables are there.
fn known(alloc: Global, vars: u64, line: &[Lit], turns: bool) -> Result<Vec<Lit>, Memory>
    ensures { IfOk result (λ all. IsKnown vars all.items) }
{
    let mut all = Vec::new(alloc);
    let mut turns = turns;
    for lit in line {
        let lit = if turns { lit.opposite() } else { *lit };
        turns = false;
        if lit.var < vars {
            all.push(lit)?;
        }
    }
    Ok(all)
}

/// The derivation with a change.
pub fn edited(
    alloc: Global,
    vars: u64,
    lines: &Derivation,
    edit: Edit,
) -> Result<Derivation, Memory>
    ensures { IfOk result (λ all. All (IsKnown vars) all) }
{
    let mut all = Derivation::new(alloc);
    for at in 0..lines.len() {
        if !edit.drops(at) {
            let line = known(alloc, vars, lines.line(at), edit.turns(at))?;
            all.push(line.as_slice())?;
        }
    }
    Ok(all)
}
