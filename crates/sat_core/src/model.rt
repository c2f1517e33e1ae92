//! The truth values that an engine's steps give.
ghost use Rattle.std.specs.Prelude.{◌≡◌, ◌<◌, Bool, Some, IfOk};
ghost use Rattle.sat_trail.specs.Paths.{value_in};
ghost use Rattle.sat_core.specs.Searching.{IsModel};

use clause_store::Memory;
use clause_store::lit::Lit;
use sat_trail::engine::Engine;
use sat_trail::packed::Packed;
use sat_trail::truth::Truth;
use std::alloc::Global;

/// The value of each variable; an open one is false.
pub fn model_of(alloc: Global, engine: &Engine) -> Result<Vec<bool>, Memory>
    ensures { IfOk result (λ values. IsModel engine.now values.items) }
{
    let mut values = Vec::new(alloc);
    for var in 0..engine.vars() {
        values.push(is_true(engine, var))?;
    }
    Ok(values)
}

/// Whether the steps make a variable true.
fn is_true(engine: &Engine, var: usize) -> bool
    requires { var < engine.now.vars }
    ensures { (b : Bool) → value_in engine.now.steps var ≡ Some b → result ≡ b }
{
    let _vars = engine.vars();
    let lit = Packed::new(Lit {
        var: var as u64,
        positive: true,
    });
    match engine.truth(lit) {
        Truth::True => true,
        Truth::False => false,
        Truth::Open => false,
    }
}
