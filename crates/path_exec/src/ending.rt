//! The registers at the end.
ghost use Rattle.std.specs.Prelude.{◌≡◌, ◌++◌, length, IfOk, IfSome, OnOk, All, IsSome};
ghost use Rattle.path_exec.specs.Ending.{AreEndsOf};

use crate::walker::Walker;
use bv_terms::node::TermId;
use odr_list::list::List;
use odr_list::memory::Memory;
use std::alloc::Global;

// Appends the registers of a thread.
fn add_registers(ends: &mut List<TermId>, registers: &[TermId; 32]) -> Result<(), Memory>
    ensures ends { OnOk result (ends.new ≡ ends.old ++ registers.now) }
    ensures count { length registers.now ≡ 32 }
{
    for number in 0..32 {
        ends.push(registers[number])?;
    }
    Ok(())
}

// Appends the registers of a thread that has begun.
fn add_thread(ends: &mut List<TermId>, walker: Option<Walker>) -> Result<(), Memory>
    requires { IsSome walker }
    ensures { OnOk result (IfSome walker (λ w. (ends.new ≡ ends.old ++ w.registers) × (length w.registers ≡ 32))) }
{
    match walker {
        Some(walker) => add_registers(ends, &walker.registers),
        None => unreachable!(),
    }
}

/// The registers of threads, one thread after the other.
pub fn ends_of(alloc: Global, walkers: &[Option<Walker>]) -> Result<List<TermId>, Memory>
    requires { All IsSome walkers.now }
    ensures { IfOk result (AreEndsOf walkers.now) }
{
    let mut ends = List::new(alloc);
    for thread in 0..walkers.len() {
        add_thread(&mut ends, walkers[thread])?;
    }
    Ok(ends)
}
