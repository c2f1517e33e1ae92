//! The registers of a thread as terms.
ghost use Rattle.std.specs.Prelude.{◌≡◌, ◌<◌, slice_set, nat_eq, if◌then◌else◌};
ghost use Rattle.thread_terms.specs.Standing.{term_of};

use bv_terms::node::TermId;

/// The term of a register.
pub fn read(registers: &[TermId; 32], number: u8) -> TermId
    requires { number < 32 }
    ensures { result.number ≡ term_of registers.now number }
{
    registers[usize::from(number)]
}

/// Writes a register; a write to x0 is dropped.
pub fn write(registers: &mut [TermId; 32], number: u8, term: TermId)
    requires { number < 32 }
    ensures { registers.new ≡ (if nat_eq number 0 then registers.old else slice_set registers.old number term) }
{
    if number != 0 {
        registers[usize::from(number)] = term;
    }
}
