//! Which load-reserved a store-conditional looks back to.
ghost use Rattle.std.specs.Prelude.{◌≡◌};
ghost use Rattle.path_exec.specs.Links.{link_after};

use rv32_decode::instr::Instr;

/// What is known of the last load-reserved after an instruction, which is the access with this number if it is one.
#[tactic(auto, unfolding(walk_facts::specs::Links::link_after))]
pub fn link_after(instr: &Instr, number: u32, link: Option<u32>) -> Option<u32>
    ensures { result ≡ link_after instr.now number link }
{
    match instr {
        Instr::LoadReserved { .. } => Some(number),
        Instr::StoreConditional { .. } => None,
        _ => link,
    }
}
