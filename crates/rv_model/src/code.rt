//! The instruction at an address.

ghost use Rattle.std.specs.Prelude.{◌≡◌, IfOk};
ghost use Rattle.rv32_decode.specs.Valid.{IsValid};
ghost use Rattle.rv_model.specs.Step.{instr_at};

use elf_image::image::Image;
use odr_log::log::Cause;
use rv32_decode::decode;
use rv32_decode::instr::Instr;

/// The instruction at an address, or why there is none: `FetchFault` or `Illegal`.
#[tactic(auto, unfolding(crate::specs::Step::instr_at))]
pub fn instr_at(image: &Image, pc: u32) -> Result<Instr, Cause>
    ensures value { result ≡ instr_at image.now pc }
    ensures valid { IfOk result IsValid }
{
    match image.fetch(pc) {
        None => Err(Cause::FetchFault),
        Some(word) => match decode(word) {
            None => Err(Cause::Illegal),
            Some(instr) => Ok(instr),
        },
    }
}
