//! Whether the instruction at an address is a guest call.

ghost use Rattle.std.specs.Prelude.{◌≡◌, ◌≢◌, Ok, IsTrue, IsFalse};
ghost use Rattle.rv32_decode.specs.declared.instr.Instr.{Instr};
ghost use Rattle.rv_model.specs.Step.{instr_at};

use elf_image::image::Image;
use rv32_decode::laws::no_two_words_are_one_instruction;

/// The word of a guest call.
const ECALL: u32 = 0x0000_0073;

/// Whether the instruction at an address is a guest call. One word alone is, so no word is decoded.
pub fn is_call(image: &Image, pc: u32) -> bool
    ensures call { IsTrue result → instr_at image.now pc ≡ Ok Instr.Ecall }
    ensures other { IsFalse result → instr_at image.now pc ≢ Ok Instr.Ecall }
{
    no_two_words_are_one_instruction();
    match image.fetch(pc) {
        None => false,
        Some(word) => word == ECALL,
    }
}
