//! What holds of the text of every instruction. The function does nothing: what it ensures is proved.
ghost use Rattle.rv32_text.specs.Laws.{TextIsAssembled, FileHasWord};

use rv32_decode::laws::no_two_words_are_one_instruction;

/// Assembling the text of a valid instruction, as one line, gives its word and nothing else.
pub fn text_is_assembled()
    ensures program { TextIsAssembled }
    ensures word { FileHasWord }
{
    no_two_words_are_one_instruction();
}
