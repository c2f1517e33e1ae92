//! What holds of the instruction table as a whole. These functions do nothing: what they ensure is proved.
ghost use Rattle.rv32_decode.specs.Laws.{AtMostOneRowFits, InstructionsFitRows, NoTwoWordsAreOneInstruction, RowThatFitsIsRead};

/// Rows of the table that fit a word stand at one place.
pub fn at_most_one_row_fits()
    ensures { AtMostOneRowFits }
{}

/// A word is the instruction that the row which it fits reads, and no instruction where it fits no row.
pub fn row_that_fits_is_read()
    ensures read { RowThatFitsIsRead }
    ensures only { InstructionsFitRows }
{}

/// No two words are one instruction, so an instruction has one word at most.
pub fn no_two_words_are_one_instruction()
    ensures { NoTwoWordsAreOneInstruction }
{}
