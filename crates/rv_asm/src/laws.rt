//! The laws that hold between the assembler and the printer.

ghost use Rattle.rv_asm.specs.Laws.{PrintedAssembles, WordsDecode};

/// What is printed of 1 to 245,760 words assembles to the same words.
pub fn printed_assembles()
    ensures { PrintedAssembles }
{}

/// The word of an instruction, with registers that its form has and a number in its range, decodes to
/// that instruction.
pub fn words_decode()
    ensures { WordsDecode }
{}
