//! What holds of the images that the assembler writes, and of the texts that the printer writes.

ghost use Rattle.og_tools.specs.Images.{ImagesHoldTheirWords};
ghost use Rattle.og_tools.specs.Tools.{TextsAssemble};

/// The image of 1 to 245,760 words is a raw image, and has just these words and no data.
pub fn images_hold_their_words()
    ensures { ImagesHoldTheirWords }
{}

/// The text of the program in a raw image assembles to the words of that program.
pub fn texts_assemble()
    ensures { TextsAssemble }
{}
