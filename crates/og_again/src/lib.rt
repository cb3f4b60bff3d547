//! A printed text can be given to a replay: with the same image it prints the same text, with the same end.
//!
//! Below stand the replay from its files to its printed text (`og_print`), what is claimed of a printed run (`og_headline`), and the law
//! that a run's text is in the ranges of the grammar (`og_ranges`). `specs/Again` says what a printed text is and how its replay ends.
//! A run is a function of its choices, and its events have one order by stamps; so the run that a replay makes of the choices in a text
//! is the run of that text (`proofs/Unique`), and it is read as that run since its numbers are in their ranges.
//!
//! There is no code to run: each function is a law, its contract, with an empty body.
#![tactic(auto)]

ghost use Rattle.og_again.specs.Laws.{RunsReplay, ReplaysAreUnique, TextsAreRead, SimulationsPrintTexts, TextsReplay};

/// A printed run is the replay of its own choices, and no other run is.
pub fn replays_are_unique()
    ensures replay { RunsReplay }
    ensures unique { ReplaysAreUnique }
{}

/// What is read of a printed text is its run's settings, choices and notes, and no line of it is outside the grammar. And what a
/// simulation writes is a printed text.
pub fn printed_texts_are_read()
    ensures read { TextsAreRead }
    ensures simulated { SimulationsPrintTexts }
{}

/// A replay of a printed text, with the image that it was printed of, prints the same text with the same end, where the settings that the
/// words give don't differ from the text's; unless a file can't be read, the sink fails, memory is wanting, or the text is too long for a
/// choices file.
pub fn printed_texts_replay()
    ensures { TextsReplay }
{}
