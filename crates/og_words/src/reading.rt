//! From word to word: which options were chosen, and which words are the command's own.

ghost use Rattle.std.specs.Prelude.{◌≡◌, true, false, option_map, MatchOption};
ghost use Rattle.std.specs.List.{list_any, before_first, after_first};
ghost use Rattle.og_io.specs.Outside.{texts};
ghost use Rattle.og_words.specs.Words.{begins_with_dash as has_dash, begins_with_dashes as has_dashes, is_equals, new_option as option_new, take_word, take_value as value_taken, take_own as own_taken, take_free as free_taken, take_option as option_taken, take_pair as pair_taken, take_raw as raw_taken, take_name as name_taken, with_option as option_added, read_from, nothing_read, value_of as value_in, with_value as value_added};
ghost use Rattle.og_words.specs.Reading.{reading_seen, chosen_seen, word_seen};

use crate::command::{Command, Named, option_of};

/// The values of the options that were chosen.
#[derive(Clone, Copy)]
pub(crate) struct Chosen<'a> {
    nodes: Option<&'a str>,
    frames: Option<&'a str>,
    sets: Option<&'a str>,
    ways: Option<&'a str>,
    tlb: Option<&'a str>,
    instructions: Option<&'a str>,
    trigger: Option<&'a str>,
    sharing: Option<&'a str>,
    moves: Option<&'a str>,
    reset: Option<&'a str>,
    draw: Option<&'a str>,
    events: Option<&'a str>,
    loops: Option<&'a str>,
    rounds: Option<&'a str>,
    turns: Option<&'a str>,
}

const NOTHING: Chosen<'static> = Chosen {
    nodes: None,
    frames: None,
    sets: None,
    ways: None,
    tlb: None,
    instructions: None,
    trigger: None,
    sharing: None,
    moves: None,
    reset: None,
    draw: None,
    events: None,
    loops: None,
    rounds: None,
    turns: None,
};

/// What the words so far gave.
#[derive(Clone, Copy)]
pub(crate) struct Reading<'a> {
    pub raw: bool,
    pub chosen: Chosen<'a>,
    pub first: Option<&'a str>,
    pub second: Option<&'a str>,
    pub waiting: Option<Named>,
}

fn begins_with_dash(word: &str) -> bool
    ensures { result ≡ has_dash word.now }
{
    matches!(word.as_bytes(), [b'-', ..])
}

fn begins_with_dashes(word: &str) -> bool
    ensures { result ≡ has_dashes word.now }
{
    matches!(word.as_bytes(), [b'-', b'-', ..])
}

/// What stands before the first `=` of a word, and what after it, if there is one.
fn split_pair(word: &str) -> Option<(&str, &str)>
    ensures { MatchOption result (list_any is_equals word.now ≡ false) (λ p.
        (list_any is_equals word.now ≡ true) × (p.0.now ≡ before_first is_equals word.now) × (p.1.now ≡ after_first is_equals word.now)) }
{
    word.split_once('=')
}

impl<'a> Chosen<'a> {
    /// The value of an option, if it was chosen.
    pub(crate) fn value_of(&self, option: Named) -> Option<&'a str>
        ensures { word_seen result ≡ value_in option (chosen_seen self.now) }
    {
        match option {
            Named::Nodes => self.nodes,
            Named::Frames => self.frames,
            Named::Sets => self.sets,
            Named::Ways => self.ways,
            Named::Tlb => self.tlb,
            Named::Instructions => self.instructions,
            Named::Trigger => self.trigger,
            Named::Sharing => self.sharing,
            Named::Moves => self.moves,
            Named::Reset => self.reset,
            Named::Draw => self.draw,
            Named::Events => self.events,
            Named::Loops => self.loops,
            Named::Rounds => self.rounds,
            Named::Turns => self.turns,
        }
    }

    /// With the value of one option more.
    fn with_value(self, option: Named, value: &'a str) -> Chosen<'a>
        ensures { chosen_seen result ≡ value_added option value.now (chosen_seen self.entry) }
    {
        let mut chosen = self;
        match option {
            Named::Nodes => chosen.nodes = Some(value),
            Named::Frames => chosen.frames = Some(value),
            Named::Sets => chosen.sets = Some(value),
            Named::Ways => chosen.ways = Some(value),
            Named::Tlb => chosen.tlb = Some(value),
            Named::Instructions => chosen.instructions = Some(value),
            Named::Trigger => chosen.trigger = Some(value),
            Named::Sharing => chosen.sharing = Some(value),
            Named::Moves => chosen.moves = Some(value),
            Named::Reset => chosen.reset = Some(value),
            Named::Draw => chosen.draw = Some(value),
            Named::Events => chosen.events = Some(value),
            Named::Loops => chosen.loops = Some(value),
            Named::Rounds => chosen.rounds = Some(value),
            Named::Turns => chosen.turns = Some(value),
        }
        chosen
    }

    /// The option of this name, which the command has and which wasn't chosen before.
    fn new_option(&self, command: Command, name: &str) -> Option<Named>
        ensures { result ≡ option_new command name.now (chosen_seen self.now) }
    {
        let option = option_of(name)?;
        if command.has_option(option) && self.value_of(option).is_none() {
            Some(option)
        } else {
            None
        }
    }
}

impl<'a> Reading<'a> {
    /// With the value of one option more, and none that waits.
    fn with_option(self, option: Named, value: &'a str) -> Reading<'a>
        ensures { reading_seen result ≡ option_added option value.now (reading_seen self.entry) }
    {
        Reading {
            chosen: self.chosen.with_value(option, value),
            waiting: None,
            ..self
        }
    }

    /// After `--name=value`.
    fn take_pair(self, command: Command, name: &str, value: &'a str) -> Option<Reading<'a>>
        ensures { option_map reading_seen result ≡ pair_taken command name.now value.now (reading_seen self.entry) }
    {
        let option = self.chosen.new_option(command, name)?;
        Some(self.with_option(option, value))
    }

    /// After `--raw`.
    fn take_raw(self, command: Command) -> Option<Reading<'a>>
        ensures { option_map reading_seen result ≡ raw_taken command (reading_seen self.entry) }
    {
        if command.has_raw() && !self.raw {
            Some(Reading { raw: true, ..self })
        } else {
            None
        }
    }

    /// After `--name`, whose value comes next.
    fn take_name(self, command: Command, name: &str) -> Option<Reading<'a>>
        ensures { option_map reading_seen result ≡ name_taken command name.now (reading_seen self.entry) }
    {
        let option = self.chosen.new_option(command, name)?;
        Some(Reading {
            waiting: Some(option),
            ..self
        })
    }

    /// After a word that begins with `--`.
    fn take_option(self, command: Command, word: &'a str) -> Option<Reading<'a>>
        ensures { option_map reading_seen result ≡ option_taken command word.now (reading_seen self.entry) }
    {
        match split_pair(word) {
            Some((name, value)) => self.take_pair(command, name, value),
            None if word == "--raw" => self.take_raw(command),
            None => self.take_name(command, word),
        }
    }

    /// After the value of the option that waits.
    fn take_value(self, option: Named, word: &'a str) -> Option<Reading<'a>>
        ensures { option_map reading_seen result ≡ value_taken option word.now (reading_seen self.entry) }
    {
        if begins_with_dash(word) {
            return None;
        }
        Some(self.with_option(option, word))
    }

    /// After one of the command's own words.
    fn take_own(self, word: &'a str) -> Option<Reading<'a>>
        ensures { option_map reading_seen result ≡ own_taken word.now (reading_seen self.entry) }
    {
        if self.first.is_none() {
            Some(Reading {
                first: Some(word),
                ..self
            })
        } else if self.second.is_none() {
            Some(Reading {
                second: Some(word),
                ..self
            })
        } else {
            None
        }
    }

    /// After a word where no option waits.
    fn take_free(self, command: Command, word: &'a str) -> Option<Reading<'a>>
        ensures { option_map reading_seen result ≡ free_taken command word.now (reading_seen self.entry) }
    {
        if begins_with_dashes(word) {
            self.take_option(command, word)
        } else if begins_with_dash(word) {
            None
        } else {
            self.take_own(word)
        }
    }

    /// After one word more.
    fn take_word(self, command: Command, word: &'a str) -> Option<Reading<'a>>
        ensures { option_map reading_seen result ≡ take_word command word.now (reading_seen self.entry) }
    {
        match self.waiting {
            Some(option) => self.take_value(option, word),
            None => self.take_free(command, word),
        }
    }
}

/// What the words after the command give: None where one of them is refused.
pub(crate) fn read(command: Command, words: &[String]) -> Option<Reading<'_>>
    ensures { option_map reading_seen result ≡ read_from command (texts words.now) nothing_read }
{
    let mut reading = Reading {
        raw: false,
        chosen: NOTHING,
        first: None,
        second: None,
        waiting: None,
    };
    for word in words {
        reading = reading.take_word(command, word.as_str())?;
    }
    Some(reading)
}
