//! Jobs: what words may ask for.

ghost use Rattle.std.specs.Prelude.{◌≤◌};
ghost use Rattle.std.specs.Option.{ForSome};

use og_base::Settings;

/// The settings that the words give: None where an option isn't chosen. Ranges are those of
/// [`Settings`].
#[derive(Clone, Copy, PartialEq, Eq, Debug)]
pub struct Given {
    pub nodes: Option<u32>,
    pub frames: Option<u32>,
    pub sets: Option<u32>,
    pub ways: Option<u32>,
    pub tlb: Option<u32>,
    pub instructions: Option<u32>,
    pub trigger: Option<u32>,
    pub sharing: Option<u32>,
    pub moves: Option<u32>,
    pub reset: Option<u32>,

    ghost nodes_in_range: { ForSome nodes (λ n. (1 ≤ n) × (n ≤ 128)) },
    ghost frames_in_range: { ForSome frames (λ n. (2 ≤ n) × (n ≤ 1024)) },
    ghost sets_in_range: { ForSome sets (λ n. (1 ≤ n) × (n ≤ 1024)) },
    ghost ways_in_range: { ForSome ways (λ n. (1 ≤ n) × (n ≤ 8)) },
    ghost tlb_in_range: { ForSome tlb (λ n. (1 ≤ n) × (n ≤ 64)) },
    ghost instructions_in_range: { ForSome instructions (λ n. n ≤ 1000000) },
    ghost trigger_in_range: { ForSome trigger (λ n. (1 ≤ n) × (n ≤ 1000000)) },
    ghost sharing_in_range: { ForSome sharing (λ n. (1 ≤ n) × (n ≤ 1000000)) },
    ghost moves_in_range: { ForSome moves (λ n. n ≤ 1000000) },
    ghost reset_in_range: { ForSome reset (λ n. (1 ≤ n) × (n ≤ 1000000)) },
}

/// What the words ask for. Each number is in the range of its option.
#[derive(Drop)]
pub enum Job {
    /// A run of at most `events` events, whose choices are drawn with the number `draw`.
    Simulate {
        image: String,
        raw: bool,
        settings: Settings,
        draw: u64,
        events: u32,
    },
    /// A run in threads of at most `rounds` rounds of `turns` turns of each actor.
    Run {
        image: String,
        raw: bool,
        settings: Settings,
        rounds: u32,
        turns: u32,
    },
    /// A run of the choices in a file. `given` are the settings that the words themselves give.
    Replay {
        image: String,
        choices: String,
        raw: bool,
        settings: Settings,
        given: Given,
    },
    /// A simulation of the storm of a number, of so many loops of each hart.
    Storm {
        number: u64,
        settings: Settings,
        loops: u16,
        events: u32,
    },
    /// The image of a source.
    Assemble {
        source: String,
    },
    /// The text of an image.
    Disassemble {
        image: String,
    },
}
