//! Why a run isn't printed.

use og_base::NoMemory;
use og_driver::Unmade;
use og_load::{ChoiceFault, ImageFault, Unused};

/// Why a run isn't printed.
#[derive(Clone, Copy, PartialEq, Eq, Debug)]
pub enum RunFault {
    /// The image file couldn't be read.
    Unread,
    /// The choices file couldn't be read.
    ChoicesUnread,
    /// The image is refused.
    Image(ImageFault),
    /// The choices are refused.
    Choices(ChoiceFault),
    /// Want of memory.
    Memory,
    /// The text couldn't be written.
    Unwritten,
}

impl From<NoMemory> for RunFault {
    ghost use Rattle.std.specs.Prelude.{◌≡◌};
    ghost use Rattle.og_print.specs.declared.fault.RunFault.TheVariants.{Memory};

    ghost from_gives = { λ _ fault. fault ≡ Memory };

    fn from(_: NoMemory) -> RunFault {
        RunFault::Memory
    }
}

impl From<Unused<ImageFault>> for RunFault {
    ghost use Rattle.std.specs.Prelude.{◌≡◌};
    ghost use Rattle.og_print.specs.Runs.{image_unused};

    ghost from_gives = { λ unused fault. fault ≡ image_unused unused };

    fn from(unused: Unused<ImageFault>) -> RunFault {
        match unused {
            Unused::Unread => RunFault::Unread,
            Unused::Fault(fault) => RunFault::Image(fault),
            Unused::Memory => RunFault::Memory,
        }
    }
}

impl From<Unused<ChoiceFault>> for RunFault {
    ghost use Rattle.std.specs.Prelude.{◌≡◌};
    ghost use Rattle.og_print.specs.Runs.{choices_unused};

    ghost from_gives = { λ unused fault. fault ≡ choices_unused unused };

    fn from(unused: Unused<ChoiceFault>) -> RunFault {
        match unused {
            Unused::Unread => RunFault::ChoicesUnread,
            Unused::Fault(fault) => RunFault::Choices(fault),
            Unused::Memory => RunFault::Memory,
        }
    }
}
