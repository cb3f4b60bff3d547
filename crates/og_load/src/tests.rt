//! Files of images and of choices, in memory.

ghost use Rattle.std.specs.Prelude.{◌≤◌};
ghost use Rattle.std.specs.Option.{ForSome};

use crate::{ChoiceFault, ImageFault, Unused, load_choices, load_program};
use og_base::Settings;
use og_elf::ElfCause;
use og_io::memory::MemoryShelf;
use og_words::Given;
use std::alloc::{AllocError, Global};
use std::test::Fail;

// The shortest raw program.
const RAW: [u8; 8] = [4, 0, 0, 0, 0x73, 0, 0, 0];

// A shelf with one file, `f`.
fn shelf_of(alloc: Global, bytes: &[u8]) -> Result<MemoryShelf, AllocError> {
    let mut shelf = MemoryShelf::make(alloc, Vec::new(alloc));
    shelf.put(String::from_str(alloc, "f")?, bytes.to_vec(alloc)?)?;
    Ok(shelf)
}

fn settings_of(nodes: u8) -> Settings
    requires { (1 ≤ nodes) × (nodes ≤ 128) }
{
    Settings {
        nodes,
        frames: 64,
        sets: 64,
        ways: 2,
        tlb: 8,
        instructions: 1_000_000,
        trigger: 64,
        sharing: 32,
        moves: 4,
        reset: 1024,
    }
}

fn given_of(nodes: Option<u32>) -> Given
    requires { ForSome nodes (λ n. (1 ≤ n) × (n ≤ 128)) }
{
    Given {
        nodes,
        frames: None,
        sets: None,
        ways: None,
        tlb: None,
        instructions: None,
        trigger: None,
        sharing: None,
        moves: None,
        reset: None,
    }
}

#[test]
fn a_program_is_loaded_or_its_fault_told(rt: HostRuntime) -> Result<(), Fail> {
    let alloc = rt.alloc();
    let mut shelf = shelf_of(alloc, &RAW)?;
    let program = load_program(alloc, &mut shelf, "f", true);
    assert!(rt; program.is_ok_and(|program| program.entry == 0x10000));
    let table = [
        (
            "f",
            false,
            Unused::Fault(ImageFault::Elf {
                cause: ElfCause::NotElf,
                at: 0,
            }),
        ),
        ("g", true, Unused::Unread),
    ];
    for (name, raw, expected) in table {
        let loaded = load_program(alloc, &mut shelf, name, raw);
        assert_eq!(rt; loaded.err(), Some(expected));
    }
    let mut shelf = shelf_of(alloc, &RAW[..7])?;
    let loaded = load_program(alloc, &mut shelf, "f", true);
    assert_eq!(rt; loaded.err(), Some(Unused::Fault(ImageFault::Raw)));
    Ok(())
}

#[test]
fn choices_are_loaded_with_their_settings(rt: HostRuntime) -> Result<(), Fail> {
    let alloc = rt.alloc();
    let text = b"origin 2 2 64 64 2 8 1000000 64 32 4 1024\nact 1\nat 1 1 spent\ntake 0 1 0\n";
    let mut shelf = shelf_of(alloc, text.as_slice())?;
    for given in [None, Some(2)] {
        let words = settings_of(1);
        match load_choices(alloc, &mut shelf, "f", &words, &given_of(given)) {
            Ok(loaded) => {
                assert_eq!(rt; loaded.settings, settings_of(2));
                assert_eq!(rt; loaded.choices.as_slice().len(), 2);
                assert_eq!(rt; loaded.lines.as_slice(), [2, 4].as_slice());
            }
            Err(_) => assert!(rt; false),
        }
    }
    Ok(())
}

#[test]
fn a_fault_of_choices_is_told(rt: HostRuntime) -> Result<(), Fail> {
    let alloc = rt.alloc();
    let words = settings_of(3);
    let given = given_of(Some(3));
    let table: [(&[u8], ChoiceFault); 3] = [
        (b"act 0\nact 01\n", ChoiceFault::Grammar { line: 2 }),
        (
            b"origin 2 2 64 64 2 8 1000000 64 32 4 1024\n",
            ChoiceFault::Settings,
        ),
        (
            b"origin 2 0 64 64 2 8 1000000 64 32 4 1024\n",
            ChoiceFault::Grammar { line: 1 },
        ),
    ];
    for (text, fault) in table {
        let mut shelf = shelf_of(alloc, text)?;
        let loaded = load_choices(alloc, &mut shelf, "f", &words, &given);
        assert_eq!(rt; loaded.err(), Some(Unused::Fault(fault)));
    }
    let mut shelf = shelf_of(alloc, b"act 0\n")?;
    let loaded = load_choices(alloc, &mut shelf, "f", &words, &given);
    assert!(rt; loaded.is_ok_and(|loaded| loaded.settings == words));
    Ok(())
}
