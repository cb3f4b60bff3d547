//! The one line on the standard error that tells an answer.

ghost use Rattle.std.specs.Prelude.{◌≡◌};
ghost use Rattle.og_io.specs.Outside.{parts_text};
ghost use Rattle.og_cli.specs.Exit.{cause_text, fault_text, refused_text, choice_line, choices_text, line_cause_text, source_text, name_of, error_line, IsReported};
ghost use Rattle.og_cli.specs.Names.{names_seen};

use crate::exit::{Exit, SourceFault, WordsFile};
use itoa::Buffer;
use og_base::NotEnabled;
use og_elf::ElfCause;
use og_io::{Sink, write_parts};
use og_load::{ChoiceFault, ImageFault};
use rv_asm::SourceCause;

/// Writes a line in parts; a failure changes nothing else.
fn report_parts<E: Sink>(parts: &[&[u8]], err: &mut E)
    ensures { IsReported (parts_text parts.now) (E.seen err.old) (E.seen err.new) }
{
    let _told = write_parts(err, parts);
}

/// The name of a cause.
fn cause_name(cause: ElfCause) -> &'static str
    ensures { result.now ≡ cause_text cause }
{
    match cause {
        ElfCause::NotElf => "NotElf",
        ElfCause::NotClass64 => "NotClass64",
        ElfCause::NotLittle => "NotLittle",
        ElfCause::NotExec => "NotExec",
        ElfCause::NotRiscv => "NotRiscv",
        ElfCause::HeaderOut => "HeaderOut",
        ElfCause::SegmentOut => "SegmentOut",
        ElfCause::Overlap => "Overlap",
        ElfCause::WritableText => "WritableText",
        ElfCause::NoEntry => "NoEntry",
        ElfCause::TooLarge => "TooLarge",
    }
}

/// Writes the fault of an ELF file, and where it is.
fn report_elf<E: Sink>(cause: ElfCause, at: u64, err: &mut E)
    ensures { IsReported (fault_text (ImageFault.Elf cause at)) (E.seen err.old) (E.seen err.new) }
{
    let mut buffer = Buffer::new();
    let offset = buffer.format(at).as_bytes();
    let name = cause_name(cause).as_bytes();
    report_parts(&[b"origin: image ", name, b" at ", offset, b"\n"], err);
}

/// Writes why an image is refused.
fn report_fault<E: Sink>(fault: ImageFault, err: &mut E)
    ensures { IsReported (fault_text fault) (E.seen err.old) (E.seen err.new) }
{
    match fault {
        ImageFault::Elf { cause, at } => report_elf(cause, at, err),
        ImageFault::Raw => report_parts(&[b"origin: image RawOut", b"\n"], err),
        ImageFault::TooLong => report_parts(&[b"origin: image TooLong", b"\n"], err),
        ImageFault::NoFrames { need, have } => {
            let mut first = Buffer::new();
            let mut second = Buffer::new();
            let need = first.format(need).as_bytes();
            let have = second.format(have).as_bytes();
            report_parts(
                &[
                    b"origin: image NoFrames need ",
                    need,
                    b" have ",
                    have,
                    b"\n",
                ],
                err,
            );
        }
    }
}

/// The name of why a choice isn't enabled.
fn refusal_name(why: NotEnabled) -> &'static str
    ensures { result.now ≡ refused_text why }
{
    match why {
        NotEnabled::NoActor => "NoActor",
        NotEnabled::Stopped => "Stopped",
        NotEnabled::Outstanding => "Outstanding",
        NotEnabled::VictimBusy => "VictimBusy",
        NotEnabled::NothingToDo => "NothingToDo",
        NotEnabled::NoMessage => "NoMessage",
    }
}

/// Writes which line of a choices file it is, and why.
fn report_choice<E: Sink>(number: u64, why: &str, err: &mut E)
    ensures { IsReported (choice_line number why.now) (E.seen err.old) (E.seen err.new) }
{
    let mut buffer = Buffer::new();
    let line = buffer.format(number).as_bytes();
    let why = why.as_bytes();
    report_parts(&[b"origin: choices line ", line, b" ", why, b"\n"], err);
}

/// Writes why choices are refused.
fn report_choices<E: Sink>(fault: ChoiceFault, err: &mut E)
    ensures { IsReported (choices_text fault) (E.seen err.old) (E.seen err.new) }
{
    match fault {
        ChoiceFault::Grammar { line } => report_choice(line, "Grammar", err),
        ChoiceFault::Settings => report_choice(1, "Settings", err),
        ChoiceFault::Refused { line, cause } => report_choice(line, refusal_name(cause), err),
        ChoiceFault::TooLong => report_parts(&[b"origin: choices TooLong", b"\n"], err),
    }
}

/// The name of why a line of a source isn't taken.
fn line_cause_name(cause: SourceCause) -> &'static str
    ensures { result.now ≡ line_cause_text cause }
{
    match cause {
        SourceCause::Syntax => "Syntax",
        SourceCause::Name => "Name",
        SourceCause::Operands => "Operands",
        SourceCause::Register => "Register",
        SourceCause::Twice => "Twice",
        SourceCause::Label => "Label",
        SourceCause::Range => "Range",
        SourceCause::Size => "Size",
    }
}

/// Writes which line of a source isn't taken, and why.
fn report_line<E: Sink>(number: u64, cause: SourceCause, err: &mut E)
    ensures { IsReported (source_text (SourceFault.Line number cause)) (E.seen err.old) (E.seen err.new) }
{
    let mut buffer = Buffer::new();
    let line = buffer.format(number).as_bytes();
    let name = line_cause_name(cause).as_bytes();
    report_parts(&[b"origin: source line ", line, b" ", name, b"\n"], err);
}

/// Writes why a source isn't assembled.
fn report_source<E: Sink>(fault: SourceFault, err: &mut E)
    ensures { IsReported (source_text fault) (E.seen err.old) (E.seen err.new) }
{
    match fault {
        SourceFault::Line { number, cause } => report_line(number, cause, err),
        SourceFault::TooLong => report_parts(&[b"origin: source TooLong", b"\n"], err),
    }
}

/// The names of the files that the words give, empty where there is none.
#[derive(Clone, Copy)]
pub struct Names<'a> {
    pub first: &'a str,
    pub choices: &'a str,
}

/// Writes the one line that tells the answer.
pub fn report<E: Sink>(exit: &Exit, names: &Names<'_>, err: &mut E)
    ensures { IsReported (error_line (names_seen names.now) exit.now) (E.seen err.old) (E.seen err.new) }
{
    match *exit {
        Exit::Words => report_parts(&[b"origin: words", b"\n"], err),
        Exit::ShelfFault(file) => {
            let name = name_in(names, file).as_bytes();
            report_parts(&[b"origin: cannot read ", name, b"\n"], err);
        }
        Exit::Image(fault) => report_fault(fault, err),
        Exit::Choices(fault) => report_choices(fault, err),
        Exit::Source(fault) => report_source(fault, err),
        Exit::Memory => report_parts(&[b"origin: memory", b"\n"], err),
        Exit::SinkFault => report_parts(&[b"origin: cannot write", b"\n"], err),
        Exit::Limit | Exit::Done | Exit::Quiet => {}
    }
}

/// The name of one of the files.
fn name_in<'a>(names: &Names<'a>, file: WordsFile) -> &'a str
    ensures { result.now ≡ name_of (names_seen names.now) file }
{
    match file {
        WordsFile::First => names.first,
        WordsFile::Choices => names.choices,
    }
}
