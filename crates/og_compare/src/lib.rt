//! Examples compared with what is stored of them.
//!
//! Below stands the command; above stand programs that name examples. Of an example there are the files
//! `NAME.asm`, its source, `NAME.raw`, the image, and `NAME.out`, the text. An example that is named as
//! `NAME.elf` has its image in that file, in ELF, and in `NAME.hex` its bytes in hexadecimal digits with
//! comments. `NAME.words` has the further words of its run, where there are any. The source is assembled and
//! the image run through the command, and what is found is written, a line for each example. Reading the
//! files has no contract; what is found of them has (`compare`).
#![tactic(auto)]

ghost use Rattle.std.specs.Prelude.{◌≡◌, ◌≢◌, ◌↔◌};

use og_cli::exit::Exit;
use og_cli::top::origin_alone;
use og_io::memory::MemorySink;
use og_io::real::FileShelf;
use std::alloc::Global;
use std::{env, fmt, fs, io};

/// How an example compares with its files.
#[derive(Drop)]
pub enum Finding {
    AsStored,
    OtherBytes,
    OtherEnd,
    OtherText,
    Unread(io::Error),
}

impl fmt::Display for Finding {
    fn fmt<W: fmt::Write>(&self, f: &mut fmt::Formatter<W>) -> fmt::Result {
        match self {
            Finding::AsStored => f.write_str("as stored"),
            Finding::OtherBytes => f.write_str("its image isn't that of its source"),
            Finding::OtherEnd => f.write_str("it doesn't end quiet"),
            Finding::OtherText => f.write_str("it prints another text"),
            Finding::Unread(_) => f.write_str("its files can't be read"),
        }
    }
}

/// Compares the examples that the program's arguments name, in the folder where it runs. Writes a line
/// for each, and says whether all are as stored.
pub fn check_arguments(rt: &HostRuntime) -> io::Result<bool> {
    let mut all = true;
    for name in env::args(rt)?.skip(1) {
        let finding = check(rt, name.as_str()).unwrap_or_else(|error| Finding::Unread(error));
        println!(rt; "{name}: {finding}")?;
        all = all && matches!(&finding, Finding::AsStored);
    }
    Ok(all)
}

/// Reads an example's files, runs its image, and compares.
fn check(rt: &HostRuntime, name: &str) -> io::Result<Finding> {
    let alloc = rt.alloc();
    let (stem, ending) = match name.split_once('.') {
        Some((stem, ending)) => (stem, ending),
        None => (name, "raw"),
    };
    let file = format!(in alloc; "{stem}.{ending}")?;
    let image = fs::read(rt, file.as_str())?;
    let text = fs::read(rt, format!(in alloc; "{stem}.out")?.as_str())?;
    let bytes = bytes_of(rt, stem, ending)?;
    let mut out = MemorySink::make(alloc, 65_536, Vec::new(alloc));
    let words = words_of(rt, stem)?;
    let exit = run(rt, file, ending == "raw", words.as_str(), &mut out)?;
    Ok(compare(&bytes, &image, exit, out.held(), &text))
}

/// An example is as stored exactly where its image is that of its source, its run ends quiet, and what
/// is printed is the stored text; else it is told which of these fails, the first in this order.
pub fn compare(bytes: &[u8], image: &[u8], exit: Exit, printed: &[u8], text: &[u8]) -> Finding
    ensures as_stored { result ≡ Finding.AsStored ↔ ((bytes.now ≡ image.now) × (exit ≡ Exit.Quiet) × (printed.now ≡ text.now)) }
    ensures other_bytes { result ≡ Finding.OtherBytes ↔ (bytes.now ≢ image.now) }
    ensures other_end { result ≡ Finding.OtherEnd ↔ ((bytes.now ≡ image.now) × (exit ≢ Exit.Quiet)) }
    ensures other_text { result ≡ Finding.OtherText ↔ ((bytes.now ≡ image.now) × (exit ≡ Exit.Quiet) × (printed.now ≢ text.now)) }
{
    if bytes != image {
        Finding::OtherBytes
    } else if exit != Exit::Quiet {
        Finding::OtherEnd
    } else if printed != text {
        Finding::OtherText
    } else {
        Finding::AsStored
    }
}

/// The further words of an example's run; none where no file has them.
fn words_of(rt: &HostRuntime, stem: &str) -> io::Result<String> {
    let alloc = rt.alloc();
    let file = format!(in alloc; "{stem}.words")?;
    match fs::read_to_string(rt, file.as_str()) {
        Ok(words) => Ok(words),
        Err(error) if error.kind() == io::ErrorKind::NotFound => Ok(String::new(alloc)),
        Err(error) => Err(error),
    }
}

/// Runs an image, a raw one or one in ELF, with further words.
fn run(
    rt: &HostRuntime,
    image: String,
    is_raw: bool,
    further: &str,
    out: &mut MemorySink,
) -> io::Result<Exit> {
    let alloc = rt.alloc();
    let mut words = vec![in alloc; String::from_str(alloc, "simulate")?, image]?;
    if is_raw {
        words.push(String::from_str(alloc, "--raw")?)?;
    }
    for word in further.split_whitespace() {
        words.push(String::from_str(alloc, word)?)?;
    }
    Ok(command(rt, &words, out))
}

/// Does what the words ask for, over the files of the system.
fn command(rt: &HostRuntime, words: &[String], out: &mut MemorySink) -> Exit {
    let alloc = rt.alloc();
    let mut shelf = FileShelf::make(rt, alloc);
    let mut err = MemorySink::make(alloc, 65_536, Vec::new(alloc));
    origin_alone(alloc, words, &mut shelf, out, &mut err)
}

/// The bytes that an example's source says: those to which it assembles, or for an image in ELF those that
/// it writes in digits.
fn bytes_of(rt: &HostRuntime, stem: &str, ending: &str) -> io::Result<Vec<u8>> {
    let alloc = rt.alloc();
    if ending == "raw" {
        assembled(rt, format!(in alloc; "{stem}.asm")?)
    } else {
        let digits = fs::read_to_string(rt, format!(in alloc; "{stem}.hex")?.as_str())?;
        written(alloc, digits.as_str())
    }
}

/// The image of the source in the file of this name.
fn assembled(rt: &HostRuntime, source: String) -> io::Result<Vec<u8>> {
    let alloc = rt.alloc();
    let words = vec![in alloc; String::from_str(alloc, "assemble")?, source]?;
    let mut image = MemorySink::make(alloc, 65_536, Vec::new(alloc));
    match command(rt, &words, &mut image) {
        Exit::Done => Ok(image.held().to_vec(alloc)?),
        _ => Err(io::Error::from(io::ErrorKind::InvalidData)),
    }
}

/// The bytes that a text writes: hexadecimal digits, with comments from `#` to the end of a line.
fn written(alloc: Global, text: &str) -> io::Result<Vec<u8>> {
    let mut digits = String::new(alloc);
    for line in text.lines() {
        let code = line.split('#').next().unwrap_or("");
        digits.push_str(code.trim())?;
    }
    hex::decode(alloc, digits.as_str()).map_err(|_| io::Error::from(io::ErrorKind::InvalidData))
}
