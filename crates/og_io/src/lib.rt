//! The outside: a shelf that gives files and a sink that takes bytes, as traits, so that a test can
//! stand in for files and streams.
//!
//! It stands on nothing of the machine; the command stands above. `memory` has a shelf and a sink for
//! tests, `real` the system's files and a sink over a writer. A text is written in pieces of at most
//! 65,536 bytes, and writing takes no memory of its own.
//!
//! What the real ones read and write no contract can say. So a shelf says what its files are only
//! where it tells them, and a sink what it holds only where it tells it. A fault is never free: a
//! shelf keeps the names that it failed at, and a sink counts its faults.
#![tactic(auto)]

ghost use Rattle.std.specs.Prelude.{◌≡◌, ◌≢◌, ℕ, ◌≤◌, List, [], length, take, Option, Ok, Err, OnOk, OnErr, IfOk, vec_len};
ghost use Rattle.og_io.specs.Outside.{ShelfState, SinkState, HasFile, HasLongFile, TellsLongFile, AddsName, AddsAtMost, appended, AppendsPrefix, Rises, texts, parts_text};

use std::alloc::{AllocError, Global};

pub mod memory;
pub mod real;

/// Why a shelf gives no file.
#[derive(Clone, Copy, PartialEq, Eq, Debug)]
pub enum ShelfFault {
    /// The file could not be read. Its name is among the failed ones.
    Failed,
    /// The file has more bytes than the limit.
    TooLong,
    /// Want of memory.
    Memory,
}

/// Why a sink takes nothing.
#[derive(Clone, Copy, PartialEq, Eq, Debug)]
pub enum SinkFault {
    /// It could not write. Its count of faults rose.
    Failed,
    /// Want of memory. Its count of wants rose.
    Memory,
}

/// Files by their names.
pub trait Shelf {
    // its files, where they are told, and the names whose fetch failed, in their order
    ghost seen: { Self → ShelfState };

    /// The bytes of the file with this name, at most `limit`.
    fn fetch(&mut self, alloc: Global, name: &str, limit: u64) -> Result<Vec<u8>, ShelfFault>
        ensures unchanged { (seen self.new).files ≡ (seen self.old).files }
        ensures failed_grows { AddsAtMost name.now (seen self.old).failed (seen self.new).failed }
        ensures bytes { IfOk result (λ bytes. HasFile (seen self.old).files name.now bytes.items) }
        ensures within { IfOk result (λ bytes. vec_len bytes ≤ limit) }
        ensures added { result ≡ Err ShelfFault.Failed → AddsName name.now (seen self.old).failed (seen self.new).failed }
        ensures too_long { result ≡ Err ShelfFault.TooLong → HasLongFile (seen self.old).files name.now limit }

        // A file that is told to be too long is told so, whatever the memory.
        ensures long { TellsLongFile (seen self.old).files name.now limit → result ≢ Err ShelfFault.Failed → result ≡ Err ShelfFault.TooLong }
        ensures kept { result ≢ Err ShelfFault.Failed → (seen self.new).failed ≡ (seen self.old).failed };
}

impl From<AllocError> for ShelfFault {
    ghost use Rattle.std.specs.Prelude.{◌≡◌};
    ghost use Rattle.og_io.specs.declared.ShelfFault.TheVariants.{Memory};

    ghost from_gives = { λ _ e. e ≡ Memory };

    fn from(_e: AllocError) -> ShelfFault {
        ShelfFault::Memory
    }
}

/// Keeps a name.
fn keep_name(names: &mut Vec<String>, alloc: Global, name: &str) -> Result<(), AllocError>
    ensures kept { OnOk result (AddsName name.now (texts names.old.items) (texts names.new.items)) }
    ensures unchanged { OnErr result (texts names.new.items ≡ texts names.old.items) }
{
    names.push(String::from_str(alloc, name)?)?;
    Ok(())
}

/// Keeps the name of a file that could not be read, and says what the fault is.
fn name_fault(names: &mut Vec<String>, alloc: Global, name: &str) -> ShelfFault
    ensures kept { result ≡ ShelfFault.Failed → AddsName name.now (texts names.old.items) (texts names.new.items) }
    ensures unchanged { result ≢ ShelfFault.Failed → texts names.new.items ≡ texts names.old.items }
    ensures short { result ≢ ShelfFault.TooLong }
{
    match keep_name(names, alloc, name) {
        Ok(()) => ShelfFault::Failed,
        Err(_) => ShelfFault::Memory,
    }
}

/// What takes bytes, and may take fewer than it is given.
pub trait Sink {
    // the bytes that it holds, where they are told, and how often it failed to write and wanted memory
    ghost seen: { Self → SinkState };

    /// Takes some first bytes of the piece, at least one unless it is empty, and says how many.
    fn write(&mut self, piece: &[u8]) -> Result<usize, SinkFault>
        ensures empty { piece.now ≡ [] → (result ≡ Ok 0) × (seen self.new ≡ seen self.old) }
        ensures taken { IfOk result (λ n. n ≤ length piece.now) }
        ensures at_least_one { piece.now ≢ [] → IfOk result (λ n. 1 ≤ n) }
        ensures appends { IfOk result (λ n. (seen self.new).held ≡ appended (seen self.old).held (take n piece.now)) }
        ensures nothing { OnErr result ((seen self.new).held ≡ (seen self.old).held) }
        ensures fault { result ≡ Err SinkFault.Failed → Rises (seen self.old).faults (seen self.new).faults }
        ensures no_fault { result ≢ Err SinkFault.Failed → (seen self.new).faults ≡ (seen self.old).faults }
        ensures want { result ≡ Err SinkFault.Memory → Rises (seen self.old).wants (seen self.new).wants }
        ensures no_want { result ≢ Err SinkFault.Memory → (seen self.new).wants ≡ (seen self.old).wants };
}

/// The most that is handed to a sink at once.
const PIECE_BYTES: usize = 65_536;

/// The first bytes of the text, as many as are handed to a sink at once.
fn first_piece(text: &[u8]) -> &[u8]
    ensures { result.now ≡ take PIECE_BYTES text.now }
{
    &text[..text.len().min(PIECE_BYTES)]
}

/// Hands the first bytes of the text to the sink, and says how many it took.
fn write_piece<K: Sink>(sink: &mut K, text: &[u8]) -> Result<usize, SinkFault>
    ensures taken { IfOk result (λ n. n ≤ length text.now) }
    ensures at_least_one { text.now ≢ [] → IfOk result (λ n. 1 ≤ n) }
    ensures appends { IfOk result (λ n. (K.seen sink.new).held ≡ appended (K.seen sink.old).held (take n text.now)) }
    ensures nothing { OnErr result ((K.seen sink.new).held ≡ (K.seen sink.old).held) }
    ensures fault { result ≡ Err SinkFault.Failed → Rises (K.seen sink.old).faults (K.seen sink.new).faults }
    ensures no_fault { result ≢ Err SinkFault.Failed → (K.seen sink.new).faults ≡ (K.seen sink.old).faults }
    ensures want { result ≡ Err SinkFault.Memory → Rises (K.seen sink.old).wants (K.seen sink.new).wants }
    ensures no_want { result ≢ Err SinkFault.Memory → (K.seen sink.new).wants ≡ (K.seen sink.old).wants }
{
    sink.write(first_piece(text))
}

/// Writes the whole text, in pieces of at most 65,536 bytes. After a refusal some first bytes of the
/// text were appended, and the fault is that of the sink's last call. A count that the answer doesn't
/// name is as before.
pub fn write_all<K: Sink>(sink: &mut K, text: &[u8]) -> Result<(), SinkFault>
    ensures whole { OnOk result ((K.seen sink.new).held ≡ appended (K.seen sink.old).held text.now) }
    ensures prefix { OnErr result (AppendsPrefix text.now (K.seen sink.old).held (K.seen sink.new).held) }
    ensures fault { result ≡ Err SinkFault.Failed → Rises (K.seen sink.old).faults (K.seen sink.new).faults }
    ensures no_fault { result ≢ Err SinkFault.Failed → (K.seen sink.new).faults ≡ (K.seen sink.old).faults }
    ensures want { result ≡ Err SinkFault.Memory → Rises (K.seen sink.old).wants (K.seen sink.new).wants }
    ensures no_want { result ≢ Err SinkFault.Memory → (K.seen sink.new).wants ≡ (K.seen sink.old).wants }
{
    let mut rest = text;
    while !rest.is_empty() {
        let written = write_piece(sink, rest)?;
        rest = &rest[written..];
    }
    Ok(())
}

/// Writes the parts of a text, one after the other, and takes no memory itself. After a refusal some
/// first bytes of the text were appended, and the fault is that of the sink's last call. A count that the answer doesn't
/// name is as before.
pub fn write_parts<K: Sink>(sink: &mut K, parts: &[&[u8]]) -> Result<(), SinkFault>
    ensures whole { OnOk result ((K.seen sink.new).held ≡ appended (K.seen sink.old).held (parts_text parts.now)) }
    ensures prefix { OnErr result (AppendsPrefix (parts_text parts.now) (K.seen sink.old).held (K.seen sink.new).held) }
    ensures fault { result ≡ Err SinkFault.Failed → Rises (K.seen sink.old).faults (K.seen sink.new).faults }
    ensures no_fault { result ≢ Err SinkFault.Failed → (K.seen sink.new).faults ≡ (K.seen sink.old).faults }
    ensures want { result ≡ Err SinkFault.Memory → Rises (K.seen sink.old).wants (K.seen sink.new).wants }
    ensures no_want { result ≢ Err SinkFault.Memory → (K.seen sink.new).wants ≡ (K.seen sink.old).wants }
{
    for part in parts {
        write_all(sink, part)?;
    }
    Ok(())
}

#[cfg(test)]
mod tests;
