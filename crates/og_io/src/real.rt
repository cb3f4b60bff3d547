//! Files of the system and a sink over a writer, as standard output. They are the edge that is trusted
//! for what is read and shown: they tell no files and no bytes.

ghost use Rattle.std.specs.Prelude.{◌≡◌, ◌≢◌, ℕ, ◌+◌, ◌<◌, ◌≤◌, List, [], ◌++◌, length, Option, None, Ok, Err, OnErr, IfOk, IsTrue, vec_len};
ghost use Rattle.std.specs.Io.KnownBytes.{Consumes, IsAtEnd, WriteAppends};
ghost use Rattle.og_io.specs.Outside.{ShelfState, SinkState, HasFile, HasLongFile, AddsName, AddsAtMost, appended, Rises, texts};

use super::{PIECE_BYTES, Shelf, ShelfFault, Sink, SinkFault, name_fault};
use std::alloc::Global;
use std::fs::File;
use std::io::{self, ErrorKind, Read, Write};
use std::rt::Files;

/// Files of the system, by their paths.
#[derive(Drop)]
pub struct FileShelf<'a, R: Files> {
    files: &'a R,
    failed: Vec<String>,
}

impl<'a, R: Files> FileShelf<'a, R> {
    /// Takes no memory.
    pub fn make(files: &'a R, alloc: Global) -> FileShelf<'a, R>
        ensures none_failed { (⟦<FileShelf<'a, R> as Shelf>⟧.seen result).failed ≡ [] }
    {
        FileShelf {
            files,
            failed: Vec::new(alloc),
        }
    }
}

/// Reads once, puts what was read at the end of the bytes, and says whether the reader is at its end.
fn read_more<F: Read>(
    reader: &mut F,
    buffer: &mut [u8],
    bytes: &mut Vec<u8>,
) -> Result<bool, ShelfFault>
    requires { 0 < length buffer.old }
    ensures more { IfOk result (λ _. (read : List ℕ) × (bytes.new.items ≡ bytes.old.items ++ read) × Consumes (F.remaining reader.old) (F.remaining reader.new) read) }
    ensures end { IfOk result (λ at_end. IsTrue at_end → IsAtEnd (F.remaining reader.new)) }
    ensures unlimited { result ≢ Err ShelfFault.TooLong }
{
    match reader.read(buffer) {
        Ok(count) => {
            bytes.extend_from_slice(&buffer[..count])?;
            Ok(count == 0)
        }
        Err(error) if error.kind() == ErrorKind::Interrupted => Ok(false),
        Err(_) => Err(ShelfFault::Failed),
    }
}

/// All bytes of the reader, if they are at most so many.
fn read_within<F: Read>(
    reader: &mut F,
    buffer: &mut [u8],
    alloc: Global,
    limit: u64,
) -> Result<Vec<u8>, ShelfFault>
    requires { 0 < length buffer.old }
    ensures all { IfOk result (λ bytes. Consumes (F.remaining reader.old) (F.remaining reader.new) bytes.items × IsAtEnd (F.remaining reader.new)) }
    ensures within { IfOk result (λ bytes. vec_len bytes ≤ limit) }

    // It stops once it has read too much.
    ensures too_long { result ≡ Err ShelfFault.TooLong → (read : List ℕ) × (limit < length read) × Consumes (F.remaining reader.old) (F.remaining reader.new) read }
{
    let mut bytes = Vec::new(alloc);
    for _ in 0..u64::MAX {
        let at_end = read_more(reader, buffer, &mut bytes)?;
        if bytes.len() as u64 > limit {
            return Err(ShelfFault::TooLong);
        }
        if at_end {
            return Ok(bytes);
        }
    }
    Err(ShelfFault::Failed)
}

/// The bytes of a file of the system, if they are at most so many.
fn read_file<R: Files>(
    files: &R,
    alloc: Global,
    name: &str,
    limit: u64,
) -> Result<Vec<u8>, ShelfFault>
    ensures { IfOk result (λ bytes. vec_len bytes ≤ limit) }
{
    let Ok(mut file) = File::open(files, name) else {
        return Err(ShelfFault::Failed);
    };
    let mut buffer = vec![in alloc; 0u8; PIECE_BYTES]?;
    read_within(&mut file, &mut buffer, alloc, limit)
}

impl<R: Files> FileShelf<'_, R> {
    /// The names whose fetch failed, in their order.
    pub fn failed(&self) -> &[String]
        ensures { result.now ≡ self.now.failed.items }
    {
        &self.failed
    }
}

impl<R: Files> Shelf for FileShelf<'_, R> {
    ghost seen = { λ s. record { files = None; failed = texts s.failed.items } };

    fn fetch(&mut self, alloc: Global, name: &str, limit: u64) -> Result<Vec<u8>, ShelfFault> {
        match read_file(self.files, alloc, name, limit) {
            Err(ShelfFault::Failed) => Err(name_fault(&mut self.failed, alloc, name)),
            answer => answer,
        }
    }
}

/// A sink over a writer. It counts each write that failed or that took nothing of a piece.
#[derive(Drop)]
pub struct StreamSink<W> {
    writer: W,
    faults: u64,
}

impl<W: Write + Drop> StreamSink<W> {
    /// Takes no memory. Its count of faults is 0.
    pub fn make(writer: W) -> StreamSink<W>
        ensures no_faults { (⟦<StreamSink<W> as Sink>⟧.seen result).faults ≡ 0 }
    {
        StreamSink { writer, faults: 0 }
    }
}

/// Writes some first bytes of the piece, again where the system was interrupted.
fn write_some<W: Write>(writer: &mut W, piece: &[u8]) -> io::Result<usize>
    ensures taken { IfOk result (λ n. n ≤ length piece.now) }
    ensures appends { WriteAppends (W.contents writer.old) (W.contents writer.new) result piece.now }
{
    for _ in 0..u64::MAX {
        match writer.write(piece) {
            Err(error) if error.kind() == ErrorKind::Interrupted => {}
            answer => return answer,
        }
    }
    Err(io::Error::from(ErrorKind::Interrupted))
}

impl<W: Write + Drop> Sink for StreamSink<W> {
    ghost seen = { λ s. record { held = None; faults = s.faults; wants = 0 } };

    fn write(&mut self, piece: &[u8]) -> Result<usize, SinkFault>
        ensures empty { piece.now ≡ [] → (result ≡ Ok 0) × (self.new ≡ self.old) }
        ensures taken { IfOk result (λ n. n ≤ length piece.now) }
        ensures at_least_one { piece.now ≢ [] → IfOk result (λ n. 1 ≤ n) }
        ensures fault { result ≡ Err SinkFault.Failed → Rises self.old.faults self.new.faults }
        ensures no_fault { result ≢ Err SinkFault.Failed → self.new.faults ≡ self.old.faults }
        ensures no_memory { result ≢ Err SinkFault.Memory }
        ensures shown { WriteAppends (W.contents self.old.writer) (W.contents self.new.writer) result piece.now }
    {
        if piece.is_empty() {
            return Ok(0);
        }
        match write_some(&mut self.writer, piece) {
            Ok(taken) if taken > 0 => Ok(taken),
            _ => {
                self.faults = self.faults.saturating_add(1);
                Err(SinkFault::Failed)
            }
        }
    }
}
