//! Files and a sink in memory, for tests. Both fail at the calls that they are to fail at.

ghost use Rattle.std.specs.Prelude.{◌≡◌, ◌≢◌, ℕ, ◌+◌, ◌-◌, ◌^◌, ◌<◌, ◌≤◌, ◌⊎◌, min, List, [], ◌∷◌, ◌++◌, length, take, map, Option, None, Some, Ok, Err, true, OnOk, OnErr, IfOk, MatchOption, vec_len, string_bytes, Contains};
ghost use Rattle.og_io.specs.Memory.{entries, one_more};
ghost use Rattle.og_io.specs.Outside.{ShelfState, SinkState, file_of, HasFile, HasLongFile, TellsLongFile, AddsName, AddsAtMost, appended, Rises, texts};

use super::{Shelf, ShelfFault, Sink, SinkFault, name_fault};
use std::alloc::{AllocError, Global};
use std::marker::Model;

/// A file in memory.
#[derive(Drop)]
struct NamedFile {
    name: String,
    bytes: Vec<u8>,
}

/// Files in memory. Calls of `fetch` are numbered from 1; a number that stands at 2^64 - 1 stays there.
#[derive(Drop)]
pub struct MemoryShelf {
    files: Vec<NamedFile>,
    failed: Vec<String>,
    fails: Vec<u64>,
    calls: u64,
}

impl Model for MemoryShelf {
    ghost use Rattle.og_io.specs.Memory.{MemoryFiles, entries};
    ghost use Rattle.og_io.specs.Outside.{texts};

    ghost Value = { MemoryFiles };

    ghost view = { λ s. record { files = entries s.files.items; failed = texts s.failed.items; fails = s.fails.items; calls = s.calls } };
}

impl MemoryShelf {
    /// A shelf without files, whose calls of `fetch` with these numbers fail.
    pub fn make(alloc: Global, fails: Vec<u64>) -> MemoryShelf
        ensures { result ≡ record { files = []; failed = []; fails = fails.items; calls = 0 } }
    {
        MemoryShelf {
            files: Vec::new(alloc),
            failed: Vec::new(alloc),
            fails,
            calls: 0,
        }
    }

    /// Puts a file before all others, so that it counts from now on.
    pub fn put(&mut self, name: String, bytes: Vec<u8>) -> Result<(), AllocError>
        ensures put { OnOk result (self.new ≡ record self.old { files = (string_bytes name, bytes.items) ∷ self.old.files }) }
        ensures unchanged { OnErr result (self.new ≡ self.old) }
    {
        self.files.insert(0, NamedFile { name, bytes })?;
        Ok(())
    }
}

/// The bytes of the file with this name.
fn find<'a>(files: &'a [NamedFile], name: &str) -> Option<&'a [u8]>
    ensures { MatchOption result (file_of (entries files.now) name.now ≡ None) (λ bytes. file_of (entries files.now) name.now ≡ Some bytes.now) }
{
    for file in files {
        if file.name.as_str() == name {
            return Some(&file.bytes);
        }
    }
    None
}

/// A copy of the bytes, if they are at most so many.
fn copy_of(alloc: Global, bytes: &[u8], limit: u64) -> Result<Vec<u8>, ShelfFault>
    ensures copied { IfOk result (λ copy. copy.items ≡ bytes.now) }
    ensures within { IfOk result (λ copy. vec_len copy ≤ limit) }
    ensures too_long { result ≡ Err ShelfFault.TooLong → limit < length bytes.now }
    ensures long { limit < length bytes.now → result ≡ Err ShelfFault.TooLong }
    ensures no_fault { result ≢ Err ShelfFault.Failed }
{
    if bytes.len() as u64 > limit {
        return Err(ShelfFault::TooLong);
    }
    Ok(bytes.to_vec(alloc)?)
}

/// The fault of a call that is to fail, of a file that is too long or isn't.
fn planned_fault(names: &mut Vec<String>, alloc: Global, name: &str, long: bool) -> ShelfFault
    ensures kept { result ≡ ShelfFault.Failed → AddsName name.now (texts names.old.items) (texts names.new.items) }
    ensures unchanged { result ≢ ShelfFault.Failed → texts names.new.items ≡ texts names.old.items }
    ensures planned { long ≡ true → result ≢ ShelfFault.Memory }
    ensures cause { result ≡ ShelfFault.TooLong → long ≡ true }
{
    match name_fault(names, alloc, name) {
        ShelfFault::Failed => ShelfFault::Failed,
        _ if long => ShelfFault::TooLong,
        _ => ShelfFault::Memory,
    }
}

impl Shelf for MemoryShelf {
    ghost seen = { λ s. record { files = Some s.files; failed = s.failed } };

    fn fetch(&mut self, alloc: Global, name: &str, limit: u64) -> Result<Vec<u8>, ShelfFault>
        ensures unchanged { Some self.new.files ≡ Some self.old.files }
        ensures failed_grows { AddsAtMost name.now self.old.failed self.new.failed }
        ensures bytes { IfOk result (λ bytes. HasFile (Some self.old.files) name.now bytes.items) }
        ensures within { IfOk result (λ bytes. vec_len bytes ≤ limit) }
        ensures added { result ≡ Err ShelfFault.Failed → AddsName name.now self.old.failed self.new.failed }
        ensures too_long { result ≡ Err ShelfFault.TooLong → HasLongFile (Some self.old.files) name.now limit }
        ensures long { TellsLongFile (Some self.old.files) name.now limit → result ≢ Err ShelfFault.Failed → result ≡ Err ShelfFault.TooLong }

        // It fails at the calls that it is to fail at, and where there is no such file. Without memory to keep
        // the name it answers that the file is too long, where it is, and else that it wants memory.
        ensures planned { Contains self.old.fails (one_more self.old.calls) → (result ≡ Err ShelfFault.Failed) ⊎ (result ≡ Err ShelfFault.TooLong) ⊎ (result ≡ Err ShelfFault.Memory) }
        ensures missing { file_of self.old.files name.now ≡ None → (result ≡ Err ShelfFault.Failed) ⊎ (result ≡ Err ShelfFault.Memory) }
        ensures cause { result ≡ Err ShelfFault.Failed → Contains self.old.fails (one_more self.old.calls) ⊎ (file_of self.old.files name.now ≡ None) }
        ensures kept { result ≢ Err ShelfFault.Failed → self.new.failed ≡ self.old.failed }
        ensures counted { (self.new.calls ≡ one_more self.old.calls) × (self.new.fails ≡ self.old.fails) }
    {
        self.calls = self.calls.saturating_add(1);
        let fails = self.fails.contains(&self.calls);
        let Some(bytes) = find(&self.files, name) else {
            return Err(name_fault(&mut self.failed, alloc, name));
        };
        if !fails {
            return copy_of(alloc, bytes, limit);
        }
        Err(planned_fault(&mut self.failed, alloc, name, bytes.len() as u64 > limit))
    }
}

/// A sink in memory. Calls of `write` with a piece that isn't empty are numbered from 1; a number that
/// stands at 2^64 - 1 stays there. If no call is to fail, its count of faults is always 0.
#[derive(Drop)]
pub struct MemorySink {
    held: Vec<u8>,
    faults: u64,
    wants: u64,
    most: usize,
    fails: Vec<u64>,
    calls: u64,
}

impl Model for MemorySink {
    ghost use Rattle.std.specs.Prelude.{◌≡◌, ◌≤◌, []};
    ghost use Rattle.og_io.specs.Memory.{MemoryBytes};

    ghost Value = { MemoryBytes };

    ghost view = { λ s. record { held = s.held.items; faults = s.faults; wants = s.wants; most = s.most; fails = s.fails.items; calls = s.calls } };

    ghost invariant = { λ s. (1 ≤ s.most) × (s.fails.items ≡ [] → s.faults ≡ 0) };
}

impl MemorySink {
    /// A sink that holds nothing, takes at most `most` bytes in a call, and fails at the calls with
    /// these numbers.
    pub fn make(alloc: Global, most: usize, fails: Vec<u64>) -> MemorySink
        requires { 1 ≤ most }
        ensures { result ≡ record { held = []; faults = 0; wants = 0; most = most; fails = fails.items; calls = 0 } }
    {
        MemorySink {
            held: Vec::new(alloc),
            faults: 0,
            wants: 0,
            most,
            fails,
            calls: 0,
        }
    }

    /// What it holds.
    pub fn held(&self) -> &[u8]
        ensures { result.now ≡ self.now.held }
    {
        &self.held
    }

    /// How often it failed to write.
    pub fn faults(&self) -> u64
        ensures count { result ≡ self.now.faults }
        ensures never { self.now.fails ≡ [] → result ≡ 0 }
    {
        self.faults
    }
}

impl Sink for MemorySink {
    ghost seen = { λ s. record { held = Some s.held; faults = s.faults; wants = s.wants } };

    fn write(&mut self, piece: &[u8]) -> Result<usize, SinkFault>
        ensures empty { piece.now ≡ [] → (result ≡ Ok 0) × (self.new ≡ self.old) }
        ensures taken { IfOk result (λ n. n ≡ min (length piece.now) self.old.most) }
        ensures at_least_one { piece.now ≢ [] → IfOk result (λ n. 1 ≤ n) }
        ensures appends { IfOk result (λ n. self.new.held ≡ self.old.held ++ take n piece.now) }
        ensures nothing { OnErr result (self.new.held ≡ self.old.held) }

        // It fails at the calls that it is to fail at, and at no others.
        ensures planned { piece.now ≢ [] → Contains self.old.fails (one_more self.old.calls) → result ≡ Err SinkFault.Failed }
        ensures cause { result ≡ Err SinkFault.Failed → Contains self.old.fails (one_more self.old.calls) }
        ensures fault { result ≡ Err SinkFault.Failed → self.new.faults ≡ one_more self.old.faults }
        ensures no_fault { result ≢ Err SinkFault.Failed → self.new.faults ≡ self.old.faults }
        ensures want { result ≡ Err SinkFault.Memory → self.new.wants ≡ one_more self.old.wants }
        ensures no_want { result ≢ Err SinkFault.Memory → self.new.wants ≡ self.old.wants }
        ensures counted { piece.now ≢ [] → self.new.calls ≡ one_more self.old.calls }
        ensures same { (self.new.fails ≡ self.old.fails) × (self.new.most ≡ self.old.most) }
    {
        if piece.is_empty() {
            return Ok(0);
        }
        self.calls = self.calls.saturating_add(1);
        if self.fails.contains(&self.calls) {
            self.faults = self.faults.saturating_add(1);
            return Err(SinkFault::Failed);
        }
        let taken = piece.len().min(self.most);
        match self.held.extend_from_slice(&piece[..taken]) {
            Ok(()) => Ok(taken),
            Err(_) => {
                self.wants = self.wants.saturating_add(1);
                Err(SinkFault::Memory)
            }
        }
    }
}
