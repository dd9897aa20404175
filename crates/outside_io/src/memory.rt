//! Files and a sink in memory, whose contents contracts know.
ghost use Rattle.std.specs.Prelude.{Some, ◌≡◌, ℕ, ◌+◌, ◌-◌, ◌^◌, ◌<◌, ◌≤◌, min, List, [], IfOk};
ghost use Rattle.std.specs.Prelude.{IfSome, IsErr, OnErr, OnOk, MatchBool, MatchOption};
ghost use Rattle.std.specs.Prelude.{if◌then◌else◌, length, vec_capacity, vec_len};
ghost use Rattle.std.specs.String.{string_bytes};
ghost use Rattle.std.specs.Str.{bytes_eq};
ghost use Rattle.std.specs.Io.KnownBytes.{WriteAppends};
ghost use Rattle.outside_io.specs.Faults.{CountedOne, CountRose, Grew, NameFailed, OnlyFailed};
ghost use Rattle.outside_io.specs.Pieces.{IsPiece};

use super::faults::note_fault;
use super::reading::{Files, PieceRefusal};
use super::writing::{Failed, Sink};
use std::alloc::{AllocError, Global};
use std::collections::BTreeMap;

/// Files in memory. Chosen calls of `read_piece` fail.
#[derive(Drop)]
pub struct MemFiles {
    files: BTreeMap<String, Vec<u8>>,
    fails: Vec<u64>,
    calls: u64,
    failed: Vec<String>,
    alloc: Global,
}

impl MemFiles {
    ghost use Rattle.outside_io.specs.FilesInMemory.{added_bytes, failed_names, failing_calls};
    ghost use Rattle.outside_io.specs.FilesInMemory.{calls_made};

    /// No file yet. Calls of `read_piece` are numbered from 1, and those whose number is in `fails`
    /// fail.
    pub fn new(alloc: Global, fails: Vec<u64>) -> MemFiles
        ensures empty { (any : List ℕ) → added_bytes result any ≡ None }
        ensures fails { failing_calls result ≡ fails.items }
        ensures calls { calls_made result ≡ 0 }
        ensures failed { failed_names result ≡ [] }
    {
        MemFiles {
            files: BTreeMap::new(alloc),
            fails,
            calls: 0,
            failed: Vec::new(alloc),
            alloc,
        }
    }

    /// Adds a file, or replaces the one of this name. A refusal leaves the files as they were.
    pub fn add(&mut self, name: String, bytes: Vec<u8>) -> Result<(), AllocError>
        ensures added { OnOk result ((any : List ℕ) → added_bytes self.new any
            ≡ (if bytes_eq (string_bytes name) any then Some bytes.items
            else added_bytes self.old any)) }
        ensures kept { OnErr result
            ((any : List ℕ) → added_bytes self.new any ≡ added_bytes self.old any) }
        ensures fails { failing_calls self.new ≡ failing_calls self.old }
        ensures calls { calls_made self.new ≡ calls_made self.old }
        ensures failed { failed_names self.new ≡ failed_names self.old }
    {
        self.files.insert(name, bytes)?;
        Ok(())
    }
}

impl Files for MemFiles {
    ghost use Rattle.outside_io.specs.FilesInMemory.{added_bytes, failed_names, failing_calls};
    ghost use Rattle.outside_io.specs.FilesInMemory.{calls_made, file_read_next};

    ghost content = { added_bytes };

    ghost failed = { failed_names };

    fn read_piece(&mut self, name: &str, at: u64, buf: &mut [u8]) -> Result<usize, PieceRefusal>
        ensures kept { (any : List ℕ) → added_bytes self.new any ≡ added_bytes self.old any }
        ensures within { IfOk result (λ count. count ≤ length buf.new) }
        ensures piece { IfOk result (λ count. IfSome (added_bytes self.old name.now)
            (λ file. IsPiece file at buf.new count)) }
        ensures grew { Grew (failed_names self.old) (failed_names self.new) }
        ensures ok { OnOk result (failed_names self.new ≡ failed_names self.old) }
        ensures fault { result ≡ Err PieceRefusal.Failed →
            NameFailed (failed_names self.old) (failed_names self.new) name.now }
        ensures only { result ≡ Err PieceRefusal.Failed →
            OnlyFailed (failed_names self.old) (failed_names self.new) name.now }
        ensures memory { result ≡ Err PieceRefusal.OutOfMemory →
            failed_names self.new ≡ failed_names self.old }
        ensures answer { MatchOption (file_read_next self.old name.now) (IsErr result)
            (λ file. result ≡ Ok (min (length buf.old) (length file - at))) }
        ensures calls { calls_made self.new ≡ min (calls_made self.old + 1) (2 ^ 64 - 1) }
        ensures fails { failing_calls self.new ≡ failing_calls self.old }
    {
        self.calls = self.calls.saturating_add(1);
        if self.fails.contains(&self.calls) {
            return Err(note_fault(self.alloc, &mut self.failed, name));
        }
        match self.files.get(name) {
            Some(file) => Ok(copy_piece(file, at, buf)),
            None => Err(note_fault(self.alloc, &mut self.failed, name)),
        }
    }
}

/// Files in memory that never fail. A name that was not added is an empty file.
#[derive(Drop)]
pub struct SureFiles {
    files: BTreeMap<String, Vec<u8>>,
}

impl SureFiles {
    ghost use Rattle.outside_io.specs.FilesInMemory.{sure_bytes};

    /// Every file is empty.
    pub fn new(alloc: Global) -> SureFiles
        ensures { (any : List ℕ) → sure_bytes result any ≡ [] }
    {
        SureFiles {
            files: BTreeMap::new(alloc),
        }
    }

    /// Adds a file, or replaces the one of this name. A refusal leaves the files as they were.
    pub fn add(&mut self, name: String, bytes: Vec<u8>) -> Result<(), AllocError>
        ensures added { OnOk result ((any : List ℕ) → sure_bytes self.new any
            ≡ (if bytes_eq (string_bytes name) any then bytes.items else sure_bytes self.old any)) }
        ensures kept { OnErr result
            ((any : List ℕ) → sure_bytes self.new any ≡ sure_bytes self.old any) }
    {
        self.files.insert(name, bytes)?;
        Ok(())
    }
}

impl Files for SureFiles {
    ghost use Rattle.outside_io.specs.FilesInMemory.{sure_bytes};

    ghost content = { λ files name. Some (sure_bytes files name) };

    ghost failed = { λ _. [] };

    fn read_piece(&mut self, name: &str, at: u64, buf: &mut [u8]) -> Result<usize, PieceRefusal>
        ensures unchanged { self.new ≡ self.old }
        ensures piece { IfOk result (λ count.
            IsPiece (sure_bytes self.old name.now) at buf.new count) }
        ensures answer { result
            ≡ Ok (min (length buf.old) (length (sure_bytes self.old name.now) - at)) }
    {
        let file = self.files.get(name).map_or(&[][..], |file| file.as_slice());
        Ok(copy_piece(file, at, buf))
    }
}

/// A sink in memory that takes a limited number of bytes at each call. Chosen calls fail.
#[derive(Drop)]
pub struct MemSink {
    taken: Vec<u8>,
    room: u32,
    most: u32,
    fails: Vec<u64>,
    calls: u64,
    faults: u64,
    ghost in_room: { vec_len taken ≤ room },
    ghost has_room: { room ≤ vec_capacity taken },
    ghost goes_on: { 1 ≤ most },
}

impl MemSink {
    ghost use Rattle.outside_io.specs.SinkInMemory.{taken_bytes, IsFreshSink};

    /// An empty sink with room for `room` bytes, which takes at most `most` of them at each call.
    ///
    /// Calls of `write_piece` are numbered from 1, and those whose number is in `fails` fail. So
    /// does each call with bytes that finds no room. Only this call allocates.
    pub fn new(alloc: Global, room: u32, most: u32, fails: Vec<u64>) -> Result<MemSink, AllocError>
        requires { 1 ≤ most }
        ensures { IfOk result (λ sink. IsFreshSink sink room most fails.items) }
    {
        Ok(MemSink {
            taken: Vec::with_capacity(alloc, room as usize)?,
            room,
            most,
            fails,
            calls: 0,
            faults: 0,
        })
    }

    /// The bytes taken so far.
    pub fn written(&self) -> &[u8]
        ensures { result.now ≡ taken_bytes self.now }
    {
        self.taken.as_slice()
    }
}

impl Sink for MemSink {
    ghost use Rattle.outside_io.specs.SinkInMemory.{taken_bytes, faults_met, refuses_piece};
    ghost use Rattle.outside_io.specs.SinkInMemory.{bytes_taken, KeepsTerms};

    ghost written = { λ sink. Some (taken_bytes sink) };

    ghost faults = { faults_met };

    fn write_piece(&mut self, bytes: &[u8]) -> Result<usize, Failed>
        ensures within { IfOk result (λ count. count ≤ length bytes.now) }
        ensures goes_on { IfOk result (λ count. 0 < length bytes.now → 0 < count) }
        ensures appended { WriteAppends
            (Some (taken_bytes self.old)) (Some (taken_bytes self.new)) result bytes.now }
        ensures never_falls { faults_met self.old ≤ faults_met self.new }
        ensures ok { OnOk result (faults_met self.new ≡ faults_met self.old) }
        ensures failed { OnErr result (CountRose (faults_met self.old) (faults_met self.new)) }
        ensures once { OnErr result (CountedOne (faults_met self.old) (faults_met self.new)) }
        ensures answer { MatchBool (refuses_piece self.old bytes.now) (IsErr result)
            (result ≡ Ok (bytes_taken self.old bytes.now)) }
        ensures terms { KeepsTerms self.old self.new }
    {
        self.calls = self.calls.saturating_add(1);
        let room = self.room as usize - self.taken.len();
        if self.fails.contains(&self.calls) || (room == 0 && !bytes.is_empty()) {
            self.faults = self.faults.saturating_add(1);
            return Err(Failed);
        }
        let count = bytes.len().min(room).min(self.most as usize);
        self.taken.extend_from_slice(&bytes[..count]).unwrap();
        Ok(count)
    }
}

/// A sink that takes every byte at once and keeps none. It never fails.
#[derive(Clone, Copy, Debug, Default, PartialEq, Eq)]
pub struct CountSink;

impl CountSink {
    /// A sink. It has no state.
    pub fn new() -> CountSink {
        CountSink
    }
}

impl Sink for CountSink {
    ghost faults = { λ _. 0 };

    fn write_piece(&mut self, bytes: &[u8]) -> Result<usize, Failed>
        ensures { result ≡ Ok (length bytes.now) }
    {
        Ok(bytes.len())
    }
}

// Copies as many bytes of the file from `at` on as the buffer has room for, and answers how many.
fn copy_piece(file: &[u8], at: u64, buf: &mut [u8]) -> usize
    ensures count { result ≡ min (length buf.old) (length file.now - at) }
    ensures piece { IsPiece file.now at buf.new result }
{
    let rest = &file[file.len().min(at as usize)..];
    let count = rest.len().min(buf.len());
    buf[..count].copy_from_slice(&rest[..count]);
    count
}
