//! Devices over memory, for tests: a slice, a vector of fixed room, and an endless source.
//!
//! Their contracts say exactly how many bytes get through and when a call fails.

ghost use Rattle.std.specs.Prelude.{◌≡◌, ◌≤◌, ◌<◌, ◌-◌, [], min, length, take, true, false, IfOk};
ghost use Rattle.std.specs.Prelude.{IsOk, MatchResult, Some, None};
ghost use Rattle.std.specs.Result.{result_ok};
ghost use Rattle.std.specs.Io.KnownBytes.{ReadConsumes, WriteAppends};
ghost use Rattle.st_core.specs.Device.{MarksFailure, PassesEmpty, through, burnt, let_through};
ghost use Rattle.st_core.specs.Device.{taken_count, put_count, after_take, after_put, AreZeros};

use crate::device::sink::ByteSink;
use crate::device::source::{ByteSource, Failed};
use std::alloc::{AllocError, Global};
use std::marker::Model;

/// A source of the bytes of a slice, as far as its fuse lets them through.
#[derive(Drop)]
pub struct MemorySource<'a> {
    bytes: &'a [u8],
    fuse: Option<u64>,
    failed: bool,
}

impl<'a> Model for MemorySource<'a> {
    ghost use Rattle.st_core.specs.Device.{MemoryInput};

    ghost Value = { MemoryInput };

    ghost view = { λ a. record { left = a.bytes.now; fuse = a.fuse; failed = a.failed } };
}

impl<'a> MemorySource<'a> {
    /// Returns a source of these bytes. A fuse is the number of bytes after which the source fails
    /// at the next piece that isn't empty, even at the end of the bytes; without one it never
    /// fails.
    pub fn new(bytes: &'a [u8], fuse: Option<u64>) -> MemorySource<'a>
        ensures { result ≡ record { left = bytes.now; fuse = fuse; failed = false } }
    {
        MemorySource {
            bytes,
            fuse,
            failed: false,
        }
    }
}

fn through(fuse: Option<u64>, n: usize) -> usize
    ensures { result ≡ through fuse n }
{
    match fuse {
        None => n,
        Some(left) => left.min(n as u64) as usize,
    }
}

fn burnt(fuse: Option<u64>, n: usize) -> Option<u64>
    requires { n ≤ through fuse n }
    ensures { result ≡ burnt fuse n }
{
    match fuse {
        None => None,
        Some(left) => Some(left - n as u64),
    }
}

fn let_through(failed: bool, n: usize, most: usize) -> Result<usize, Failed>
    ensures { result_ok result ≡ let_through failed n most }
{
    if failed {
        return Err(Failed);
    }
    if most == 0 && n > 0 {
        return Err(Failed);
    }
    Ok(most)
}

impl<'a> ByteSource for MemorySource<'a> {
    ghost use Rattle.std.specs.Prelude.{◌≡◌, ◌++◌, [], Some};

    ghost left = { λ s. Some s.left };

    ghost failed = { λ s. s.failed };

    ghost gives = { λ a bytes b. a.left ≡ bytes ++ b.left };

    ghost ended = { λ s. s.left ≡ [] };

    ghost gives_consumes = { λ _ _ _ gave. gave };

    fn take(&mut self, piece: &mut [u8]) -> Result<usize, Failed>
        ensures bound { IfOk result (λ n. n ≤ length piece.new) }
        ensures bytes { ReadConsumes (Some self.old.left) (Some self.new.left) result piece.new }
        ensures given { MatchResult result
            (λ n. self.old.left ≡ take n piece.new ++ self.new.left)
            (λ _. self.old.left ≡ [] ++ self.new.left) }
        ensures end { IfOk result (λ n. n ≡ 0 → 0 < length piece.new → self.new.left ≡ []) }
        ensures empty { PassesEmpty self.old.failed piece.new self.old self.new result }
        ensures mark { MarksFailure self.old.failed self.new.failed result }
        // Tells how much it gives, when it fails, and what is left.
        ensures count { result_ok result ≡ taken_count self.old (length piece.new) }
        ensures after { MatchResult result
            (λ n. self.new ≡ after_take self.old n)
            (λ _. self.new ≡ record self.old { failed = true }) }
    {
        let most = through(self.fuse, piece.len());
        match let_through(self.failed, piece.len(), most) {
            Ok(most) => {
                let n = most.min(self.bytes.len());
                let (now, later) = self.bytes.split_at(n);
                piece[..n].copy_from_slice(now);
                self.bytes = later;
                self.fuse = burnt(self.fuse, n);
                Ok(n)
            }
            Err(failed) => {
                self.failed = true;
                Err(failed)
            }
        }
    }
}

/// A sink that keeps what is written to it, up to its room, as far as its fuse lets it through.
#[derive(Drop)]
pub struct MemorySink {
    bytes: Vec<u8>,
    room: usize,
    fuse: Option<u64>,
    failed: bool,
}

impl Model for MemorySink {
    ghost use Rattle.std.specs.Prelude.{◌+◌, ◌≤◌, vec_len};
    ghost use Rattle.std.specs.Vec.{vec_capacity};
    ghost use Rattle.st_core.specs.Device.{MemoryOutput};

    ghost Value = { MemoryOutput };

    ghost view = { λ a. record {
      written = a.bytes.items;
      room = a.room;
      fuse = a.fuse;
      failed = a.failed;
    } };

    ghost invariant = { λ a. vec_len a.bytes + a.room ≤ vec_capacity a.bytes };
}

impl MemorySink {
    /// Returns a sink with room for this many bytes, allocated at once: no later call allocates.
    /// Fails only if memory runs out. A fuse is the number of bytes after which the sink fails;
    /// without one it never fails before its room is full.
    pub fn new(alloc: Global, room: usize, fuse: Option<u64>) -> Result<MemorySink, AllocError>
        ensures ok { IfOk result (λ s. s
            ≡ record { written = []; room = room; fuse = fuse; failed = false }) }
        ensures no_room { room ≡ 0 → IsOk result }
    {
        let bytes = Vec::with_capacity(alloc, room)?;
        Ok(MemorySink {
            bytes,
            room,
            fuse,
            failed: false,
        })
    }

    /// Returns the bytes that were written so far.
    pub fn written(&self) -> &[u8]
        ensures { result.now ≡ self.now.written }
    {
        self.bytes.as_slice()
    }
}

impl ByteSink for MemorySink {
    ghost use Rattle.std.specs.Prelude.{◌≡◌, ◌++◌, Some};

    ghost written = { λ s. Some s.written };

    ghost failed = { λ s. s.failed };

    ghost puts = { λ a bytes b. b.written ≡ a.written ++ bytes };

    ghost puts_appends = { λ _ _ _ wrote. wrote };

    fn put(&mut self, piece: &[u8]) -> Result<usize, Failed>
        ensures bound { IfOk result (λ n. n ≤ length piece.now) }
        ensures some { IfOk result (λ n. 0 < length piece.now → 0 < n) }
        ensures empty { PassesEmpty self.old.failed piece.now self.old self.new result }
        ensures bytes { WriteAppends (Some self.old.written)
            (Some self.new.written) result piece.now }
        ensures wrote { MatchResult result
            (λ n. self.new.written ≡ self.old.written ++ take n piece.now)
            (λ _. self.new.written ≡ self.old.written ++ []) }
        ensures mark { MarksFailure self.old.failed self.new.failed result }
        // Tells how much it takes, when it fails, and what it then holds.
        ensures count { result_ok result ≡ put_count self.old (length piece.now) }
        ensures after { MatchResult result
            (λ n. self.new ≡ after_put self.old (take n piece.now))
            (λ _. self.new ≡ record self.old { failed = true }) }
    {
        let most = through(self.fuse, piece.len()).min(self.room);
        match let_through(self.failed, piece.len(), most) {
            Ok(n) => {
                self.bytes.extend_from_slice(&piece[..n]).unwrap();
                self.room -= n;
                self.fuse = burnt(self.fuse, n);
                Ok(n)
            }
            Err(failed) => {
                self.failed = true;
                Err(failed)
            }
        }
    }
}

/// A source of zero bytes that never ends and never fails.
#[derive(Clone, Copy)]
pub struct EndlessSource {
    unit: (),
}

impl EndlessSource {
    /// Returns the endless source, which has no state.
    pub fn new() -> EndlessSource
        ensures { result.unit ≡ tt }
    {
        EndlessSource { unit: () }
    }
}

impl ByteSource for EndlessSource {
    ghost use Rattle.std.specs.Prelude.{false, None};
    ghost use Rattle.st_core.specs.Device.{AreZeros};

    ghost left = { λ _. None };

    ghost failed = { λ _. false };

    ghost gives = { λ _ bytes _. AreZeros bytes };

    ghost ended = { λ _. ⊥ };

    ghost gives_consumes = { λ _ _ _ _. tt };

    fn take(&mut self, piece: &mut [u8]) -> Result<usize, Failed>
        ensures bound { IfOk result (λ n. n ≤ length piece.new) }
        ensures bytes { ReadConsumes None None result piece.new }
        ensures given { MatchResult result (λ n. AreZeros (take n piece.new)) (λ _. AreZeros []) }
        ensures end { IfOk result (λ n. n ≡ 0 → 0 < length piece.new → ⊥) }
        ensures empty { PassesEmpty false piece.new self.old self.new result }
        ensures mark { MarksFailure false false result }
        ensures whole { result ≡ Ok (length piece.new) }
    {
        piece.fill(0);
        Ok(piece.len())
    }
}
