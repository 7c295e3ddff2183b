//! A device that records all bytes that pass through another.
//!
//! No clause can say which bytes standard input holds or standard output showed. A `Recorder` over
//! any device says which bytes went through: its relation is the record itself.

ghost use Rattle.std.specs.Prelude.{◌≡◌, [], false};

use crate::device::sink::ByteSink;
use crate::device::source::{ByteSource, Failed};
use std::alloc::Global;
use std::marker::Model;

/// A source or sink over another, with all the bytes that passed. Each call makes room for its
/// piece, or fails, before it calls the other device, so no byte passes unrecorded.
#[derive(Drop)]
pub struct Recorder<D> {
    device: D,
    log: Vec<u8>,
    failed: bool,
}

impl<D> Model for Recorder<D> {
    ghost use Rattle.st_core.specs.Device.{Recorded};

    ghost Value = { Recorded D };

    ghost view = { λ a. record { inner = a.device; passed = a.log.items; failed = a.failed } };
}

impl<D> Recorder<D> {
    /// Returns a recorder over this device, through which nothing has passed yet. Takes no memory.
    pub fn new(alloc: Global, device: D) -> Recorder<D>
        ensures { result ≡ record { inner = device; passed = []; failed = false } }
    {
        Recorder {
            device,
            log: Vec::new(alloc),
            failed: false,
        }
    }

    /// Returns all the bytes that passed, from the first on.
    pub fn bytes(&self) -> &[u8]
        ensures { result.now ≡ self.now.passed }
    {
        self.log.as_slice()
    }
}

impl<S: ByteSource> ByteSource for Recorder<S> {
    ghost use Rattle.std.specs.Prelude.{◌≡◌, ◌++◌};
    ghost use Rattle.st_core.specs.Device.{InARow};
    ghost use Rattle.st_core.specs.Rows.{row_consumes};

    ghost left = { λ s. S.left s.inner };

    ghost failed = { λ s. s.failed };

    ghost gives = { λ a bytes b. (b.passed ≡ a.passed ++ bytes)
        × InARow S.gives a.inner bytes b.inner };

    ghost ended = { λ s. S.ended s.inner };

    ghost gives_consumes = { λ a bytes b gave.
        row_consumes S.left S.gives S.gives_consumes a.inner b.inner bytes gave.1 };

    fn take(&mut self, piece: &mut [u8]) -> Result<usize, Failed> {
        if self.failed {
            return Err(Failed);
        }
        if piece.is_empty() {
            return Ok(0);
        }
        if self.log.reserve(piece.len()).is_err() {
            self.failed = true;
            return Err(Failed);
        }
        match self.device.take(piece) {
            Ok(given) => {
                self.log.extend_from_slice(&piece[..given]).unwrap();
                Ok(given)
            }
            Err(failed) => {
                self.failed = true;
                Err(failed)
            }
        }
    }
}

impl<S: ByteSink> ByteSink for Recorder<S> {
    ghost use Rattle.std.specs.Prelude.{◌≡◌, ◌++◌};
    ghost use Rattle.st_core.specs.Device.{InARow};
    ghost use Rattle.st_core.specs.Rows.{row_appends};

    ghost written = { λ s. S.written s.inner };

    ghost failed = { λ s. s.failed };

    ghost puts = { λ a bytes b. (b.passed ≡ a.passed ++ bytes)
        × InARow S.puts a.inner bytes b.inner };

    ghost puts_appends = { λ a bytes b wrote.
        row_appends S.written S.puts S.puts_appends a.inner b.inner bytes wrote.1 };

    fn put(&mut self, piece: &[u8]) -> Result<usize, Failed> {
        if self.failed {
            return Err(Failed);
        }
        if piece.is_empty() {
            return Ok(0);
        }
        if self.log.reserve(piece.len()).is_err() {
            self.failed = true;
            return Err(Failed);
        }
        match self.device.put(piece) {
            Ok(taken) => {
                self.log.extend_from_slice(&piece[..taken]).unwrap();
                Ok(taken)
            }
            Err(failed) => {
                self.failed = true;
                Err(failed)
            }
        }
    }
}
