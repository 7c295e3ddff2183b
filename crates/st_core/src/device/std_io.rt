//! Devices over std's readers and writers, standard input and output among them.

ghost use Rattle.std.specs.Prelude.{◌≡◌, false};

use crate::device::sink::ByteSink;
use crate::device::source::{ByteSource, Failed};
use std::io::{Read, Write};
use std::marker::Model;

/// A source over one of std's readers. Any error of the reader counts as a failure, and the reader
/// isn't called for an empty piece.
#[derive(Drop)]
pub struct ReadFrom<R> {
    reader: R,
    failed: bool,
}

impl<R> Model for ReadFrom<R> {
    ghost use Rattle.st_core.specs.Device.{MarkedDevice};

    ghost Value = { MarkedDevice R };

    ghost view = { λ a. record { inner = a.reader; failed = a.failed } };
}

impl<R: Read> ReadFrom<R> {
    /// Returns a source over this reader.
    pub fn new(reader: R) -> ReadFrom<R>
        ensures { result ≡ record { inner = reader; failed = false } }
    {
        ReadFrom {
            reader,
            failed: false,
        }
    }
}

impl<R: Read> ByteSource for ReadFrom<R> {
    ghost use Rattle.st_core.specs.Passed.{Passed, HasEnded};
    ghost use Rattle.std.specs.Io.KnownBytes.{Consumes, IsAtEnd};

    ghost left = { λ s. R.remaining s.inner };

    ghost failed = { λ s. s.failed };

    ghost gives = { λ a bytes b. Passed a bytes b
        × Consumes (R.remaining a.inner) (R.remaining b.inner) bytes };

    ghost ended = { λ s. HasEnded s × IsAtEnd (R.remaining s.inner) };

    ghost gives_consumes = { λ _ _ _ gave. gave.1 };

    fn take(&mut self, piece: &mut [u8]) -> Result<usize, Failed> {
        if self.failed {
            return Err(Failed);
        }
        // No contract says what a reader of std's does on an empty piece.
        if piece.is_empty() {
            return Ok(0);
        }
        match self.reader.read(piece) {
            Ok(given) => Ok(given),
            Err(_) => {
                self.failed = true;
                Err(Failed)
            }
        }
    }
}

/// A sink over one of std's writers. Any error of the writer counts as a failure, as does a write
/// that takes no byte of a piece that isn't empty; the writer isn't called for an empty piece.
#[derive(Drop)]
pub struct WriteTo<W> {
    writer: W,
    failed: bool,
}

impl<W> Model for WriteTo<W> {
    ghost use Rattle.st_core.specs.Device.{MarkedDevice};

    ghost Value = { MarkedDevice W };

    ghost view = { λ a. record { inner = a.writer; failed = a.failed } };
}

impl<W: Write> WriteTo<W> {
    /// Returns a sink over this writer.
    pub fn new(writer: W) -> WriteTo<W>
        ensures { result ≡ record { inner = writer; failed = false } }
    {
        WriteTo {
            writer,
            failed: false,
        }
    }
}

impl<W: Write> ByteSink for WriteTo<W> {
    ghost use Rattle.st_core.specs.Passed.{Passed};
    ghost use Rattle.std.specs.Io.KnownBytes.{Appends};

    ghost written = { λ s. W.contents s.inner };

    ghost failed = { λ s. s.failed };

    ghost puts = { λ a bytes b. Passed a bytes b
        × Appends (W.contents a.inner) (W.contents b.inner) bytes };

    ghost puts_appends = { λ _ _ _ wrote. wrote.1 };

    fn put(&mut self, piece: &[u8]) -> Result<usize, Failed> {
        if self.failed {
            return Err(Failed);
        }
        // Nor what a writer does on one.
        if piece.is_empty() {
            return Ok(0);
        }
        match self.writer.write(piece) {
            Ok(0) => {
                self.failed = true;
                Err(Failed)
            }
            Ok(taken) => Ok(taken),
            Err(_) => {
                self.failed = true;
                Err(Failed)
            }
        }
    }
}
