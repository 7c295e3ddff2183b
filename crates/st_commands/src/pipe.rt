//! Standard output that notices when its reader goes, as `head` does.

ghost use Rattle.std.specs.IoError.{error_kind};
ghost use Rattle.std.specs.Prelude.{◌≡◌, ◌≢◌, true, false};

use std::io::{self, Error, ErrorKind, Write};

/// The status that a shell gives a program which the signal SIGPIPE ended: 128 and the signal's
/// number.
const READER_GONE: u8 = 141;

/// A writer that notices if its reader is gone. The program then ends as others in a pipeline do;
/// a device's fault alone wouldn't tell that the reader is gone from a full disk.
#[derive(Drop)]
pub struct Pipe<W> {
    writer: W,
    is_broken: bool,
}

impl<W> Pipe<W> {
    /// Writes to this writer, whose reader is there as far as is known.
    pub fn new(writer: W) -> Pipe<W>
        ensures { result ≡ record { writer = writer; is_broken = false } }
    {
        Pipe {
            writer,
            is_broken: false,
        }
    }

    /// The exit status of a program that would return this one.
    pub fn status_of(&self, status: u8) -> u8
        ensures gone { self.now.is_broken ≡ true → result ≡ 141 }
        ensures there { self.now.is_broken ≡ false → result ≡ status }
    {
        if self.is_broken { READER_GONE } else { status }
    }

    /// Notes an error of the writer, if it says that the reader is gone.
    fn notice(&mut self, error: &Error)
        ensures gone { error_kind error.now ≡ ErrorKind.BrokenPipe →
            self.new ≡ record { writer = self.old.writer; is_broken = true } }
        ensures other { error_kind error.now ≢ ErrorKind.BrokenPipe → self.new ≡ self.old }
    {
        match error.kind() {
            ErrorKind::BrokenPipe => self.is_broken = true,
            _ => {}
        }
    }
}

impl<W: Write> Write for Pipe<W> {
    ghost contents = { λ pipe. W.contents pipe.writer };

    fn write(&mut self, piece: &[u8]) -> io::Result<usize> {
        let written = self.writer.write(piece);
        if let Err(error) = &written {
            self.notice(error);
        }
        written
    }

    fn flush(&mut self) -> io::Result<()> {
        self.writer.flush()
    }
}
