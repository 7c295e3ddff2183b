//! Devices, among them those over std's readers and writers, of whose errors no clause speaks.

ghost use Rattle.std.specs.Prelude.{◌≤◌, IfOk};

use super::MANY;
use st_core::{ByteSink, ByteSource, Failed, ReadFrom, Recorder, WriteTo};
use std::io::{self, Error, ErrorKind, Read, Write};

/// A reader and writer that passes at most three bytes a call, and fails at one of its calls.
#[derive(Drop)]
struct Unsteady {
    calls: u32,
    errs_at: u32,
    kind: ErrorKind,
}

impl Unsteady {
    /// Returns a device that fails at this call, counted from 1, with an error of this kind.
    fn new(errs_at: u32, kind: ErrorKind) -> Unsteady {
        Unsteady {
            calls: 0,
            errs_at,
            kind,
        }
    }

    /// Returns how many of n bytes this call passes.
    fn pass(&mut self, n: usize) -> io::Result<usize>
        ensures { IfOk result (λ passed. passed ≤ n) }
    {
        self.calls = self.calls.wrapping_add(1);
        if self.calls == self.errs_at {
            return Err(Error::from(self.kind));
        }
        Ok(n.min(3))
    }
}

impl Read for Unsteady {
    fn read(&mut self, piece: &mut [u8]) -> io::Result<usize> {
        let n = self.pass(piece.len())?;
        piece[..n].fill(b'x');
        Ok(n)
    }
}

impl Write for Unsteady {
    fn write(&mut self, piece: &[u8]) -> io::Result<usize> {
        self.pass(piece.len())
    }

    fn flush(&mut self) -> io::Result<()> {
        Ok(())
    }
}

/// Errors after which a reader or writer may work again.
const ERRORS: [ErrorKind; 2] = [ErrorKind::Interrupted, ErrorKind::BrokenPipe];

#[test]
fn a_reader_that_errs_once_has_failed_for_good(rt: HostRuntime) {
    let mut piece = [0; 8];
    for kind in ERRORS {
        let mut source = ReadFrom::new(Unsteady::new(2, kind));
        // Doesn't call the reader.
        assert!(rt; source.take(&mut []) == Ok(0));
        assert!(rt; source.take(&mut piece) == Ok(3));
        // The reader would work again.
        assert!(rt; source.take(&mut piece) == Err(Failed));
        assert!(rt; source.take(&mut piece) == Err(Failed));
    }
    assert!(rt; piece.starts_with(b"xxx\0"));
}

#[test]
fn a_writer_that_errs_once_has_failed_for_good(rt: HostRuntime) {
    for kind in ERRORS {
        let mut sink = WriteTo::new(Unsteady::new(2, kind));
        assert!(rt; sink.put(b"") == Ok(0));
        assert!(rt; sink.put(b"seqtrace") == Ok(3));
        assert!(rt; sink.put(b"trace") == Err(Failed));
        assert!(rt; sink.put(b"trace") == Err(Failed));
    }
}

#[test]
fn readers_and_writers_of_short_pieces_work_on_and_on(rt: HostRuntime) {
    let mut piece = [0; 8];
    let mut source = ReadFrom::new(Unsteady::new(0, ErrorKind::BrokenPipe));
    let mut sink = WriteTo::new(Unsteady::new(0, ErrorKind::BrokenPipe));
    for _ in 0..MANY {
        assert!(rt; source.take(&mut piece) == Ok(3));
        assert!(rt; sink.put(b"seqtrace") == Ok(3));
    }
}

#[test]
fn readers_end_and_writers_fill_up(rt: HostRuntime) {
    let mut piece = [0; 8];
    let mut source = ReadFrom::new(b"acts\n".as_slice());
    assert!(rt; source.take(&mut piece) == Ok(5));
    assert!(rt; piece.starts_with(b"acts\n\0"));
    assert!(rt; source.take(&mut piece) == Ok(0));
    let mut room = [0; 2];
    let mut sink = WriteTo::new(room.as_mut_slice());
    assert!(rt; sink.put(b"yes") == Ok(2));
    assert!(rt; sink.put(b"s") == Err(Failed));
    assert!(rt; room == *b"ye");
}

#[test]
fn a_recorder_keeps_what_passed_over_a_device_that_tells_nothing(rt: HostRuntime) {
    let mut piece = [0; 8];
    let mut source = Recorder::new(rt.alloc(), ReadFrom::new(b"yes\nno\n".as_slice()));
    assert!(rt; source.take(&mut piece[..4]) == Ok(4));
    assert!(rt; source.take(&mut piece) == Ok(3));
    assert!(rt; source.bytes() == b"yes\nno\n".as_slice());
}

#[test]
fn a_recorder_fails_where_its_device_does(rt: HostRuntime) {
    let mut sink = Recorder::new(rt.alloc(), WriteTo::new(Unsteady::new(3, ERRORS[0])));
    assert!(rt; sink.put(b"yes\n") == Ok(3));
    assert!(rt; sink.put(b"\n") == Ok(1));
    assert!(rt; sink.put(b"no\n") == Err(Failed));
    assert!(rt; sink.put(b"no\n") == Err(Failed));
    assert!(rt; sink.bytes() == b"yes\n".as_slice());
}
