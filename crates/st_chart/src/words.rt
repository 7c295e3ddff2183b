//! The words that reports and charts share.

ghost use Rattle.std.specs.Prelude.{◌+◌, ◌++◌, length};
ghost use Rattle.st_text.specs.Room.{HasRoom, Puts};
ghost use Rattle.st_chart.specs.Words.{place_words};
ghost use Rattle.st_chart.specs.Room.{place_room};

use st_core::Pid;
use st_text::{Buffer, put_bytes, put_numbered, put_pid};

/// Appends a process and an index in its stream, as `<0.30.0> 2`.
pub fn put_place(buffer: &mut Buffer, pid: Pid, index: u64)
    requires { HasRoom place_room buffer.old }
    ensures { Puts place_room (place_words pid index) buffer.old buffer.new }
{
    put_pid(buffer, pid);
    put_numbered(buffer, b" ", index);
}

/// Appends words and a place.
pub fn put_place_after(buffer: &mut Buffer, words: &[u8], pid: Pid, index: u64)
    requires { HasRoom (length words.now + place_room) buffer.old }
    ensures { Puts (length words.now + place_room)
        (words.now ++ place_words pid index) buffer.old buffer.new }
{
    put_bytes(buffer, words);
    put_place(buffer, pid, index);
}
