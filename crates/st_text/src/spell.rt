//! Spells values into a buffer on the stack, without taking memory. Each function appends the one
//! spelling of its value; its caller sees to it that there is room. Nothing here knows of a
//! device.

ghost use Rattle.std.specs.Prelude.{◌≡◌, ◌<◌, ◌+◌, ◌/◌, ◌%◌, [], ◌∷◌, ◌++◌, length, decimal};
ghost use Rattle.arrayvec.specs.ArrayVec.{array_vec_len};
ghost use Rattle.st_text.specs.Spelling as spelled;
ghost use Rattle.st_text.specs.Room.{number_room, bool_room, pid_room, HasRoom, Puts};
ghost use Rattle.st_text.specs.Room.{serial_room, kind_room, head_room, ends_room, event_room};
ghost use Rattle.st_text.specs.Room.{component_room, want_room, flags_room, token_room, act_room};

use arrayvec::ArrayVec;
use st_core::{Act, Component, Event, Flags, Kind, Label, Pid, Serial, Token, Want};

/// The number of bytes that are written at once: whole pages of the system's memory, since a file
/// takes parts of a page more slowly.
pub(crate) const PIECE: usize = 8192;

/// The most bytes that a line and its newline take: an event's room, rounded up.
const LINE: usize = 256;

/// The size of the buffer: while less than a piece waits, there is room for a line.
const BUFFER: usize = PIECE + LINE;

/// Bytes that wait to be written.
pub type Buffer = ArrayVec<u8, BUFFER>;

/// The two digits of each number below 100, one pair after the other.
static PAIRS: [u8; 200] = *b"00010203040506070809101112131415161718192021222324\
    25262728293031323334353637383940414243444546474849\
    50515253545556575859606162636465666768697071727374\
    75767778798081828384858687888990919293949596979899";

/// Appends bytes. Always inlined, so that words of the grammar are written in a store or two.
#[inline(always)]
pub fn put_bytes(buffer: &mut Buffer, bytes: &[u8])
    requires { HasRoom (length bytes.now) buffer.old }
    ensures items { buffer.new.items ≡ buffer.old.items ++ bytes.now }
    ensures len { array_vec_len buffer.new ≡ array_vec_len buffer.old + length bytes.now }
{
    let Ok(()) = buffer.try_extend_from_slice(bytes) else {
        unreachable!()
    };
}

/// Appends the two digits of a number below 100.
#[inline(always)]
fn put_pair(buffer: &mut Buffer, pair: u64)
    requires below { pair < 100 }
    requires room { HasRoom 2 buffer.old }
    ensures items { buffer.new.items
        ≡ buffer.old.items ++ (48 + pair / 10) ∷ (48 + pair % 10) ∷ [] }
    ensures len { array_vec_len buffer.new ≡ array_vec_len buffer.old + 2 }
{
    let from = pair as usize * 2;
    let (tens, ones) = (PAIRS[from], PAIRS[from + 1]);
    put_bytes(buffer, &[tens, ones]);
}

/// Appends a number below 100.
#[inline(always)]
fn put_short(buffer: &mut Buffer, number: u64)
    requires below { number < 100 }
    requires room { HasRoom 2 buffer.old }
    ensures { Puts 2 (decimal number) buffer.old buffer.new }
{
    if number < 10 {
        put_bytes(buffer, &[b'0' + number as u8]);
    } else {
        put_pair(buffer, number);
    }
}

/// Appends a number below 10,000.
#[inline(always)]
fn put_four(buffer: &mut Buffer, number: u64)
    requires below { number < 10000 }
    requires room { HasRoom 4 buffer.old }
    ensures { Puts 4 (decimal number) buffer.old buffer.new }
{
    if number < 100 {
        put_short(buffer, number);
    } else {
        put_short(buffer, number / 100);
        put_pair(buffer, number % 100);
    }
}

/// Appends a number in decimal. A number of at most eight digits is written straight into the
/// buffer.
pub fn put_number(buffer: &mut Buffer, number: u64)
    requires { HasRoom number_room buffer.old }
    ensures { Puts number_room (decimal number) buffer.old buffer.new }
{
    if number < 10_000 {
        put_four(buffer, number);
    } else if number < 100_000_000 {
        put_four(buffer, number / 10_000);
        put_pair(buffer, number / 100 % 100);
        put_pair(buffer, number % 100);
    } else {
        let mut digits = itoa::Buffer::new();
        put_bytes(buffer, digits.format(number).as_bytes());
    }
}

/// Appends words and a decimal number.
pub fn put_numbered(buffer: &mut Buffer, words: &[u8], number: u64)
    requires { HasRoom (length words.now + number_room) buffer.old }
    ensures { Puts (length words.now + number_room) (words.now ++ decimal number)
        buffer.old buffer.new }
{
    put_bytes(buffer, words);
    put_number(buffer, number);
}

fn put_bool(buffer: &mut Buffer, flag: bool)
    requires { HasRoom bool_room buffer.old }
    ensures { Puts bool_room (spelled.bool flag) buffer.old buffer.new }
{
    if flag {
        put_bytes(buffer, b"true");
    } else {
        put_bytes(buffer, b"false");
    }
}

fn put_flag(buffer: &mut Buffer, word: &[u8], flag: bool)
    requires { HasRoom (length word.now + bool_room) buffer.old }
    ensures { Puts (length word.now + bool_room)
        (word.now ++ spelled.bool flag) buffer.old buffer.new }
{
    put_bytes(buffer, word);
    put_bool(buffer, flag);
}

/// Appends a pid, as `<0.30.0>`.
pub fn put_pid(buffer: &mut Buffer, pid: Pid)
    requires { HasRoom pid_room buffer.old }
    ensures { Puts pid_room (spelled.pid pid) buffer.old buffer.new }
{
    put_bytes(buffer, b"<");
    put_number(buffer, u64::from(pid.node()));
    put_bytes(buffer, b".");
    put_number(buffer, u64::from(pid.number()));
    put_bytes(buffer, b".0>");
}

fn put_label(buffer: &mut Buffer, label: Label)
    requires { HasRoom number_room buffer.old }
    ensures { Puts number_room (spelled.label label) buffer.old buffer.new }
{
    put_number(buffer, u64::from(label.0));
}

fn put_pid_between(buffer: &mut Buffer, before: &[u8], pid: Pid, behind: &[u8])
    requires { HasRoom (length before.now + length behind.now + pid_room) buffer.old }
    ensures { Puts (length before.now + length behind.now + pid_room)
        (before.now ++ spelled.pid pid ++ behind.now) buffer.old buffer.new }
{
    put_bytes(buffer, before);
    put_pid(buffer, pid);
    put_bytes(buffer, behind);
}

/// Appends a serial, as `{0,1}`.
pub fn put_serial(buffer: &mut Buffer, serial: Serial)
    requires { HasRoom serial_room buffer.old }
    ensures { Puts serial_room (spelled.serial serial) buffer.old buffer.new }
{
    put_bytes(buffer, b"{");
    put_number(buffer, serial.prev);
    put_bytes(buffer, b",");
    put_number(buffer, serial.this);
    put_bytes(buffer, b"}");
}

fn put_kind(buffer: &mut Buffer, kind: Kind)
    requires { HasRoom kind_room buffer.old }
    ensures { Puts kind_room (spelled.kind kind) buffer.old buffer.new }
{
    match kind {
        Kind::Send => put_bytes(buffer, b"send"),
        Kind::Receive => put_bytes(buffer, b"'receive'"),
        Kind::Print => put_bytes(buffer, b"print"),
    }
}

fn put_place(buffer: &mut Buffer, place: Option<Pid>)
    requires { HasRoom pid_room buffer.old }
    ensures { Puts pid_room (spelled.place place) buffer.old buffer.new }
{
    match place {
        None => put_bytes(buffer, b"[]"),
        Some(pid) => put_pid(buffer, pid),
    }
}

fn put_head(buffer: &mut Buffer, event: &Event)
    requires { HasRoom head_room buffer.old }
    ensures { Puts head_room (spelled.head event.now) buffer.old buffer.new }
{
    put_label(buffer, event.label);
    put_bytes(buffer, b",{");
    put_kind(buffer, event.kind);
    put_bytes(buffer, b",");
}

fn put_ends(buffer: &mut Buffer, event: &Event)
    requires { HasRoom ends_room buffer.old }
    ensures { Puts ends_room (spelled.ends event.now) buffer.old buffer.new }
{
    put_pid(buffer, event.from);
    put_bytes(buffer, b",");
    put_place(buffer, event.to);
}

/// Appends an event, without a newline.
pub fn put_event(buffer: &mut Buffer, event: &Event)
    requires { HasRoom event_room buffer.old }
    ensures { Puts event_room (spelled.event event.now) buffer.old buffer.new }
{
    put_bytes(buffer, b"{seq_trace,");
    put_head(buffer, event);
    put_serial(buffer, event.serial);
    put_bytes(buffer, b",");
    put_ends(buffer, event);
    put_bytes(buffer, b",");
    put_number(buffer, event.value);
    put_bytes(buffer, b"}}");
}

fn put_component(buffer: &mut Buffer, component: Component)
    requires { HasRoom component_room buffer.old }
    ensures { Puts component_room (spelled.component component) buffer.old buffer.new }
{
    match component {
        Component::Label(label) => put_numbered(buffer, b"label ", u64::from(label.0)),
        Component::Send(flag) => put_flag(buffer, b"send ", flag),
        Component::Receive(flag) => put_flag(buffer, b"receive ", flag),
        Component::Print(flag) => put_flag(buffer, b"print ", flag),
    }
}

fn put_want(buffer: &mut Buffer, want: Want)
    requires { HasRoom want_room buffer.old }
    ensures { Puts want_room (spelled.want want) buffer.old buffer.new }
{
    match want {
        Want::First => put_bytes(buffer, b"first"),
        Want::From(pid) => put_pid_between(buffer, b"from ", pid, b""),
        Want::Value(value) => put_numbered(buffer, b"value ", value),
        Want::Both(pid, value) => {
            put_pid_between(buffer, b"both ", pid, b" ");
            put_number(buffer, value);
        }
        Want::Place(place) => put_numbered(buffer, b"place ", place),
    }
}

fn put_flags(buffer: &mut Buffer, flags: Flags)
    requires { HasRoom flags_room buffer.old }
    ensures { Puts flags_room (spelled.flags flags) buffer.old buffer.new }
{
    put_bool(buffer, flags.send);
    put_flag(buffer, b" ", flags.receive);
    put_flag(buffer, b" ", flags.print);
}

fn put_token(buffer: &mut Buffer, token: &Token)
    requires { HasRoom token_room buffer.old }
    ensures { Puts token_room (spelled.token token.now) buffer.old buffer.new }
{
    put_label(buffer, token.label);
    put_bytes(buffer, b" ");
    put_flags(buffer, token.flags);
    put_numbered(buffer, b" ", token.serial.prev);
    put_numbered(buffer, b" ", token.serial.this);
    put_bytes(buffer, b" ");
    put_pid(buffer, token.from);
}

fn put_send(buffer: &mut Buffer, sender: Pid, receiver: Pid, value: u64)
    requires { HasRoom act_room buffer.old }
    ensures { Puts act_room (spelled.act (Act.Send sender receiver value)) buffer.old buffer.new }
{
    put_pid_between(buffer, b"send ", sender, b" ");
    put_pid(buffer, receiver);
    put_numbered(buffer, b" ", value);
}

fn put_print_at(buffer: &mut Buffer, pid: Pid, label: Label, value: u64)
    requires { HasRoom act_room buffer.old }
    ensures { Puts act_room (spelled.act (Act.PrintAt pid label value)) buffer.old buffer.new }
{
    put_pid_between(buffer, b"printat ", pid, b" ");
    put_label(buffer, label);
    put_numbered(buffer, b" ", value);
}

/// Appends an act, without a newline.
pub fn put_act(buffer: &mut Buffer, act: &Act)
    requires { HasRoom act_room buffer.old }
    ensures { Puts act_room (spelled.act act.now) buffer.old buffer.new }
{
    match act {
        Act::Send(sender, receiver, value) => put_send(buffer, *sender, *receiver, *value),
        Act::Receive(pid, want) => {
            put_pid_between(buffer, b"receive ", *pid, b" ");
            put_want(buffer, *want);
        }
        Act::Print(pid, value) => {
            put_pid_between(buffer, b"print ", *pid, b" ");
            put_number(buffer, *value);
        }
        Act::PrintAt(pid, label, value) => put_print_at(buffer, *pid, *label, *value),
        Act::Set(pid, component) => {
            put_pid_between(buffer, b"set ", *pid, b" ");
            put_component(buffer, *component);
        }
        Act::Clear(pid) => put_pid_between(buffer, b"clear ", *pid, b""),
        Act::Restore(pid, token) => {
            put_pid_between(buffer, b"restore ", *pid, b" ");
            put_token(buffer, token);
        }
        Act::Look(pid) => put_pid_between(buffer, b"look ", *pid, b""),
        Act::Reset(pid) => put_pid_between(buffer, b"reset ", *pid, b""),
        Act::Tracer(pid, flag) => {
            put_pid_between(buffer, b"tracer ", *pid, b" ");
            put_bool(buffer, *flag);
        }
    }
}
