//! Lists, mailboxes, worlds, drafts and devices that hold 100,000 items.

ghost use Rattle.std.specs.Prelude.{◌≡◌, ◌<◌, length};

use super::MANY;
use crate::helpers::{many_pids, same};
use st_arena::Lists;
use st_core::{
    Act, ByteSink, ByteSource, Component, Draft, Label, MemorySink, MemorySource, Message, Pid,
    Recorder, Serial, Token,
};
use st_mail::Mailboxes;
use st_samples::{p30, p31};
use st_world::World;
use std::process::Abort;
use std::test::Fail;

/// The size that each call is tested with, as a length.
const LENGTH: usize = 100_000;

/// Pushes `MANY` items on the last list.
fn push_many(lists: &mut Lists<u64>) -> Result<(), Fail>
    requires { 99999 < length lists.old.lists }
    ensures { length lists.new.lists ≡ length lists.old.lists }
{
    for item in 0..MANY {
        lists.push_back(99_999, item)?;
    }
    Ok(())
}

#[test]
fn a_hundred_thousand_lists_take_as_many_items(rt: HostRuntime) -> Result<(), Fail> {
    let mut lists = Lists::new(rt.alloc(), LENGTH)?;
    lists.reserve(LENGTH)?;
    push_many(&mut lists)?;
    same(&rt, &(lists.len(0), lists.len(99_999)), &(0, MANY));
    same(&rt, &lists.get(99_999, MANY - 1).copied(), &Some(MANY - 1));
    Ok(())
}

/// Makes a message of 30 whose token has the count `this`.
fn stamped_message(this: u64) -> Message {
    let mut token = Token::made_by(p30());
    token.serial = Serial { prev: 0, this };
    Message {
        from: p30(),
        value: this,
        token: Some(token),
    }
}

/// Puts `MANY` messages into the last mailbox.
fn put_many(mail: &mut Mailboxes) -> Result<(), Fail>
    requires { 99999 < length mail.old.boxes }
    ensures { length mail.new.boxes ≡ length mail.old.boxes }
{
    for this in 0..MANY {
        mail.put(99_999, stamped_message(this))?;
    }
    Ok(())
}

#[test]
fn a_hundred_thousand_mailboxes_take_as_many_messages(rt: HostRuntime) -> Result<(), Fail> {
    let mut mail = Mailboxes::new(rt.alloc(), LENGTH)?;
    mail.reserve(LENGTH)?;
    put_many(&mut mail)?;
    same(&rt, &(mail.len(0), mail.len(99_999)), &(0, MANY));
    same(
        &rt,
        &mail.place_of(99_999, p30(), MANY - 1),
        &Some(MANY - 1),
    );
    Ok(())
}

/// Sends `MANY` messages with the token of 30 from 30 to 31.
fn send_many(rt: &impl Abort, world: &mut World<{ u64::MAX }>) {
    assert!(rt;
        world
            .step(&Act::Set(p30(), Component::Label(Label(1))))
            .is_ok()
    );
    for value in 0..MANY {
        assert!(rt; world.step(&Act::Send(p30(), p31(), value)).is_ok());
    }
}

#[test]
fn a_world_of_a_hundred_thousand_processes_makes_as_many_acts(rt: HostRuntime) -> Result<(), Fail> {
    let pids = many_pids(rt.alloc())?;
    let mut world = World::new(rt.alloc(), pids.as_slice())?;
    send_many(&rt, &mut world);
    same(&rt, &world.clock(p30()), &Some(MANY));
    same(&rt, &world.place_of(p31(), p30(), MANY), &Some(MANY - 1));
    same(&rt, &world.clock(Pid::on(1, 49_999)), &Some(0));
    Ok(())
}

#[test]
fn a_draft_of_a_hundred_thousand_processes_closes(rt: HostRuntime) -> Result<(), Fail> {
    let pids = many_pids(rt.alloc())?;
    let mut draft = Draft::new(rt.alloc());
    for &pid in &pids {
        draft.open(pid)?;
    }
    let streams = draft.close()?;
    same(&rt, &streams.pids().len(), &LENGTH);
    same(&rt, &streams.place_of(Pid::on(1, 49_999)), &Some(99_999));
    Ok(())
}

#[test]
fn a_recorder_keeps_a_hundred_thousand_bytes(rt: HostRuntime) -> Result<(), Fail> {
    let text = vec![in rt.alloc(); b'x'; LENGTH]?;
    let sink = MemorySink::new(rt.alloc(), LENGTH, None)?;
    let mut recorder = Recorder::new(rt.alloc(), sink);
    assert!(rt; recorder.put(text.as_slice()) == Ok(LENGTH));
    same(&rt, &recorder.bytes(), &text.as_slice());
    Ok(())
}

#[test]
fn a_recorder_keeps_a_hundred_thousand_bytes_that_were_read(rt: HostRuntime) -> Result<(), Fail> {
    let text = vec![in rt.alloc(); b'x'; LENGTH]?;
    let mut piece = vec![in rt.alloc(); 0; LENGTH]?;
    let mut recorder = Recorder::new(rt.alloc(), MemorySource::new(text.as_slice(), None));
    assert!(rt; recorder.take(piece.as_mut_slice()) == Ok(LENGTH));
    same(&rt, &recorder.bytes(), &text.as_slice());
    Ok(())
}
