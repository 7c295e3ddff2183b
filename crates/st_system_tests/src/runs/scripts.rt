//! Scripts of processes that act on one another: every act and every want, on one node or more.

use st_core::{Act, Component, Flags, Label, Pid, Sequence, Serial, Token, Want};
use std::alloc::{AllocError, Global};

/// The places of a run's processes: `nodes` nodes with `on_each` processes on each, from 0 on.
#[derive(Clone, Copy)]
pub(super) struct Places {
    pub nodes: u16,
    pub on_each: u16,
}

/// The processes of a run, by rising pid.
pub(super) fn processes(alloc: Global, places: Places) -> Result<Vec<Pid>, AllocError> {
    let mut pids = Vec::new(alloc);
    for node in 0..places.nodes {
        for number in 0..places.on_each {
            let Ok(()) = pids.push(Pid::on(node, number)) else {
                return Err(AllocError);
            };
        }
    }
    Ok(pids)
}

/// Makes a script of `acts` acts for each of the processes.
pub(super) fn scripts(
    alloc: Global,
    pids: &[Pid],
    places: Places,
    acts: u64,
) -> Result<Vec<Sequence<Act>>, AllocError> {
    let mut scripts = Vec::new(alloc);
    for pid in pids {
        let mut script = Vec::new(alloc);
        for n in 0..acts {
            let Ok(()) = script.push(busy_act(*pid, places, n)) else {
                return Err(AllocError);
            };
        }
        let Ok(()) = scripts.push(Sequence::from_vec(script)) else {
            return Err(AllocError);
        };
    }
    Ok(scripts)
}

/// Act n of a busy process. The first fifty have two resets and two changes of the tracer among
/// them.
fn busy_act(me: Pid, places: Places, n: u64) -> Act {
    match n % 500 {
        7 | 29 => Act::Tracer(me, true),
        19 | 41 => Act::Reset(me),
        431 => Act::Tracer(me, false),
        _ => busy_lone_act(me, places, n),
    }
}

/// Makes an act that touches no whole node. Half of them are sends and receives.
fn busy_lone_act(me: Pid, places: Places, n: u64) -> Act {
    let drawn = mixed_number(me, n);
    let other = Pid::on(
        (drawn % 2) as u16 % places.nodes.max(1),
        ((drawn >> 1) % 65_536) as u16 % places.on_each.max(1),
    );
    let value = (drawn >> 20) % 4;
    match n % 32 {
        0 => Act::Receive(me, Want::Both(other, value)),
        1 | 20 => Act::Set(me, Component::Send(true)),
        2 | 21 => Act::Set(me, Component::Receive(true)),
        3 => Act::Set(me, Component::Print(true)),
        4 | 9 | 14 | 19 | 24 | 30 => Act::Send(me, other, value),
        5 => Act::Send(me, me, value),
        6 | 22 | 23 | 26 | 31 => Act::Receive(me, Want::First),
        8 => Act::Receive(me, Want::From(other)),
        10 => Act::Receive(me, Want::Value(value)),
        11 => Act::Receive(me, Want::Place(value)),
        12 => Act::Print(me, value),
        13 => Act::PrintAt(me, Label((value % 2) as u32), value),
        15 => Act::Look(me),
        16 => Act::Restore(me, token(other, value)),
        18 => Act::Clear(me),
        25 => Act::Set(me, Component::Label(Label((value % 2) as u32))),
        28 => Act::Set(me, Component::Print(value != 0)),
        _ => Act::Look(me),
    }
}

/// A token that a process may have kept from before.
fn token(from: Pid, value: u64) -> Token {
    Token {
        label: Label((value % 2) as u32),
        flags: Flags {
            send: true,
            receive: value % 2 == 0,
            print: true,
        },
        serial: Serial {
            prev: value,
            this: value.saturating_add(1),
        },
        from,
    }
}

/// Returns a number that looks random, made from a process and the number of its act.
fn mixed_number(me: Pid, n: u64) -> u64 {
    let seed = u64::from(me.node()) * 65_536 + u64::from(me.number());
    let first = seed
        .wrapping_mul(0x9E37_79B9_7F4A_7C15)
        .wrapping_add(n.wrapping_mul(0xD1B5_4A32_D192_ED03));
    (first ^ (first >> 29)).wrapping_mul(0xBF58_476D_1CE4_E5B9) >> 16
}
