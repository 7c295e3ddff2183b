//! The acts after which a process is ready to stamp a serial, as a list that is only planned:
//! nothing here steps a world.

ghost use Rattle.std.specs.Prelude.{◌≡◌, ◌++◌, OnOk};
ghost use Rattle.st_plan.specs.Build.{dress, flags_eq, is_dressed, raise};
ghost use Rattle.st_plan.specs.Build.{ready, renew, silent_prints};
ghost use Rattle.st_plan.specs.Build.{unstamped_token};

use st_core::{Act, Component, Flags, Label, Pid, Serial, Token};
use std::alloc::AllocError;

/// The part of a process's state, before an item, that decides which acts the item needs.
#[derive(Clone, Copy, Debug)]
pub struct Start {
    /// The process's token, if it has one.
    pub token: Option<Token>,
    /// The process's clock.
    pub clock: u64,
    /// The process's last count.
    pub last: u64,
}

/// Flags under which nothing is reported.
pub const QUIET: Flags = Flags {
    send: false,
    receive: false,
    print: false,
};

/// Returns a token with the label and the flags, to be restored before a stamp, which gives it a
/// serial.
fn unstamped_token(pid: Pid, label: Label, flags: Flags) -> Token
    ensures { result ≡ unstamped_token pid label flags }
{
    Token {
        label,
        flags,
        serial: Serial { prev: 0, this: 0 },
        from: pid,
    }
}

fn are_same(flags: Flags, others: Flags) -> bool
    ensures { result ≡ flags_eq flags others }
{
    flags.send == others.send && (flags.receive == others.receive && flags.print == others.print)
}

fn is_dressed(token: Option<Token>, label: Label, flags: Flags) -> bool
    ensures { result ≡ is_dressed label flags token }
{
    match token {
        None => false,
        Some(token) => token.label.0 == label.0 && are_same(token.flags, flags),
    }
}

/// Adds an act that gives the process a token with the label and the flags, unless it has one.
fn dress(
    plan: &mut Vec<Act>,
    pid: Pid,
    token: Option<Token>,
    label: Label,
    flags: Flags,
) -> Result<(), AllocError>
    ensures { OnOk result (plan.new.items ≡ plan.old.items ++ dress pid token label flags) }
{
    if is_dressed(token, label, flags) {
        return Ok(());
    }
    plan.push(Act::Restore(pid, unstamped_token(pid, label, flags)))?;
    Ok(())
}

/// Adds `count` prints of the process that nobody sees.
fn print_silently(plan: &mut Vec<Act>, pid: Pid, count: u64) -> Result<(), AllocError>
    ensures { OnOk result (plan.new.items ≡ plan.old.items ++ silent_prints pid count) }
{
    for _ in 0..count {
        plan.push(Act::Print(pid, 0))?;
    }
    Ok(())
}

/// Adds acts that raise the clock to `prev`, if it is below, and begin a new trace there.
fn renew(
    plan: &mut Vec<Act>,
    pid: Pid,
    start: &Start,
    label: Label,
    prev: u64,
) -> Result<(), AllocError>
    ensures { OnOk result (plan.new.items ≡ plan.old.items ++ renew pid start.now label prev) }
{
    if start.clock < prev {
        dress(plan, pid, start.token, label, QUIET)?;
        print_silently(plan, pid, prev - start.clock)?;
    }
    plan.push(Act::Clear(pid))?;
    plan.push(Act::Set(pid, Component::Label(label)))?;
    Ok(())
}

/// Adds acts that raise the clock to `count`, if it is below, and then set the flags.
fn raise(
    plan: &mut Vec<Act>,
    pid: Pid,
    start: &Start,
    label: Label,
    count: u64,
    flags: Flags,
) -> Result<(), AllocError>
    ensures { OnOk result (plan.new.items
        ≡ plan.old.items ++ raise pid start.now label count flags) }
{
    if start.clock < count {
        dress(plan, pid, start.token, label, QUIET)?;
        print_silently(plan, pid, count - start.clock)?;
        let token = Some(unstamped_token(pid, label, QUIET));
        return dress(plan, pid, token, label, flags);
    }
    dress(plan, pid, start.token, label, flags)
}

/// Adds the acts after which the process is ready to stamp the serial under the label and the
/// flags. Fails only if memory runs out.
pub fn ready(
    plan: &mut Vec<Act>,
    pid: Pid,
    start: &Start,
    label: Label,
    serial: Serial,
    flags: Flags,
) -> Result<(), AllocError>
    ensures { OnOk result (plan.new.items
        ≡ plan.old.items ++ ready pid start.now label serial flags) }
{
    let count = serial.this.saturating_sub(1);
    if serial.prev == start.last {
        return raise(plan, pid, start, label, count, flags);
    }
    renew(plan, pid, start, label, serial.prev)?;
    let renewed = Start {
        token: Some(unstamped_token(pid, label, QUIET)),
        clock: start.clock.max(serial.prev),
        last: serial.prev,
    };
    raise(plan, pid, &renewed, label, count, flags)
}
