//! Mailboxes after memory ran out.

ghost use Rattle.std.specs.Prelude.{◌≡◌, ◌<◌, length, IfOk};

use crate::helpers::same;
use st_core::Message;
use st_mail::Mailboxes;
use st_samples::p30;
use std::alloc::{AllocError, Global};
use std::process::Abort;
use std::test::Fail;

/// Returns a message from process 30 with this value and no token.
fn plain_message(value: u64) -> Message {
    Message {
        from: p30(),
        value,
        token: None,
    }
}

/// Makes two empty mailboxes. If memory runs out, the second try succeeds.
fn two_at_last(alloc: Global) -> Result<Mailboxes, AllocError>
    ensures { IfOk result (λ mail. length mail.boxes ≡ 2) }
{
    match Mailboxes::new(alloc, 2) {
        Ok(mail) => Ok(mail),
        Err(_) => Mailboxes::new(alloc, 2),
    }
}

/// Puts a message with this value into mailbox 1. If memory runs out, the second try succeeds.
fn put_at_last(rt: &impl Abort, mail: &mut Mailboxes, value: u64)
    requires { 1 < length mail.old.boxes }
    ensures { length mail.new.boxes ≡ length mail.old.boxes }
{
    if mail.put(1, plain_message(value)).is_err() {
        assert!(rt; mail.put(1, plain_message(value)).is_ok());
    }
}

// No machine has room for `usize::MAX` messages. The test shows that a put that failed may be
// asked again if it runs with an allocation that fails.
#[test]
fn a_put_without_memory_may_be_asked_again(rt: HostRuntime) -> Result<(), Fail> {
    let mut mail = two_at_last(rt.alloc())?;
    assert!(rt; mail.reserve(usize::MAX).is_err());
    for value in 0..20 {
        put_at_last(&rt, &mut mail, value);
    }
    same(&rt, &(mail.len(0), mail.len(1)), &(0, 20));
    Ok(())
}
