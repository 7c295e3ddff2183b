//! An index and a queue of three messages.

ghost use Rattle.std.specs.Prelude.{◌≡◌, ◌+◌, ◌<◌, IfOk};
ghost use Rattle.st_mail.specs.Index.{IsIndex, keys_of, room};

use crate::helpers::same;
use st_core::{Message, Pid, Serial, Token};
use st_mail::{Index, Keys, SearchKey};
use st_samples::{p30, p31};
use std::alloc::{AllocError, Global};
use std::test::Fail;

/// Returns a message with this value and a token that its sender stamped with this count.
fn stamped_message(from: Pid, value: u64, this: u64) -> Message {
    let mut token = Token::made_by(from);
    token.serial = Serial { prev: 0, this };
    Message {
        from,
        value,
        token: Some(token),
    }
}

/// Adds a message to the index.
fn index_with(mut index: Index, message: &Message) -> Result<Index, AllocError>
    requires index { IsIndex index }
    requires room { 0 < room index }
    ensures index { IfOk result (λ next. IsIndex next) }
    ensures room { IfOk result (λ next. room next + 1 ≡ room index) }
    ensures keys { IfOk result (λ next. keys_of next ≡ keys_of index) }
{
    index.push(message)?;
    Ok(index)
}

/// Returns an index by these keys of the messages 8 and 9 from process 30, and 8 from process 31,
/// whose stamps are 6, 7 and 7.
fn index_of_three(alloc: Global, keys: Keys) -> Result<Index, AllocError>
    ensures index { IfOk result (λ index. IsIndex index) }
    ensures keys { IfOk result (λ index. keys_of index ≡ keys) }
{
    let none = Index::new(alloc, 3, keys)?;
    let one = index_with(none, &stamped_message(p30(), 8, 6))?;
    let two = index_with(one, &stamped_message(p30(), 9, 7))?;
    let three = index_with(two, &stamped_message(p31(), 8, 7))?;
    Ok(three)
}

#[test]
fn an_index_takes_messages(rt: HostRuntime) -> Result<(), Fail> {
    let keys = Keys::default()
        .with(SearchKey::Value)
        .with(SearchKey::Sender)
        .with(SearchKey::Both)
        .with(SearchKey::Stamp);
    let index = index_of_three(rt.alloc(), keys)?;
    same(&rt, &index.find_both(p31(), 8), &Some(2));
    Ok(())
}
