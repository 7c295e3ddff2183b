//! The number of alike messages before each event's. The ends are sorted for it, since whoever
//! writes a trace could choose contents whose hashes meet.

ghost use Rattle.std.specs.Prelude.{◌≡◌, ◌+◌, false, IfOk, if◌then◌else◌};
ghost use Rattle.std.specs.Option.{option_map_or};
ghost use Rattle.node_streams.specs.Messages.{content_eq};
ghost use Rattle.node_streams.specs.Tables.{CountAlike};

use crate::content::MessageContent;
use crate::ends::ends_by_content;
use crate::numbers::put;
use st_core::{Event, Kind};
use std::alloc::{AllocError, Global};

/// Returns the number of alike ends before an end with the content, from the last end before it
/// and that end's number.
fn number_after(
    last: Option<MessageContent>,
    number: u64,
    content: MessageContent,
) -> Result<u64, AllocError>
    ensures { IfOk result (λ n. n
        ≡ (if option_map_or (λ d. content_eq d content) last false then number + 1 else 0)) }
{
    match last {
        None => Ok(0),
        Some(last) => {
            if last == content {
                // There is one more, since memory holds the events.
                number.checked_add(1).ok_or(AllocError)
            } else {
                Ok(0)
            }
        }
    }
}

/// Returns for each event of a kind the number of alike ones before it, and 0 for the others.
pub(crate) fn alike_before(
    alloc: Global,
    kind: Kind,
    events: &[Event],
) -> Result<Vec<u64>, AllocError>
    ensures { IfOk result (λ v. CountAlike kind events.now v.items) }
{
    let ends = ends_by_content(alloc, kind, events)?;
    let mut numbers = vec![in alloc; 0u64; events.len()]?;
    let mut last = None;
    let mut number = 0;
    for end in &ends {
        number = number_after(last, number, end.content)?;
        last = Some(end.content);
        put(&mut numbers, end.index as usize, number);
    }
    Ok(numbers)
}
