//! Reading acts and replies out of entries, which stay in their logs.

ghost use Rattle.std.specs.Prelude.{◌≡◌, map, All, IfOk};
ghost use Rattle.st_runtime.specs.Joining.{referred, IsThere};

use crate::join::walk::Reference;
use st_core::{Act, Reply};
use std::alloc::{AllocError, Global};

/// Returns the act of the entry that is referred to.
fn act_of(reference: &Reference<'_>) -> Act
    requires { IsThere reference.now }
    ensures { result ≡ (referred reference.now).act }
{
    let (log, place) = *reference;
    log.act_at(place)
}

/// Returns the reply of the entry that is referred to.
fn reply_of(reference: &Reference<'_>) -> Reply
    requires { IsThere reference.now }
    ensures { result ≡ (referred reference.now).reply }
{
    let (log, place) = *reference;
    log.reply_at(place)
}

/// Returns the acts of entries.
pub fn acts_of(alloc: Global, entries: &[Reference<'_>]) -> Result<Vec<Act>, AllocError>
    requires { All IsThere entries.now }
    ensures { IfOk result (λ v. v.items ≡ map (λ r. (referred r).act) entries.now) }
{
    let mut acts = Vec::with_capacity(alloc, entries.len())?;
    for reference in entries {
        acts.push_reserved(act_of(reference));
    }
    Ok(acts)
}

/// Returns the replies of entries.
pub fn replies_of(alloc: Global, entries: &[Reference<'_>]) -> Result<Vec<Reply>, AllocError>
    requires { All IsThere entries.now }
    ensures { IfOk result (λ v. v.items ≡ map (λ r. (referred r).reply) entries.now) }
{
    let mut replies = Vec::with_capacity(alloc, entries.len())?;
    for reference in entries {
        replies.push_reserved(reply_of(reference));
    }
    Ok(replies)
}
