//! The acts that touch a whole node.

ghost use Rattle.std.specs.Prelude.{◌≡◌};
ghost use Rattle.st_log.specs.Entries.{is_wide};

use st_core::Act;

/// Returns whether the act touches all processes of its actor's node: a reset or a tracer change.
pub fn is_wide(act: &Act) -> bool
    ensures { result ≡ is_wide act.now }
{
    matches!(*act, Act::Reset(_) | Act::Tracer(..))
}
