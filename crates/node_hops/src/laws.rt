//! The claims of hops in all runs of a standard node without a reset, and what trees have, as
//! contracts of functions that do nothing: a proof that calls a function may use its clause.

ghost use Rattle.std.specs.Prelude.{◌≡◌, ℕ, List, Some, slice_get, Bool};
ghost use Rattle.st_core.specs.declared.types.Event.{Event};
ghost use Rattle.st_core.specs.declared.types.Pid.{Pid};
ghost use Rattle.st_core.specs.Run.{Stream};
ghost use Rattle.st_core.specs.Streams.{IsStreams};
ghost use Rattle.st_pair.specs.Places.{event_at};
ghost use Rattle.node_hops.specs.Claims.{IsTrueOnNode};
ghost use Rattle.node_hops.specs.Hops.{node_hop_of};
ghost use Rattle.node_hops.specs.Tree.{children};
ghost use Rattle.node_hops.specs.Way.{next_at};

/// The claim of a hop is true in every run of the node without a reset that has the streams and in
/// which the hop's premises hold.
pub fn hops_are_true()
    ensures { (streams : List Stream) (p : Pid) (i : ℕ) (e : Event) → IsStreams streams
        → event_at streams p i ≡ Some e → IsTrueOnNode streams p i e (node_hop_of streams p i e) }
{}

/// A tree leaves nothing out: an event whose hop leads to another is directly below that one.
pub fn all_that_follows_is_below()
    ensures { (streams : List Stream) (across : Bool) (x y : Pid × ℕ) → IsStreams streams
        → next_at streams across y ≡ Some x
        → (k : ℕ) × (slice_get (children streams across x) k ≡ Some y) }
{}

/// A tree adds nothing: the hop of each event that is directly below another leads to that one.
pub fn all_that_is_below_follows()
    ensures { (streams : List Stream) (across : Bool) (x y : Pid × ℕ) (k : ℕ) → IsStreams streams
        → slice_get (children streams across x) k ≡ Some y → next_at streams across y ≡ Some x }
{}
