//! Laws of the order, as contracts of functions that do nothing: each clause is a theorem over the
//! definitions of `specs/`, and a proof that calls the function may use it.

ghost use Rattle.std.specs.Prelude.{◌≡◌, List, None, filter, length};
ghost use Rattle.st_core.specs.declared.types.Pid.{Pid};
ghost use Rattle.st_core.specs.Pid.{IsRising};
ghost use Rattle.st_core.specs.Run.{Stream, pids_of};
ghost use Rattle.st_core.specs.Streams.{events_of};
ghost use Rattle.st_pair.specs.Pairing.{repeated};
ghost use Rattle.st_pair.specs.Places.{first};
ghost use Rattle.st_order.specs.declared.item.Item.{Item};
ghost use Rattle.st_order.specs.Order.{IsOrder, order};
ghost use Rattle.st_order.specs.Turn.{StampsLead, in_turn, is_event_of};

/// There is at most one order, so `order` returns the same list for every number of threads.
pub fn one_order()
    ensures { (streams : List Stream) (xs ys : List Item) → IsOrder streams xs → IsOrder streams ys
        → xs ≡ ys }
{}

/// If no two receives have the same sender and count, there is an order: the computed one.
/// Otherwise two hidden sends could have the same key.
pub fn an_order()
    ensures { (streams : List Stream) → IsRising (pids_of streams)
        → first (repeated streams) streams ≡ None
        → IsOrder streams (order streams) }
{}

/// If each send and print of a process has a greater count than all its events before it, the
/// order lists all the process's events by rising index: heights never fall, and one stays only at
/// a receive.
pub fn leading_stamps_keep_turn()
    ensures { (streams : List Stream) (xs : List Item) (p : Pid) → IsRising (pids_of streams)
        → IsOrder streams xs → StampsLead streams p
        → filter (is_event_of p) xs ≡ in_turn p 0 (length (events_of streams p)) }
{}
