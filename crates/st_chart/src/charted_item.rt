//! An item of a chart.

ghost use Rattle.std.specs.Prelude.{◌≡◌, false};
ghost use Rattle.std.specs.Option.{option_map_or};
ghost use Rattle.st_core.specs.Pid.{pid_eq};
ghost use Rattle.std.specs.List.{list_any};
ghost use Rattle.st_order.specs.Labels.{item_has_label};
ghost use Rattle.st_chart.specs.Chart.{charted_of, is_at, is_end};

use st_core::{Event, Kind, Label, Pid, Streams};
use st_order::Item;

/// An item that a chart shows, with its event.
#[derive(Clone, Copy, Debug)]
pub(crate) struct ChartedItem {
    /// The item.
    pub(crate) item: Item,
    /// The item's event: of a hidden send the event of its receive.
    pub(crate) event: Event,
}

impl ChartedItem {
    /// Returns the item with its event, if there is an event at the item's place and it has the
    /// label.
    pub(crate) fn of(streams: &Streams, label: Label, item: Item) -> Option<ChartedItem>
        ensures { result ≡ charted_of streams.now label item }
    {
        match item.event(streams) {
            None => None,
            Some(event) => {
                if event.label.0 == label.0 {
                    Some(ChartedItem { item, event })
                } else {
                    None
                }
            }
        }
    }

    /// Returns whether the item happened at the process.
    pub(crate) fn is_at(&self, pid: Pid) -> bool
        ensures { result ≡ is_at self.now pid }
    {
        match self.item {
            Item::Hidden(_, _) => self.event.from == pid,
            Item::Reported(_, _) => match self.event.kind {
                Kind::Send => self.event.from == pid,
                Kind::Receive => is_receiver(&self.event, pid),
                Kind::Print => self.event.from == pid,
            },
        }
    }
}

/// Returns whether the process is the event's `to`.
fn is_receiver(event: &Event, pid: Pid) -> bool
    ensures { result ≡ option_map_or (λ q. pid_eq q pid) event.now.to false }
{
    match event.to {
        None => false,
        Some(to) => to == pid,
    }
}

/// Returns whether the process is the event's `from` or `to`.
pub(crate) fn is_end(event: &Event, pid: Pid) -> bool
    ensures { result ≡ is_end event.now pid }
{
    event.from == pid || is_receiver(event, pid)
}

/// Returns whether any item has the label.
pub(crate) fn is_any_charted(streams: &Streams, label: Label, items: &[Item]) -> bool
    ensures { result ≡ list_any (item_has_label streams.now label) items.now }
{
    items
        .iter()
        .any(|item| ChartedItem::of(streams, label, *item).is_some())
}
