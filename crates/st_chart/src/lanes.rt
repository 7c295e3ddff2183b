//! The lanes of a chart.

ghost use Rattle.std.specs.Prelude.{◌≡◌, ◌≤◌, ◌||◌, filter, length, IfOk, OnOk};
ghost use Rattle.std.specs.BTreeSet.{contains};
ghost use Rattle.std.specs.List.{list_any};
ghost use Rattle.st_core.specs.declared.types.Pid.{Pid as PidValue};
ghost use Rattle.st_core.specs.Pid.{pid_cmp, IsRising};
ghost use Rattle.st_core.specs.Streams.{is_among};
ghost use Rattle.st_chart.specs.Chart.{all_charted, is_end, lanes};
ghost use Rattle.st_chart.specs.Parts.{is_end_in, IsNoOther, AreCutAtEnds};

use crate::charted_item::ChartedItem;
use st_core::{Event, Label, Pid, Streams};
use st_order::Item;
use std::alloc::{AllocError, Global};
use std::collections::BTreeSet;

/// Adds the event's from and to to the set.
fn note_ends(ends: &mut BTreeSet<Pid>, event: &Event) -> Result<(), AllocError>
    ensures { OnOk result ((p : PidValue) →
        contains pid_cmp ends.new p ≡ (contains pid_cmp ends.old p || is_end event.now p)) }
{
    let Ok(_) = ends.insert(event.from) else {
        return Err(AllocError);
    };
    if let Some(to) = event.to {
        let Ok(_) = ends.insert(to) else {
            return Err(AllocError);
        };
    }
    Ok(())
}

/// Returns the ends of all items that have the label.
fn ends_of(
    alloc: Global,
    streams: &Streams,
    label: Label,
    items: &[Item],
) -> Result<BTreeSet<Pid>, AllocError>
    ensures { IfOk result (λ ends. (p : PidValue) →
        contains pid_cmp ends p ≡ list_any (is_end_in streams.now label p) items.now) }
{
    let mut ends = BTreeSet::new(alloc);
    for item in items {
        if let Some(charted) = ChartedItem::of(streams, label, *item) {
            note_ends(&mut ends, &charted.event)?;
        }
    }
    Ok(ends)
}

fn is_listed(pids: &[Pid], pid: Pid) -> bool
    requires { IsRising pids.now }
    ensures { result ≡ is_among pids.now pid }
{
    pids.binary_search(&pid).is_ok()
}

/// Returns the pids that are ends. Looks up each end, since there are few if few items have the
/// label.
fn ends_among(alloc: Global, pids: &[Pid], ends: &BTreeSet<Pid>) -> Result<Vec<Pid>, AllocError>
    requires { IsRising pids.now }
    ensures { IfOk result (λ noted. noted.items ≡ filter (contains pid_cmp ends.now) pids.now) }
{
    let mut noted = Vec::new(alloc);
    for end in ends {
        if is_listed(pids, *end) {
            noted.push(*end)?;
        }
    }
    Ok(noted)
}

/// Returns the lanes, by rising pid: the listed processes that are the from or the to of an item
/// with the label.
pub(crate) fn lanes_of(
    alloc: Global,
    streams: &Streams,
    label: Label,
    items: &[Item],
) -> Result<Vec<Pid>, AllocError>
    ensures lanes { IfOk result (λ pids. pids.items
        ≡ lanes streams.now (all_charted streams.now items.now label)) }
    ensures rising { IfOk result (λ pids. IsRising pids.items) }
{
    let ends = ends_of(alloc, streams, label, items)?;
    ends_among(alloc, streams.pids(), &ends)
}

/// Returns the number of lanes up to and with the process's lane, or of all lanes if it has none.
fn lanes_to(lanes: &[Pid], pid: Option<Pid>) -> usize
    requires { IsRising lanes.now }
    ensures within { result ≤ length lanes.now }
    ensures others { IsNoOther pid lanes.now result }
{
    let Some(pid) = pid else {
        return lanes.len();
    };
    match lanes.binary_search(&pid) {
        Ok(lane) => lane + 1,
        Err(_) => lanes.len(),
    }
}

/// Returns the number of lanes up to and with the event's first end, and up to and with its
/// second. An end that has no lane counts all lanes.
pub(crate) fn lanes_to_ends(lanes: &[Pid], event: &Event) -> (usize, usize)
    requires { IsRising lanes.now }
    ensures { AreCutAtEnds event.now lanes.now result.0 result.1 }
{
    let from = lanes_to(lanes, Some(event.from));
    let to = lanes_to(lanes, event.to);
    (from.min(to), from.max(to))
}
