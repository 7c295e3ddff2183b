//! Items by label.

ghost use Rattle.std.specs.Prelude.{◌≡◌, ◌≤◌, ◌<◌, length, map, IfOk};
ghost use Rattle.std.specs.List.{filter_map};
ghost use Rattle.st_order.specs.Labels.{IsByLabel, label_of};
ghost use Rattle.st_order.specs.Groups.{with_label, leading_with, groups_of};

use crate::item::Item;
use rayon::prelude::*;
use st_core::{Label, Sequence, Streams};
use std::alloc::{AllocError, Global};
use std::thread::Threads;

#[derive(Clone, Copy, Debug, PartialEq, Eq)]
pub struct LabelledItem {
    /// The label of the event that the item is about.
    pub label: Label,
    pub item: Item,
}

fn label_of(streams: &Streams, item: Item) -> Option<Label>
    ensures { result ≡ label_of streams.now item }
{
    match item.event(streams) {
        None => None,
        Some(event) => Some(event.label),
    }
}

/// Returns the items at whose places there are events, each with its label.
fn with_labels(
    alloc: Global,
    streams: &Streams,
    items: &[Item],
) -> Result<Vec<LabelledItem>, AllocError>
    ensures { IfOk result (λ made. made.items ≡ filter_map (with_label streams.now) items.now) }
{
    let mut labelled = Vec::with_capacity(alloc, items.len())?;
    for &item in items {
        if let Some(label) = label_of(streams, item) {
            labelled.push(LabelledItem { label, item })?;
        }
    }
    Ok(labelled)
}

fn leading_with(labelled: &[LabelledItem], label: Label) -> usize
    ensures count { result ≡ leading_with label labelled.now }
    ensures within { result ≤ length labelled.now }
{
    for (i, one) in labelled.iter().enumerate() {
        if one.label.0 != label.0 {
            return i;
        }
    }
    labelled.len()
}

fn items_of(alloc: Global, labelled: &[LabelledItem]) -> Result<Sequence<Item>, AllocError>
    ensures { IfOk result (λ items. items ≡ map (λ x. x.item) labelled.now) }
{
    let mut items = Vec::with_capacity(alloc, labelled.len())?;
    for one in labelled {
        items.push(one.item)?;
    }
    Ok(Sequence::from_vec(items))
}

fn groups_of(
    alloc: Global,
    labelled: &[LabelledItem],
) -> Result<Sequence<(Label, Sequence<Item>)>, AllocError>
    ensures { IfOk result (λ groups. groups ≡ groups_of labelled.now) }
{
    let mut groups = Sequence::new(alloc);
    let mut rest = labelled;
    while let Some(first) = rest.first() {
        let label = first.label;
        let (group, others) = rest.split_at(leading_with(rest, label));
        let items = items_of(alloc, group)?;
        let Ok(()) = groups.push((label, items)) else {
            return Err(AllocError);
        };
        rest = others;
    }
    Ok(groups)
}

/// Returns for each label that an item has, by rising label, the items that have it, in their
/// order. It sorts on several threads, and the result doesn't depend on their number. An item at
/// whose place the streams have no event has no label and is left out.
pub fn by_label(
    rt: &(impl Threads + Sync),
    alloc: Global,
    streams: &Streams,
    items: &[Item],
) -> Result<Sequence<(Label, Sequence<Item>)>, AllocError>
    ensures { IfOk result (IsByLabel streams.now items.now) }
{
    let mut labelled = with_labels(alloc, streams, items)?;
    let sorted = labelled.as_mut_slice();
    par_sort_by_key(
        rt,
        alloc,
        sorted,
        |one: &LabelledItem| -> u32
            ensures { result ≡ one.now.label.0 }
        { one.label.0 },
    )?;
    groups_of(alloc, sorted)
}
