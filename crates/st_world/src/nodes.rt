//! The nodes of a world: which of them are traced, and which of their processes an act has touched
//! since the node's last reset. A reset wipes only touched processes, so it costs no more than the
//! acts since the reset before. A tracer change has the same cost on each node.

ghost use Rattle.std.specs.Prelude.{◌≡◌, ◌≢◌, ℕ, ◌<◌, length, false};
ghost use Rattle.std.specs.Prelude.{slice_index_or, IfOk};
ghost use Rattle.st_core.specs.Pid.{IsRising};
ghost use Rattle.st_world.specs.Nodes.{tracers, traced_at, node_at, process_in, AreByNode};
ghost use Rattle.st_world.specs.Nodes.{IsListed};
ghost use Rattle.st_world.specs.Rows.{AreWiped};

use crate::node::Node;
use crate::rows::node_range;
use st_core::{Local, Pid};
use st_mail::Mailboxes;
use std::alloc::{AllocError, Global};
use std::marker::Model;

/// The nodes of the processes, which are known by their numbers alone.
#[derive(Drop)]
pub(crate) struct Nodes {
    // For each process, the place of its node in `nodes`.
    places: Vec<usize>,
    nodes: Vec<Node>,

    // The lists of all nodes. Each process has a slot, which names a process of the same node.
    slots: Vec<usize>,
}

impl Model for Nodes {
    ghost use Rattle.st_world.specs.Nodes.{Groups, AreGroups};

    ghost Value = { Groups };

    ghost view = { λ a. record {
      places = a.places.items;
      nodes = a.nodes.items;
      slots = a.slots.items;
    } };

    ghost invariant = { λ a. AreGroups (record {
      places = a.places.items;
      nodes = a.nodes.items;
      slots = a.slots.items;
    }) };
}

/// Returns the process that the slot of the node's list stands for.
fn process_in(slots: &[usize], node: &Node, slot: usize) -> usize
    requires { slot < length slots.now }
    ensures { result ≡ process_in slots.now node.now slot }
{
    if node.listed == node.end {
        slot
    } else {
        slots[slot]
    }
}

impl Nodes {
    /// Makes the nodes of the processes `pids`: no node is traced, and each process counts as
    /// touched. Fails if memory runs out.
    pub fn new(alloc: Global, pids: &[Pid]) -> Result<Nodes, AllocError>
        requires { IsRising pids.now }
        ensures by_node { IfOk result (λ g. AreByNode pids.now g.places) }
        ensures untraced { IfOk result (λ g. (k : ℕ) → slice_index_or (tracers g) k false ≡ false) }
        ensures listed { IfOk result (λ g. (i : ℕ) → i < length pids.now → IsListed g i) }
    {
        let mut places = Vec::new(alloc);
        let mut nodes = Vec::new(alloc);
        let mut slots = Vec::new(alloc);
        let mut after = 0;
        for number in 0..pids.len() {
            if number == after {
                let (start, end) = node_range(pids, pids[number].node());
                nodes.push(Node {
                    start,
                    end,
                    listed: end,
                    traced: false,
                })?;
                after = end;
            }
            places.push(nodes.len() - 1)?;
            slots.push(number)?;
        }
        Ok(Nodes {
            places,
            nodes,
            slots,
        })
    }

    /// Returns whether the node of the process is traced.
    pub fn is_traced(&self, number: usize) -> bool
        requires { number < length self.now.places }
        ensures { result ≡ traced_at self.now number }
    {
        self.nodes[self.places[number]].traced
    }

    /// Turns tracing of the process's node on or off, and returns whether it was on.
    pub fn trace(&mut self, number: usize, on: bool) -> bool
        requires { number < length self.old.places }
        ensures was { result ≡ traced_at self.old number }
        ensures places { self.new.places ≡ self.old.places }
        ensures here { (i : ℕ)
            → slice_index_or self.old.places i 0 ≡ slice_index_or self.old.places number 0
            → traced_at self.new i ≡ on }
        ensures elsewhere { (i : ℕ)
            → slice_index_or self.old.places i 0 ≢ slice_index_or self.old.places number 0
            → traced_at self.new i ≡ traced_at self.old i }
        ensures listed { (i : ℕ) → IsListed self.old i → IsListed self.new i }
    {
        let node = &mut self.nodes[self.places[number]];
        let was = node.traced;
        node.traced = on;
        was
    }

    /// Lists the process as touched. A full list stays as it is, since it stands for each process
    /// of the node.
    pub fn touch(&mut self, number: usize)
        requires { number < length self.old.places }
        ensures places { self.new.places ≡ self.old.places }
        ensures tracers { tracers self.new ≡ tracers self.old }
        ensures listed { IsListed self.new number }
        ensures others { (i : ℕ) → i < length self.old.places
            → IsListed self.old i → IsListed self.new i }
    {
        let node = &mut self.nodes[self.places[number]];
        if node.listed < node.end {
            self.slots[node.listed] = number;
            node.listed += 1;
        }
    }

    /// Prepares a process for its act: lists it as touched, and sets its mark to whether its node
    /// is traced.
    pub fn ready<const TOP: u64>(&mut self, number: usize, local: &mut Local<TOP>)
        requires { number < length self.old.places }
        ensures local { local.new ≡ record local.old { traced = traced_at self.old number } }
        ensures places { self.new.places ≡ self.old.places }
        ensures tracers { tracers self.new ≡ tracers self.old }
        ensures listed { IsListed self.new number }
        ensures others { (i : ℕ) → i < length self.old.places
            → IsListed self.old i → IsListed self.new i }
    {
        let _was = local.trace(self.is_traced(number));
        self.touch(number);
    }

    /// Wipes the listed processes of the node of process `number`, and the tokens in their queues.
    /// If each process of the node is clean or listed, the node is reset.
    pub fn wipe<const TOP: u64>(
        &self,
        number: usize,
        locals: &mut [Local<TOP>],
        queues: &mut Mailboxes,
    )
        requires number { number < length self.now.places }
        requires locals_len { length locals.old ≡ length self.now.places }
        requires queues_len { length queues.old.boxes ≡ length self.now.places }
        ensures queues_len { length queues.new.boxes ≡ length self.now.places }
        ensures rows { AreWiped self.now number locals.old queues.old.boxes
            locals.new queues.new.boxes }
    {
        let node = self.nodes[self.places[number]];
        for slot in node.start..node.listed {
            let touched = process_in(&self.slots, &node, slot);
            locals[touched].wipe();
            queues.wipe_tokens(touched);
        }
    }

    /// Empties the list of the process's node.
    pub fn clear(&mut self, number: usize)
        requires { number < length self.old.places }
        ensures empty { (node_at self.new number).listed ≡ (node_at self.new number).start }
        ensures places { self.new.places ≡ self.old.places }
        ensures tracers { tracers self.new ≡ tracers self.old }
        ensures others { (i : ℕ)
            → slice_index_or self.old.places i 0 ≢ slice_index_or self.old.places number 0
            → IsListed self.old i → IsListed self.new i }
    {
        let node = &mut self.nodes[self.places[number]];
        node.listed = node.start;
    }
}
