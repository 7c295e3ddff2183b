//! The first event that bears each label.

ghost use Rattle.std.specs.Prelude.{◌≡◌, [], ◌∷◌, ◌++◌, length, List, IfOk, OnOk};
ghost use Rattle.node_machine.specs.Readings.{is_receipt};
ghost use Rattle.node_machine.specs.declared.types.Seen.{Seen as SeenValue};
ghost use Rattle.node_origins.specs.Tables.{AreFirstLabels, first_in};

use node_machine::Seen;
use st_core::{Kind, Label};
use std::alloc::{AllocError, Global};
use std::collections::HashMap;

/// The first event that shows that a token of its process had a label.
#[derive(Clone, Copy, Debug, PartialEq, Eq)]
pub(crate) struct FirstBearer {
    pub(crate) index: usize,
    pub(crate) receives: bool,
}

fn receives(event: Seen) -> bool
    ensures { result ≡ is_receipt event }
{
    event.kind == Kind::Receive
}

/// The first event that bears each label.
#[derive(Drop)]
pub(crate) struct FirstLabels {
    pub(crate) bearers: HashMap<u32, FirstBearer>,
}

impl FirstLabels {
    fn note(&mut self, index: usize, event: Seen) -> Result<(), AllocError>
        ensures { (es : List SeenValue) → length es ≡ index → AreFirstLabels es self.old
            → OnOk result (AreFirstLabels (es ++ event ∷ []) self.new) }
    {
        if event.answer {
            return Ok(());
        }
        if self.bearers.contains_key(&event.label.0) {
            return Ok(());
        }
        let receives = receives(event);
        match self
            .bearers
            .insert(event.label.0, FirstBearer { index, receives })
        {
            Ok(_) => Ok(()),
            Err(_) => Err(AllocError),
        }
    }

    pub(crate) fn of(alloc: Global, events: &[Seen]) -> Result<FirstLabels, AllocError>
        ensures { IfOk result (AreFirstLabels events.now) }
    {
        let mut labels = FirstLabels {
            bearers: HashMap::new(alloc),
        };
        for (index, &event) in events.iter().enumerate() {
            labels.note(index, event)?;
        }
        Ok(labels)
    }

    pub(crate) fn get(&self, label: Label) -> Option<FirstBearer>
        ensures { result ≡ first_in self.now label }
    {
        self.bearers.get(&label.0).copied()
    }
}
