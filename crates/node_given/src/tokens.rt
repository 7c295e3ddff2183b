//! The tokens that a process held.

ghost use Rattle.std.specs.Prelude.{◌≡◌, [], ◌∷◌, List, OnOk, IfSome, IsSome, IsTrue};
ghost use Rattle.st_core.specs.declared.types.Serial.{Serial as SerialValue};
ghost use Rattle.node_machine.specs.Given.{shown, tokens};
ghost use Rattle.node_machine.specs.declared.types.Seen.{Seen as SeenValue};
ghost use Rattle.node_machine.specs.Premises.{IsAmong};
ghost use Rattle.node_given.specs.Tables.{AreTokens};

use crate::counts::last_of_answer;
use node_machine::Seen;
use st_core::{Kind, Serial};
use std::alloc::{AllocError, Global};
use std::collections::{HashMap, HashSet};

/// The serials of the tokens that a process held, or can have made.
#[derive(Drop)]
pub(crate) struct Tokens {
    /// The prev and the count of each serial.
    pub(crate) serials: HashSet<(u64, u64)>,
    /// The prev of a serial with each count.
    pub(crate) prevs: HashMap<u64, u64>,
}

impl Tokens {
    pub(crate) fn new(alloc: Global) -> Tokens
        ensures { AreTokens [] result }
    {
        Tokens {
            serials: HashSet::new(alloc),
            prevs: HashMap::new(alloc),
        }
    }

    pub(crate) fn note(&mut self, prev: u64, this: u64) -> Result<(), AllocError>
        ensures { (xs : List SerialValue) → AreTokens xs self.old
            → OnOk result (AreTokens (record { prev = prev; this = this } ∷ xs) self.new) }
    {
        self.serials.insert((prev, this))?;
        let Ok(_) = self.prevs.insert(this, prev) else {
            return Err(AllocError);
        };
        Ok(())
    }

    pub(crate) fn has(&self, prev: u64, this: u64) -> bool
        ensures found { (xs : List SerialValue) → AreTokens xs self.now → IsTrue result
            → IsAmong xs (record { prev = prev; this = this }) }
        ensures missing { (xs : List SerialValue) → AreTokens xs self.now
            → IsAmong xs (record { prev = prev; this = this }) → IsTrue result }
    {
        self.serials.contains(&(prev, this))
    }

    /// Returns the prev of a token with a count.
    pub(crate) fn prev_with(&self, this: u64) -> Option<u64>
        ensures found { (xs : List SerialValue) → AreTokens xs self.now
            → IfSome result (λ prev. IsAmong xs (record { prev = prev; this = this })) }
        ensures missing { (xs : List SerialValue) → AreTokens xs self.now → (x : SerialValue)
            → IsAmong xs x → x.this ≡ this → IsSome result }
    {
        self.prevs.get(&this).copied()
    }
}
