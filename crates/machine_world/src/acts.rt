ghost use Rattle.std.specs.Prelude.{◌≡◌, [], ◌∷◌, ◌++◌, OnOk};

use ck_base::List;
use ck_values::{Ref, Value};
use fixed_point::Memory;
use std::alloc::Global;
use std::marker::Model;

/// What a slice records, to be applied when it stops.
#[derive(Drop)]
pub enum Act {
    /// The bytes of a line are printed.
    Print(List<u8>),
    /// A shred with this number begins, which will run a function on its arguments.
    Spork {
        id: u64,
        fun: u32,
        args: List<Value>,
    },
    /// The shred that waits longest for this event goes on.
    WakeOne(Ref),
    /// All shreds that wait for this event go on.
    WakeAll(Ref),
    /// The shred with this number ends, and all that it sporked; no shred may have the number.
    Remove(i64),
}

/// The acts of a slice in order.
#[derive(Drop)]
pub struct Acts {
    acts: List<Act>,
}

impl Model for Acts {
    ghost use Rattle.std.specs.Prelude.{List as Items};
    ghost use Rattle.machine_world.specs.declared.acts.Act.{Act as One};

    ghost Value = { Items One };

    ghost view = { λ a. a.acts };
}

impl Acts {
    /// No acts.
    pub fn new(alloc: Global) -> Acts
        ensures { result ≡ [] }
    {
        Acts {
            acts: List::from_vec(Vec::new(alloc)),
        }
    }

    /// The acts, the first one first.
    pub fn items(&self) -> &[Act]
        ensures { result.now ≡ self.now }
    {
        self.acts.items()
    }

    /// The acts as a vector, the first one first. It takes no memory.
    pub fn into_vec(self) -> Vec<Act>
        ensures { result.items ≡ self }
    {
        let Acts { acts } = self;
        acts.into_vec()
    }

    /// Adds an act at the end.
    pub fn push(&mut self, act: Act) -> Result<(), Memory>
        ensures { OnOk result (self.new ≡ self.old ++ act ∷ []) }
    {
        self.acts.push(act)?;
        Ok(())
    }
}
