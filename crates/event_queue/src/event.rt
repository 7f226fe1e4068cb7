//! Events as keys.
ghost use Rattle.std.specs.Ordering.{on, nat_cmp, as_partial_cmp};
ghost use Rattle.std.specs.Prelude.{nat_eq};
ghost use Rattle.std.proofs.Common.{rules};
ghost use Rattle.std.specs.Cmp.{partial_order_from_own_ties};
ghost use Rattle.std.specs.Cmp.Rules.{comparing};
ghost use Rattle.event_queue.specs.Events.{serial_of};

use ck_values::Ref;
use std::cmp::Ordering;

/// An event, which is told apart from others by the number of its object alone.
#[derive(Clone, Copy)]
pub(crate) struct Event {
    pub(crate) object: Ref,
}

impl PartialEq for Event {
    ghost eq = { on serial_of nat_eq };

    ghost laws = { Prim.search (comparing, rules) };

    fn eq(&self, other: &Event) -> bool {
        self.object.serial == other.object.serial
    }
}

impl Eq for Event {
    ghost laws = { Prim.search (comparing, rules) };
}

impl PartialOrd for Event {
    ghost partial_cmp = { as_partial_cmp (on serial_of nat_cmp) };

    ghost laws = { partial_order_from_own_ties (Prim.search (comparing, rules))
        (Prim.search (comparing, rules)) };

    fn partial_cmp(&self, other: &Event) -> Option<Ordering> {
        Some(self.cmp(other))
    }
}

impl Ord for Event {
    ghost cmp = { on serial_of nat_cmp };

    ghost total = { Prim.search (comparing, rules) };

    ghost matches_partial_cmp = { Prim.search (comparing, rules) };

    ghost matches_eq = { Prim.search (comparing, rules) };

    fn cmp(&self, other: &Event) -> Ordering {
        self.object.serial.cmp(&other.object.serial)
    }
}
