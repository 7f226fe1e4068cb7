//! What instructions and the end of a shred do to the unit generators of a world.
ghost use Rattle.std.specs.Prelude.{◌≡◌, not, filter, Some, IfOk, IfErr, OnOk, OnErr};
ghost use Rattle.std.specs.Prelude.{MatchResult};
ghost use Rattle.ck_values.specs.Datum.{meant, ARef};
ghost use Rattle.ck_typed.specs.WellFormed.{IsMade};
ghost use Rattle.ck_store.specs.Store.{Gives, Fails, IsFitting};
ghost use Rattle.ck_store.specs.Graph.{place_at, unit_made, connected, disconnected, parameter_of};
ghost use Rattle.ck_store.specs.Graph.{parameter_set, unit_keyed, unit_staged};
ghost use Rattle.object_heap.specs.Objects.{object};
ghost use Rattle.object_heap.specs.declared.body.Body.TheVariants.{Ugen};
ghost use Rattle.ugen_graph.specs.Links.{touches};
ghost use Rattle.value_ops.specs.Ends.{OnTrap};
ghost use Rattle.value_ops.specs.Heaps.{objects_of};
ghost use Rattle.machine_world.specs.Units.{detached};
ghost use Rattle.machine_world.specs.Tries.{CanDo, Answers, Refuses, Ends, Does, Becomes};

use crate::readers::reference;
use crate::world::{World, add_object};
use ck_values::{Ref, Side, Trap, Value};
use fixed_point::Fix;
use object_heap::{Body, Heap};
use std::alloc::Global;
use ugen_graph::{ConnectEnd, Graph, Joint};
use ugen_kinds::SetEnd;
use ugen_names::{Param, UgenKind};
use value_ops::OpEnd;

// The place in the graph of the unit generator that a reference refers to; null is a trap.
fn node_of(heap: &Heap, at: Ref) -> Result<usize, Trap>
    requires first { heap.now.first ≡ 1 }
    requires unit { IsFitting (place_at (objects_of heap.now) (ARef at.serial)) }
    ensures place { MatchResult result
        (λ node. place_at (objects_of heap.now) (ARef at.serial) ≡ Gives node)
        (λ trap. place_at (objects_of heap.now) (ARef at.serial) ≡ Fails trap) }
    ensures unit { IfOk result (λ node. object heap.now at ≡ Some (Ugen node)) }
{
    if at.serial == 0 {
        return Err(Trap::NullPointer);
    }
    match heap.body(at) {
        Body::Ugen { node } => Ok(*node),
        _ => unreachable!(),
    }
}

// Takes out all connections that touch a unit generator which this shred made.
fn detach_all(graph: &mut Graph, maker: u64)
    ensures { graph.new ≡ record graph.old {
      links = filter (λ l. not (touches graph.old.units maker l)) graph.old.links;
    } }
{
    'links: while let Some(_link) = graph.detach(maker) {}
}

impl World {
    /// Makes a unit generator of a shred; `Trap` comes exactly where as many objects were made as
    /// may be, and nothing has changed then.
    pub fn make_unit(&mut self, alloc: Global, kind: UgenKind, maker: u64) -> Result<Ref, OpEnd>
        requires { IsMade kind }
        ensures made { IfOk result (λ at. Does self.old (unit_made kind maker)
            (λ after. record { reference = ARef at.serial; store = after }) self.new) }
        ensures end { IfErr result (Ends self.old (unit_made kind maker)) }
        ensures same { IfErr result (λ end. OnTrap end (λ trap. self.new ≡ self.old)) }
        ensures ran { self.new.ran ≡ self.old.ran }
    {
        if self.heap.is_full() {
            return Err(OpEnd::Trap(Trap::ObjectLimit));
        }
        let node = self.graph.add(alloc, kind, maker, self.heap.made() + 1)?;
        // There is a number left for it, so that only memory can be wanting.
        add_object(&mut self.heap, Body::Ugen { node })
    }

    /// Connects a unit generator to another, behind all connections; null is a trap, and so is a
    /// connection after all that may be made.
    pub fn connect(&mut self, from: Ref, to: &Value) -> Result<(), OpEnd>
        requires { CanDo self.old (connected (ARef from.serial) (meant to.now)) }
        ensures connected { OnOk result (Does self.old
            (connected (ARef from.serial) (meant to.now)) (λ after. after) self.new) }
        ensures end { IfErr result
            (Ends self.old (connected (ARef from.serial) (meant to.now))) }
        ensures same { OnErr result (self.new ≡ self.old) }
        ensures ran { self.new.ran ≡ self.old.ran }
    {
        let node = match node_of(&self.heap, from) {
            Ok(node) => node,
            Err(trap) => return Err(OpEnd::Trap(trap)),
        };
        let from = Joint { node, at: from };
        let to = reference(to);
        let node = match node_of(&self.heap, to) {
            Ok(node) => node,
            Err(trap) => return Err(OpEnd::Trap(trap)),
        };
        match self.graph.connect(from, Joint { node, at: to }, Side::Both) {
            Ok(()) => Ok(()),
            Err(ConnectEnd::Connections) => Err(OpEnd::Trap(Trap::Connections)),
            Err(ConnectEnd::Memory(memory)) => Err(OpEnd::Memory(memory)),
        }
    }

    /// Takes out the earliest connection from a unit generator to another, where there is one; null
    /// is a trap.
    pub fn disconnect(&mut self, from: Ref, to: &Value) -> Result<(), Trap>
        requires { CanDo self.old (disconnected (ARef from.serial) (meant to.now)) }
        ensures disconnected { OnOk result (Does self.old
            (disconnected (ARef from.serial) (meant to.now)) (λ after. after) self.new) }
        ensures null { IfErr result
            (Refuses self.old (disconnected (ARef from.serial) (meant to.now))) }
        ensures same { OnErr result (self.new ≡ self.old) }
        ensures ran { self.new.ran ≡ self.old.ran }
    {
        let from = node_of(&self.heap, from)?;
        let to = node_of(&self.heap, reference(to))?;
        self.graph.disconnect(from, to, Side::Both);
        Ok(())
    }

    /// A parameter of a unit generator; null is a trap.
    pub fn parameter(&self, at: Ref, p: Param) -> Result<Value, Trap>
        requires { CanDo self.now (parameter_of p (ARef at.serial)) }
        ensures found { IfOk result (λ v.
            Answers self.now (parameter_of p (ARef at.serial)) (meant v)) }
        ensures null { IfErr result (Refuses self.now (parameter_of p (ARef at.serial))) }
    {
        let node = node_of(&self.heap, at)?;
        Ok(self.graph.param(node, p))
    }

    /// Sets a parameter of a unit generator and reads it back; null is a trap, and so is what a
    /// delay line can't have. The value is let go.
    pub fn set_parameter(
        &mut self,
        alloc: Global,
        at: Ref,
        p: Param,
        v: Value,
    ) -> Result<Value, OpEnd>
        requires { CanDo self.old (parameter_set p (ARef at.serial) (meant v)) }
        ensures set { IfOk result (λ back. Does self.old
            (parameter_set p (ARef at.serial) (meant v))
            (λ after. record { value = meant back; store = after }) self.new) }
        ensures end { IfErr result
            (Ends self.old (parameter_set p (ARef at.serial) (meant v))) }
        ensures same { OnErr result (self.new ≡ self.old) }
        ensures ran { self.new.ran ≡ self.old.ran }
    {
        let node = match node_of(&self.heap, at) {
            Ok(node) => node,
            Err(trap) => return Err(OpEnd::Trap(trap)),
        };
        match self.graph.set(alloc, node, p, v) {
            Ok(()) => Ok(self.graph.param(node, p)),
            Err(SetEnd::DelayLimit) => Err(OpEnd::Trap(Trap::DelayLimit)),
            Err(SetEnd::Memory(memory)) => Err(OpEnd::Memory(memory)),
        }
    }

    /// Presses the key of an envelope, or lets it go; null is a trap.
    pub fn key(&mut self, at: Ref, is_on: bool) -> Result<(), Trap>
        requires { CanDo self.old (unit_keyed is_on (ARef at.serial)) }
        ensures keyed { OnOk result (Does self.old (unit_keyed is_on (ARef at.serial))
            (λ after. after) self.new) }
        ensures null { IfErr result (Refuses self.old (unit_keyed is_on (ARef at.serial))) }
        ensures same { OnErr result (self.new ≡ self.old) }
        ensures ran { self.new.ran ≡ self.old.ran }
    {
        let node = node_of(&self.heap, at)?;
        self.graph.key(node, is_on);
        Ok(())
    }

    /// Gives an ADSR its stages: the samples of its attack, decay and release, and the level that
    /// it sustains; null is a trap.
    pub fn set_stages(
        &mut self,
        at: Ref,
        attack: i64,
        decay: i64,
        sustain: Fix,
        release: i64,
    ) -> Result<(), Trap>
        requires { CanDo self.old
            (unit_staged attack decay sustain release (ARef at.serial)) }
        ensures staged { OnOk result (Does self.old
            (unit_staged attack decay sustain release (ARef at.serial))
            (λ after. after) self.new) }
        ensures null { IfErr result (Refuses self.old
            (unit_staged attack decay sustain release (ARef at.serial))) }
        ensures same { OnErr result (self.new ≡ self.old) }
        ensures ran { self.new.ran ≡ self.old.ran }
    {
        let node = node_of(&self.heap, at)?;
        self.graph.adsr(node, attack, decay, sustain, release);
        Ok(())
    }

    /// Takes out all connections that touch a unit generator which this shred made. It takes no
    /// memory.
    pub fn detach(&mut self, maker: u64)
        ensures store { Becomes self.old (detached maker) self.new }
        ensures time { self.new.time ≡ self.old.time }
        ensures ran { self.new.ran ≡ self.old.ran }
    {
        detach_all(&mut self.graph, maker);
    }
}
