//! The connections, with what a sample needs of them at hand.
ghost use Rattle.std.specs.Prelude.{◌≡◌, ◌↔◌, ◌<◌, ℕ, suc, [], ◌∷◌, ◌++◌, length, OnOk, OnErr, IfOk};
ghost use Rattle.std.specs.Prelude.{Some, slice_get, slice_index_or};
ghost use Rattle.std.specs.List.{remove};
ghost use Rattle.std.specs.Prelude.{IfErr};
ghost use Rattle.fixed_point.specs.Wanting.{out_of_memory};
ghost use Rattle.ugen_graph.specs.declared.link.ConnectEnd.TheVariants as wanted;
ghost use Rattle.ck_base.specs.declared.limits.TheConstants.{MAX_CONNECTIONS};
ghost use Rattle.ugen_sample.specs.declared.choices.Channel.TheVariants.{Left, Right};
ghost use Rattle.ugen_sample.specs.Order.{order, roots, sources_of};
ghost use Rattle.ugen_sample.specs.Sample.{sources_on, dac};
ghost use Rattle.ugen_graph.specs.declared.link.ConnectEnd.TheVariants.{Connections};
ghost use Rattle.ugen_graph.specs.Walks.{AreWithin};
ghost use Rattle.ugen_graph.specs.Wiring.{ArePulled, connections_of};

use crate::link::{ConnectEnd, Link};
use crate::sources::Sources;
use crate::turn::Turn;
use crate::wires::Wires;
use fixed_point::Memory;
use std::alloc::Global;
use std::marker::Model;

/// The connections in order, whose order of pull is found anew with each change.
#[derive(Drop)]
pub(crate) struct Wiring {
    wires: Wires,
}

impl Model for Wiring {
    ghost use Rattle.ugen_graph.specs.Wiring.{Wired, wired_of, IsFound};

    ghost Value = { Wired };

    ghost view = { λ w. wired_of w.wires };

    ghost invariant = { λ w. IsFound w.wires };
}

impl Wiring {
    /// Two nodes without connections.
    pub(crate) fn new(alloc: Global) -> Result<Wiring, Memory>
        ensures { IfOk result (λ w. w ≡ record { size = 2; links = [] }) }
    {
        let mut wires = Wires::new(alloc)?;
        wires.find();
        Ok(Wiring { wires })
    }

    /// Adds a node without connections.
    pub(crate) fn grow(&mut self, alloc: Global) -> Result<(), Memory>
        ensures grown { OnOk result (self.new ≡ record self.old { size = suc self.old.size }) }
        ensures same { OnErr result (self.new ≡ self.old) }
    {
        self.wires.grow(alloc)
    }

    /// Adds a connection at the end.
    pub(crate) fn connect(&mut self, link: Link) -> Result<(), ConnectEnd>
        requires from { link.from.node < self.old.size }
        requires to { link.to.node < self.old.size }
        ensures connected { OnOk result (self.new
            ≡ record self.old { links = self.old.links ++ link ∷ [] }) }
        ensures room { OnOk result (length self.old.links < MAX_CONNECTIONS) }
        ensures full { (result ≡ Err Connections) ↔ (length self.old.links ≡ MAX_CONNECTIONS) }
        ensures memory { IfErr result (λ e. e ≡ wanted.Memory out_of_memory →
            length self.old.links < MAX_CONNECTIONS) }
        ensures same { OnErr result (self.new ≡ self.old) }
    {
        let end = self.wires.connect(link);
        self.wires.find();
        end
    }

    /// Takes out the connection at a place.
    pub(crate) fn take(&mut self, i: usize) -> Link
        requires { i < length self.old.links }
        ensures link { slice_get self.old.links i ≡ Some result }
        ensures links { self.new ≡ record self.old { links = remove self.old.links i } }
    {
        let link = self.wires.take(i);
        self.wires.find();
        link
    }

    /// The connections.
    pub(crate) fn links(&self) -> &[Link]
        ensures { result.now ≡ self.now.links }
    {
        self.wires.links()
    }

    /// The order of pull.
    pub(crate) fn order(&self) -> &[usize]
        ensures { result.now ≡ order roots (connections_of self.now.links) }
    {
        self.wires.order()
    }

    /// The turns of a sample.
    pub(crate) fn turns(&self) -> &[Turn]
        ensures { ArePulled self.now.size (connections_of self.now.links) result.now }
    {
        self.wires.turns()
    }

    /// The sources of `dac` on the left side.
    pub(crate) fn left(&self) -> &[usize]
        ensures { result.now ≡ sources_on (connections_of self.now.links) Left dac }
    {
        self.wires.left()
    }

    /// The sources of `dac` on the right side.
    pub(crate) fn right(&self) -> &[usize]
        ensures { result.now ≡ sources_on (connections_of self.now.links) Right dac }
    {
        self.wires.right()
    }

    /// The sources of each node.
    pub(crate) fn sources(&self) -> &[Sources]
        ensures count { length result.now ≡ self.now.size }
        ensures wired { (n : ℕ) → slice_index_or result.now n []
            ≡ sources_of (connections_of self.now.links) n }
        ensures within { AreWithin self.now.size result.now }
    {
        self.wires.sources()
    }
}
