//! The connections, laid out for the visit and for the sample.
ghost use Rattle.std.specs.Prelude.{◌≡◌, ◌↔◌, ◌<◌, ◌+◌, ◌≤◌, ℕ, suc, [], ◌∷◌, ◌++◌, length, OnOk, OnErr, IfOk};
ghost use Rattle.std.specs.Prelude.{Some, slice_get, slice_index_or, count_by, nat_eq, vec_len, vec_capacity};
ghost use Rattle.std.specs.List.{remove, All};
ghost use Rattle.std.specs.Prelude.{IfErr};
ghost use Rattle.fixed_point.specs.Wanting.{out_of_memory};
ghost use Rattle.ugen_graph.specs.declared.link.ConnectEnd.TheVariants as wanted;
ghost use Rattle.ck_base.specs.declared.limits.TheConstants.{MAX_CONNECTIONS};
ghost use Rattle.ugen_sample.specs.Order.{sources_of};
ghost use Rattle.ugen_sample.specs.Sample.{sources_by, is_left, is_right, dac};
ghost use Rattle.ugen_graph.specs.declared.link.ConnectEnd.TheVariants.{Connections};
ghost use Rattle.ugen_graph.specs.Walks.{AreWithin};
ghost use Rattle.ugen_graph.specs.Wiring.{ArePulled, connections_of, found};

use crate::link::{ConnectEnd, Link};
use crate::sources::Sources;
use crate::turn::{Turn, find_turns};
use crate::visit::find_order;
use ck_base::limits::MAX_CONNECTIONS;
use ck_values::Side;
use fixed_point::Memory;
use std::alloc::Global;
use std::marker::Model;

/// The connections in order, and what is found of them: of each node its sources, the order of
/// pull, and the sources of `dac` on each side. The last three are those of the connections only
/// once they have been found.
#[derive(Drop)]
pub(crate) struct Wires {
    links: Vec<Link>,
    /// Of each node.
    sources: Vec<Sources>,
    /// One for each node, for the visit that finds the order: only those in the order are marked.
    marks: Vec<bool>,
    order: Vec<usize>,
    turns: Vec<Turn>,
    left: Vec<usize>,
    right: Vec<usize>,
}

impl Model for Wires {
    ghost use Rattle.ugen_graph.specs.Wiring.{Laid};

    ghost Value = { Laid };

    ghost use Rattle.ugen_graph.specs.Wires.{laid_of, IsLaid};

    ghost view = { laid_of };

    ghost invariant = { IsLaid };
}

impl Wires {
    /// Two nodes without connections.
    pub(crate) fn new(alloc: Global) -> Result<Wires, Memory>
        ensures { IfOk result (λ w.
            w ≡ record {
              size = 2;
              links = [];
              order = [];
              turns = [];
              left = [];
              right = [];
            }) }
    {
        Ok(Wires {
            links: Vec::new(alloc),
            sources: vec![in alloc; Sources::new(alloc), Sources::new(alloc)]?,
            marks: vec![in alloc; false, false]?,
            order: Vec::with_capacity(alloc, 2)?,
            turns: Vec::with_capacity(alloc, 2)?,
            left: Vec::new(alloc),
            right: Vec::new(alloc),
        })
    }

    /// Adds a node without connections.
    pub(crate) fn grow(&mut self, alloc: Global) -> Result<(), Memory>
        ensures grown { OnOk result (self.new ≡ record self.old { size = suc self.old.size }) }
        ensures same { OnErr result (self.new ≡ self.old) }
    {
        self.order.reserve(self.sources.len() + 1)?;
        self.turns.reserve(self.sources.len() + 1)?;
        self.marks.reserve(1)?;
        self.sources.push(Sources::new(alloc))?;
        self.marks.push_reserved(false);
        Ok(())
    }

    /// Adds a connection at the end.
    #[tactic(auto, using(crate::proofs::AtHand::wires))]
    pub(crate) fn connect(&mut self, link: Link) -> Result<(), ConnectEnd>
        requires from { link.from.node < self.old.size }
        requires to { link.to.node < self.old.size }
        ensures connected { OnOk result (self.new
            ≡ record self.old { links = self.old.links ++ link ∷ [] }) }
        ensures room { OnOk result (length self.old.links < MAX_CONNECTIONS) }
        ensures full { (result ≡ Err Connections) ↔ (length self.old.links ≡ MAX_CONNECTIONS) }
        ensures memory { IfErr result (λ e. e ≡ wanted.Memory out_of_memory →
            length self.old.links < MAX_CONNECTIONS) }
        ensures same { OnErr result (self.new ≡ self.old) }
    {
        let count = self.links.len();
        if count == MAX_CONNECTIONS {
            return Err(ConnectEnd::Connections);
        }
        if let Err(error) = self.links.reserve(1) {
            return Err(ConnectEnd::Memory(Memory::from(error)));
        }
        if let Err(error) = self.left.reserve(count + 1) {
            return Err(ConnectEnd::Memory(Memory::from(error)));
        }
        if let Err(error) = self.right.reserve(count + 1) {
            return Err(ConnectEnd::Memory(Memory::from(error)));
        }
        let sources = &mut self.sources[link.to.node];
        if let Err(memory) = sources.push(link.from.node) {
            return Err(ConnectEnd::Memory(memory));
        }
        self.links.push_reserved(link);
        Ok(())
    }

    /// Takes out the connection at a place.
    pub(crate) fn take(&mut self, i: usize) -> Link
        requires { i < length self.old.links }
        ensures link { slice_get self.old.links i ≡ Some result }
        ensures links { self.new ≡ record self.old { links = remove self.old.links i } }
    {
        let link = self.links.remove(i);
        let rank = rank_to(&self.links[..i], link.to.node);
        let sources = &mut self.sources[link.to.node];
        sources.remove(rank);
        link
    }

    /// Finds the order of pull, the turns and the sources of `dac` on each side.
    pub(crate) fn find(&mut self)
        ensures found { self.new ≡ found self.old self.new.turns }
        ensures turns { ArePulled self.new.size (connections_of self.new.links) self.new.turns }
    {
        find_order(&self.sources, &mut self.marks, &mut self.order);
        find_turns(self.order.as_slice(), &self.sources, &mut self.turns);
        left_of(&self.links, &mut self.left);
        right_of(&self.links, &mut self.right);
    }

    /// The connections.
    pub(crate) fn links(&self) -> &[Link]
        ensures { result.now ≡ self.now.links }
    {
        self.links.as_slice()
    }

    /// The order that was found last.
    pub(crate) fn order(&self) -> &[usize]
        ensures value { result.now ≡ self.now.order }
    {
        self.order.as_slice()
    }

    /// The turns that were found last.
    pub(crate) fn turns(&self) -> &[Turn]
        ensures { result.now ≡ self.now.turns }
    {
        self.turns.as_slice()
    }

    /// The sources of `dac` on the left side that were found last.
    pub(crate) fn left(&self) -> &[usize]
        ensures { result.now ≡ self.now.left }
    {
        self.left.as_slice()
    }

    /// The same on the right side.
    pub(crate) fn right(&self) -> &[usize]
        ensures { result.now ≡ self.now.right }
    {
        self.right.as_slice()
    }

    /// The sources of each node.
    pub(crate) fn sources(&self) -> &[Sources]
        ensures count { length result.now ≡ self.now.size }
        ensures wired { (n : ℕ) → slice_index_or result.now n []
            ≡ sources_of (connections_of self.now.links) n }
        ensures within { AreWithin self.now.size result.now }
    {
        self.sources.as_slice()
    }
}

/// How many of these connections lead to a node.
fn rank_to(links: &[Link], to: usize) -> usize
    ensures { result ≡ count_by (λ l. nat_eq l.to.node to) links.now }
{
    links.iter().filter(|l| l.to.node == to).count()
}

/// The sources of `dac` on the left side.
fn left_of(links: &[Link], into: &mut Vec<usize>)
    requires { length links.now ≤ vec_capacity into.old }
    ensures found { into.new.items ≡ sources_by is_left (connections_of links.now) dac }
    ensures capacity { vec_capacity into.new ≡ vec_capacity into.old }
{
    into.clear();
    for link in links {
        if link.to.node == 0 && link.side != Side::Right {
            into.push_reserved(link.from.node);
        }
    }
}

/// The sources of `dac` on the right side.
fn right_of(links: &[Link], into: &mut Vec<usize>)
    requires { length links.now ≤ vec_capacity into.old }
    ensures found { into.new.items ≡ sources_by is_right (connections_of links.now) dac }
    ensures capacity { vec_capacity into.new ≡ vec_capacity into.old }
{
    into.clear();
    for link in links {
        if link.to.node == 0 && link.side != Side::Left {
            into.push_reserved(link.from.node);
        }
    }
}
