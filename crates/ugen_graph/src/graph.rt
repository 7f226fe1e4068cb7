ghost use Rattle.std.specs.Prelude.{◌≡◌, ◌↔◌, ◌<◌, ◌≤◌, ◌/◌, ◌%◌, ℕ, [], ◌∷◌, ◌++◌, length, OnOk, OnErr, IfOk};
ghost use Rattle.std.specs.Prelude.{IsTrue, IsSome, IsSomeAnd, IfSome, IfErr, None, Some, slice_set, false};
ghost use Rattle.std.specs.Bool.{OnTrue};
ghost use Rattle.std.specs.List.{list_any};
ghost use Rattle.std.specs.Prelude.{position};
ghost use Rattle.ck_base.specs.declared.limits.TheConstants.{MAX_CONNECTIONS};
ghost use Rattle.ck_values.specs.Datum.{meant};
ghost use Rattle.fixed_point.specs.Fix.{sample_of};
ghost use Rattle.fixed_point.specs.Wanting.{out_of_memory};
ghost use Rattle.ugen_names.specs.declared.param.Param.TheVariants.{Max};
ghost use Rattle.ugen_kinds.specs.declared.choices.SetEnd.TheVariants as end;
ghost use Rattle.ugen_kinds.specs.Generator.{has_state, is_past_limit, keyed, staged};
ghost use Rattle.ugen_kinds.specs.SoundFile.{no_waves};
ghost use Rattle.ugen_sample.specs.Order.{order, roots};
ghost use Rattle.ugen_sample.specs.Parameters.{unit_parameter, with_unit_parameter};
ghost use Rattle.ugen_sample.specs.Sample.{dac, sampled, last_of};
ghost use Rattle.ugen_sample.specs.Still.{IsStill};
ghost use Rattle.ugen_sample.specs.UnitState.{first_unit, first_units, unit_at};
ghost use Rattle.ugen_graph.specs.declared.link.ConnectEnd.TheVariants as wanted;
ghost use Rattle.ugen_graph.specs.declared.link.ConnectEnd.TheVariants.{Connections};
ghost use Rattle.ugen_graph.specs.Blocks.{samples, after};
ghost use Rattle.ugen_graph.specs.Links.{earliest, without, leads, touches, is_at, is_made_by};
ghost use Rattle.ugen_graph.specs.Wiring.{connections_of, filled};

use crate::input::last_of;
use crate::link::{ConnectEnd, Joint, Link};
use crate::sample::sound_all;
use crate::wiring::Wiring;
use ck_values::{Side, Value};
use fixed_point::{Fix, Memory};
use std::alloc::Global;
use std::marker::Model;
use ugen_kinds::{Generator, SetEnd};
use ugen_names::{Param, UgenKind};
use ugen_sample::UnitState;

/// No node.
const NONE: usize = usize::MAX;

/// The unit generators of a run and their connections.
///
/// Node 0 is `dac`, the output, and node 1 is `blackhole`, which pulls without being heard.
/// Contracts see the unit generators by node, and the connections in order.
#[derive(Drop)]
pub struct Graph {
    nodes: Vec<Option<UnitState>>,
    /// The free node that is used next, and after each free node the one after it.
    free: usize,
    next: Vec<usize>,
    wiring: Wiring,
}

impl Model for Graph {
    ghost use Rattle.ugen_graph.specs.Graphs.{network_of, IsGraph};
    ghost use Rattle.ugen_graph.specs.Wiring.{Network};

    ghost Value = { Network };

    ghost view = { network_of };

    ghost invariant = { IsGraph };
}

impl Graph {
    /// `dac` and `blackhole` alone.
    pub fn new(alloc: Global) -> Result<Graph, Memory>
        ensures { IfOk result (λ g. g ≡ record { units = first_units; links = [] }) }
    {
        let dac = UnitState::new(Generator::Dac, 0);
        let blackhole = UnitState::new(Generator::Blackhole, 0);
        Ok(Graph {
            nodes: vec![in alloc; Some(dac), Some(blackhole)]?,
            free: NONE,
            next: vec![in alloc; NONE, NONE]?,
            wiring: Wiring::new(alloc)?,
        })
    }

    /// Adds a unit generator as it is made, of any kind but `UGen`, with no connections. `maker` is
    /// the number of the shred that makes it, and `number` that of its object. Gives its node: one
    /// that was free, or the next one.
    pub fn add(
        &mut self,
        alloc: Global,
        kind: UgenKind,
        maker: u64,
        number: u64,
    ) -> Result<usize, Memory>
        requires { IsTrue (has_state kind) }
        ensures place { IfOk result (λ n. n ≤ length self.old.units) }
        ensures free { IfOk result (λ n. unit_at self.old.units n ≡ None) }
        ensures added { IfOk result (λ n. self.new ≡ record self.old {
          units = filled n (first_unit kind maker number) self.old.units;
        }) }
        ensures same { OnErr result (self.new ≡ self.old) }
    {
        let unit = UnitState::new(Generator::new(alloc, kind, number)?, maker);
        let n = self.free;
        if let Some(None) = self.nodes.get(n) {
            self.free = self.next[n];
            self.nodes[n] = Some(unit);
            return Ok(n);
        }
        let n = self.nodes.len();
        self.nodes.reserve(1)?;
        self.next.reserve(1)?;
        self.wiring.grow(alloc)?;
        self.nodes.push_reserved(Some(unit));
        self.next.push_reserved(NONE);
        Ok(n)
    }

    /// Takes out the unit generator at a node, which is free then. It takes no memory.
    pub fn remove(&mut self, node: usize)
        requires made { 1 < node }
        requires there { IsSome (unit_at self.old.units node) }
        requires alone { list_any (is_at node) self.old.links ≡ false }
        ensures { self.new
            ≡ record self.old { units = slice_set self.old.units node None } }
    {
        self.nodes[node] = None;
        self.next[node] = self.free;
        self.free = node;
    }

    /// Adds a connection at the end, to a side of its reader. Only `dac` has sides.
    pub fn connect(&mut self, from: Joint, to: Joint, side: Side) -> Result<(), ConnectEnd>
        requires from { from.node < length self.old.units }
        requires to { to.node < length self.old.units }
        ensures connected { OnOk result (self.new ≡ record self.old {
          links = self.old.links ++ (record { from = from; to = to; side = side }) ∷ [];
        }) }
        ensures room { OnOk result (length self.old.links < MAX_CONNECTIONS) }
        ensures full { (result ≡ Err Connections) ↔ (length self.old.links ≡ MAX_CONNECTIONS) }
        ensures memory { IfErr result (λ e. e ≡ wanted.Memory out_of_memory →
            length self.old.links < MAX_CONNECTIONS) }
        ensures same { OnErr result (self.new ≡ self.old) }
    {
        self.wiring.connect(Link { from, to, side })
    }

    /// Takes out the earliest connection from one node to this side of another and gives it, where
    /// there is one. It takes no memory.
    #[tactic(auto, using(crate::proofs::Earliest::earliest_is))]
    pub fn disconnect(&mut self, from: usize, to: usize, side: Side) -> Option<Link>
        ensures link { result ≡ earliest (leads from to side) self.old.links }
        ensures links { self.new
            ≡ record self.old { links = without (leads from to side) self.old.links } }
    {
        let i = find_lead(self.wiring.links(), from, to, side)?;
        Some(self.wiring.take(i))
    }

    /// Takes out the earliest connection that touches a unit generator which the shred of this
    /// number made, and gives it, where there is one. It takes no memory.
    #[tactic(auto, using(crate::proofs::Earliest::earliest_is))]
    pub fn detach(&mut self, maker: u64) -> Option<Link>
        ensures link { result ≡ earliest (touches self.old.units maker) self.old.links }
        ensures links { self.new ≡ record self.old {
          links = without (touches self.old.units maker) self.old.links;
        } }
    {
        let i = find_touch(self.wiring.links(), &self.nodes, maker)?;
        Some(self.wiring.take(i))
    }

    /// The value of a parameter that the unit generator at a node has: `gain` and `last` as floats,
    /// of which 1.0 is full scale, `op` as an int from -1 to 4, and those of its kind.
    pub fn param(&self, node: usize, p: Param) -> Value
        requires { IsSomeAnd (unit_at self.now.units node)
            (λ u. IsSome (unit_parameter no_waves p u)) }
        ensures { IfSome (unit_at self.now.units node)
            (λ u. Some (meant result) ≡ unit_parameter no_waves p u) }
    {
        let Some(unit) = &self.nodes[node] else {
            unreachable!()
        };
        unit.param(p)
    }

    /// Sets such a parameter, if it isn't read only: `op` and `sync` to an int, where one that
    /// names nothing leaves them, `max` and `delay` to a dur, and any other to a float.
    /// `DelayLimit` comes exactly where a delay line can't be set so, and else `Memory` where there
    /// is none for the new line of a `max`; all stays as it was then.
    pub fn set(&mut self, alloc: Global, node: usize, p: Param, v: Value) -> Result<(), SetEnd>
        requires { IsSomeAnd (unit_at self.old.units node)
            (λ u. IsSome (with_unit_parameter no_waves p (meant v) u)) }
        ensures limit { IfSome (unit_at self.old.units node) (λ u.
            (result ≡ Err end.DelayLimit) ↔ IsTrue (is_past_limit p (meant v) u.generator)) }
        ensures memory { IfErr result (λ e. e ≡ end.Memory out_of_memory → p ≡ Max) }
        ensures set { OnOk result (IfSome (unit_at self.old.units node)
            (λ u. IfSome (with_unit_parameter no_waves p (meant v) u)
            (λ w. self.new ≡ record self.old { units = slice_set self.old.units node (Some w) }))) }
        ensures same { OnErr result (self.new ≡ self.old) }
    {
        let Some(unit) = &mut self.nodes[node] else {
            unreachable!()
        };
        unit.set(alloc, p, v)
    }

    /// A key of the envelope at a node is pressed or let go. It takes no memory.
    pub fn key(&mut self, node: usize, on: bool)
        requires { IsSomeAnd (unit_at self.old.units node) (λ u. IsSome (keyed on u.generator)) }
        ensures { IfSome (unit_at self.old.units node)
            (λ u. IfSome (keyed on u.generator) (λ g. self.new ≡ record self.old {
              units = slice_set self.old.units node (Some (record u { generator = g }));
            })) }
    {
        let Some(unit) = &mut self.nodes[node] else {
            unreachable!()
        };
        unit.key(on);
    }

    /// Sets the stages of the ADSR at a node: the samples of its attack, decay and release, and
    /// the level that it sustains, where 1.0 is full. It takes no memory.
    pub fn adsr(&mut self, node: usize, attack: i64, decay: i64, sustain: Fix, release: i64)
        requires { IsSomeAnd (unit_at self.old.units node)
            (λ u. IsSome (staged attack decay sustain release u.generator)) }
        ensures { IfSome (unit_at self.old.units node)
            (λ u. IfSome (staged attack decay sustain release u.generator) (λ g.
            self.new ≡ record self.old {
              units = slice_set self.old.units node (Some (record u { generator = g }));
            })) }
    {
        let Some(unit) = &mut self.nodes[node] else {
            unreachable!()
        };
        unit.adsr(attack, decay, sustain, release);
    }

    /// Makes one sample, and gives the output of `dac` on each side. It takes no memory.
    pub fn tick(&mut self) -> (Fix, Fix)
        ensures sample { self.new ≡ record self.old {
          units = sampled no_waves roots (connections_of self.old.links) self.old.units;
        } }
        ensures output { result
            ≡ ((last_of self.new.units dac).left, (last_of self.new.units dac).right) }
    {
        self.sound();
        let y = last_of(&self.nodes, 0);
        (y.left, y.right)
    }

    /// Each node that is reached makes its output. Where nothing sounds it costs next to nothing.
    fn sound(&mut self)
        ensures { self.new ≡ record self.old {
          units = sampled no_waves roots (connections_of self.old.links) self.old.units;
        } }
    {
        if self.is_silent() {
            return;
        }
        sound_all(&self.wiring, &mut self.nodes);
    }

    /// Whether nothing is connected and the output was 0 last: a sample leaves all as it is then.
    fn is_silent(&self) -> bool
        ensures { let links = connections_of self.now.links in
            OnTrue result (self.now.units ≡ sampled no_waves roots links self.now.units) }
    {
        if !self.wiring.links().is_empty() || !is_still(&self.nodes, 0) {
            return false;
        }
        is_still(&self.nodes, 1)
    }

    /// The next sample, on each side.
    fn next_pair(&mut self) -> (i16, i16)
        ensures left { result.0 ≡ sample_of (last_of self.new.units dac).left }
        ensures right { result.1 ≡ sample_of (last_of self.new.units dac).right }
        ensures after { self.new ≡ record self.old {
          units = sampled no_waves roots (connections_of self.old.links) self.old.units;
        } }
    {
        let (left, right) = self.tick();
        (left.to_i16(), right.to_i16())
    }

    /// Fills a slice of even length with the next samples, of each the left number and then the
    /// right one. It takes no memory.
    pub fn tick_block(&mut self, into: &mut [i16])
        requires even { length into.old % 2 ≡ 0 }
        ensures samples { into.new
            ≡ samples (length into.old / 2) (connections_of self.old.links) self.old.units }
        ensures after { self.new ≡ record self.old {
          units = after (length into.old / 2) (connections_of self.old.links) self.old.units;
        } }
    {
        for i in 0..into.len() / 2 {
            let (left, right) = self.next_pair();
            into[2 * i] = left;
            into[2 * i + 1] = right;
        }
    }

    /// The nodes in the order of pull.
    pub fn order(&self) -> &[usize]
        ensures { result.now ≡ order roots (connections_of self.now.links) }
    {
        self.wiring.order()
    }
}

/// Whether a node gives 0 again without sources.
fn is_still(nodes: &[Option<UnitState>], n: usize) -> bool
    ensures { OnTrue result (IsStill (unit_at nodes.now n)) }
{
    match nodes.get(n) {
        Some(Some(unit)) => unit.is_still(),
        _ => true,
    }
}

/// The place of the earliest connection from one node to this side of another.
fn find_lead(links: &[Link], from: usize, to: usize, side: Side) -> Option<usize>
    ensures { result ≡ position (leads from to side) links.now }
{
    links.iter().position(|l| l.from.node == from && l.to.node == to && l.side == side)
}

/// The place of the earliest connection that touches a node which this shred made.
fn find_touch(links: &[Link], nodes: &[Option<UnitState>], maker: u64) -> Option<usize>
    ensures { result ≡ position (touches nodes.now maker) links.now }
{
    links.iter().position(|l| is_made_by(nodes, l.from.node, maker)
        || is_made_by(nodes, l.to.node, maker))
}

/// Whether this shred made a node.
fn is_made_by(nodes: &[Option<UnitState>], n: usize, maker: u64) -> bool
    ensures { result ≡ is_made_by maker (unit_at nodes.now n) }
{
    match nodes.get(n) {
        Some(Some(unit)) => unit.maker == maker,
        _ => false,
    }
}
