ghost use Rattle.std.specs.Prelude.{◌≡◌, ◌<◌, ◌≤◌, ◌+◌, ◌-◌, ◌^◌, suc, [], ◌∷◌, drop, length};
ghost use Rattle.std.specs.Prelude.{IfOk, IfErr, OnOk, OnErr, IfSome, IfNone, Some};
ghost use Rattle.std.specs.Prelude.{slice_get, slice_set};
ghost use Rattle.std.specs.Bool.{OnTrue, OnFalse};
ghost use Rattle.ck_base.specs.declared.limits.TheConstants.{FRESH_TURNS, MAX_CALLS};
ghost use Rattle.shred_state.specs.Frames.{new_shred, entered, turns_at, IsRefused};
ghost use Rattle.shred_state.specs.Frames.{with_operands, with_locals, with_values, at_place};
ghost use Rattle.shred_state.specs.Frames.{IsEmpty, IsShed};

use crate::extent::Extent;
use crate::first_values::add_first_values;
use ck_base::limits::{FRESH_TURNS, MAX_CALLS};
use ck_values::{Kind, Value};
use fixed_point::{HandedBack, Memory};
use std::alloc::Global;
use std::marker::Model;
use std::mem;

/// Why a function can't be entered.
#[derive(Clone, Copy, PartialEq, Eq)]
pub enum EnterEnd {
    /// As many calls are active as may be.
    CallDepth,
    /// There is not enough memory.
    Memory(Memory),
}

/// A shred.
///
/// Contracts see it with its frames, the one that runs first.
#[derive(Drop)]
pub struct Shred {
    /// Its number, from 1.
    number: u64,
    /// The number of the shred that sporked it; 0 where none did.
    parent: u64,
    /// The values of all frames, those of the frame that runs last.
    values: Vec<Value>,
    /// The function that runs.
    top: Extent,
    /// Those that wait for it, the first function of the shred first.
    below: Vec<Extent>,
    /// The turns that it has left, at most `FRESH_TURNS`.
    turns: u32,
    /// The time of its last slice in samples; -1 before its first one.
    last: i64,
}

impl Model for Shred {
    ghost use Rattle.std.specs.Prelude.{reverse, length, ◌∷◌};
    ghost use Rattle.shred_state.specs.Frames.{Standing};
    ghost use Rattle.shred_state.specs.Extents.{standing, IsSound};

    ghost Value = { Standing };

    ghost view = { λ s.
        standing s.number s.parent s.values.items s.top (reverse s.below.items) s.turns s.last };

    ghost invariant = { λ s.
        IsSound (length s.values.items) (s.top ∷ reverse s.below.items) s.turns };
}

impl Shred {
    /// A shred before its first slice, which will run a function whose locals are of these kinds,
    /// and begin with the arguments. For want of memory the arguments are handed back.
    pub fn new(
        alloc: Global,
        number: u64,
        parent: u64,
        fun: u32,
        arguments: Vec<Value>,
        kinds: &[Kind],
    ) -> Result<Shred, HandedBack<Vec<Value>>>
        requires few { length arguments.items ≤ length kinds.now }
        ensures new { IfOk result (λ shred.
            shred ≡ new_shred number parent fun kinds.now arguments.items) }
        ensures back { IfErr result (λ back. back.value.items ≡ arguments.items) }
    {
        let given = arguments.len();
        let mut values = arguments;
        if let Err(memory) = add_first_values(alloc, &mut values, &kinds[given..]) {
            let value = values;
            return Err(HandedBack { value, memory });
        }
        let middle = values.len();
        Ok(Shred {
            number,
            parent,
            values,
            top: Extent {
                fun,
                place: 0,
                base: 0,
                middle,
            },
            below: Vec::new(alloc),
            turns: FRESH_TURNS,
            last: -1,
        })
    }

    /// Its number.
    pub fn id(&self) -> u64
        ensures { result ≡ self.now.number }
    {
        self.number
    }

    /// The number of the shred that sporked it; 0 where none did.
    pub fn parent(&self) -> u64
        ensures { result ≡ self.now.parent }
    {
        self.parent
    }

    /// The turns that it has left.
    pub fn turns(&self) -> u32
        ensures turns { result ≡ self.now.turns }
        ensures few { result ≤ FRESH_TURNS }
    {
        self.turns
    }

    /// Begins a slice at this time, in samples: its turns are made fresh where time has gone on
    /// since the last slice.
    pub fn fresh(&mut self, now: i64)
        ensures new { self.new ≡ record self.old { turns = turns_at now self.old; last = now } }
        ensures few { self.old.turns ≤ FRESH_TURNS }
    {
        if self.last < now {
            self.turns = FRESH_TURNS;
        }
        self.last = now;
    }

    /// Spends a turn; false where none is left.
    pub fn spend(&mut self) -> bool
        ensures spent { OnTrue result (self.old ≡ record self.new { turns = suc self.new.turns }) }
        ensures none { OnFalse result (self.old.turns ≡ 0) }
        ensures same { OnFalse result (self.new ≡ self.old) }
    {
        if self.turns == 0 {
            return false;
        }
        self.turns -= 1;
        true
    }

    /// The function that runs.
    pub fn fun(&self) -> u32
        ensures { result ≡ self.now.top.fun }
    {
        self.top.fun
    }

    /// The place of its next instruction.
    pub fn place(&self) -> usize
        ensures { result ≡ self.now.top.place }
    {
        self.top.place
    }

    /// Goes on to the next place.
    pub fn go_on(&mut self)
        requires { self.old.top.place < 2 ^ 64 - 1 }
        ensures { self.new ≡ at_place self.old (self.old.top.place + 1) }
    {
        self.top.place += 1;
    }

    /// Goes on from this place, where it stands, to the next one: nothing is read anew.
    pub fn go_on_from(&mut self, here: usize)
        requires here { here ≡ self.old.top.place }
        requires place { here < 2 ^ 64 - 1 }
        ensures { self.new ≡ at_place self.old (self.old.top.place + 1) }
    {
        self.top.place = here + 1;
    }

    /// Goes on at this place.
    pub fn jump(&mut self, to: usize)
        ensures { self.new ≡ at_place self.old to }
    {
        self.top.place = to;
    }

    /// Puts an operand on the top, or hands it back for want of memory.
    #[tactic(auto, using(crate::proofs::Laid::laid))]
    #[inline(always)]
    pub fn push(&mut self, v: Value) -> Result<(), HandedBack<Value>>
        ensures pushed { OnOk result
            (self.new ≡ with_operands self.old (v ∷ self.old.top.operands)) }
        ensures same { OnErr result (self.new ≡ self.old) }
        ensures back { IfErr result (λ back. back.value ≡ v) }
    {
        self.values.push(v)?;
        Ok(())
    }

    /// The operand on the top.
    #[tactic(auto, using(crate::proofs::Laid::laid))]
    #[inline(always)]
    pub fn peek(&self) -> &Value
        requires { 0 < length self.now.top.operands }
        ensures { slice_get self.now.top.operands 0 ≡ Some result.now }
    {
        &self.values[self.values.len() - 1]
    }

    /// The operand that has so many others on top of it.
    #[tactic(auto, using(crate::proofs::Laid::laid))]
    #[inline(always)]
    pub fn operand(&self, depth: usize) -> &Value
        requires { depth < length self.now.top.operands }
        ensures { slice_get self.now.top.operands depth ≡ Some result.now }
    {
        &self.values[self.values.len() - 1 - depth]
    }

    /// Takes the operand on the top.
    #[tactic(auto, using(crate::proofs::Laid::laid))]
    #[inline(always)]
    pub fn pop(&mut self) -> Value
        requires { 0 < length self.old.top.operands }
        ensures { self.old ≡ with_operands self.new (result ∷ self.new.top.operands) }
    {
        self.values.pop().unwrap()
    }

    /// Puts a value in the place of the operand on the top, which is handed back.
    #[tactic(auto, using(crate::proofs::Laid::laid))]
    #[inline(always)]
    pub fn set_top(&mut self, v: Value) -> Value
        requires { 0 < length self.old.top.operands }
        ensures new { self.new ≡ with_operands self.old (v ∷ drop 1 self.old.top.operands) }
        ensures old { self.old.top.operands ≡ result ∷ drop 1 self.old.top.operands }
    {
        let at = self.values.len() - 1;
        replace(&mut self.values[at], v)
    }

    /// The local with this number.
    #[tactic(auto, using(crate::proofs::Laid::laid))]
    #[inline(always)]
    pub fn local(&self, i: u32) -> &Value
        requires { i < length self.now.top.locals }
        ensures { slice_get self.now.top.locals i ≡ Some result.now }
    {
        &self.values[self.top.base + i as usize]
    }

    /// Puts a value in the place of a local, which is handed back.
    #[tactic(auto, using(crate::proofs::Laid::laid))]
    #[inline(always)]
    pub fn set_local(&mut self, i: u32, v: Value) -> Value
        requires { i < length self.old.top.locals }
        ensures new { self.new ≡ with_locals self.old (slice_set self.old.top.locals i v) }
        ensures old { slice_get self.old.top.locals i ≡ Some result }
    {
        let at = self.top.base + i as usize;
        replace(&mut self.values[at], v)
    }

    /// Enters a function whose locals are of these kinds, and whose parameters are the topmost
    /// operands. They stay where they are. The one that runs goes on at the place `back` then.
    #[tactic(auto, using(crate::proofs::Laid::laid))]
    #[inline(always)]
    pub fn enter(
        &mut self,
        alloc: Global,
        back: usize,
        fun: u32,
        params: u32,
        kinds: &[Kind],
    ) -> Result<(), EnterEnd>
        requires operands { params ≤ length self.old.top.operands }
        ensures new { OnOk result
            (self.new ≡ entered (at_place self.old back) fun params kinds.now) }
        ensures free { OnOk result (length self.old.below < MAX_CALLS) }
        ensures refused { IfErr result (λ end. IsRefused end (length self.old.below)) }
        ensures same { OnErr result (self.new ≡ self.old) }
    {
        if self.below.len() >= MAX_CALLS {
            return Err(EnterEnd::CallDepth);
        }
        let base = self.values.len() - params as usize;
        let caller = Extent {
            fun: self.top.fun,
            place: back,
            base: self.top.base,
            middle: self.top.middle,
        };
        if let Err(failed) = self.below.push(caller) {
            return Err(EnterEnd::Memory(Memory::from(failed)));
        }
        let given = (params as usize).min(kinds.len());
        if let Err(memory) = add_first_values(alloc, &mut self.values, &kinds[given..]) {
            self.below.pop();
            return Err(EnterEnd::Memory(memory));
        }
        self.top = Extent {
            fun,
            place: 0,
            base,
            middle: self.values.len(),
        };
        Ok(())
    }

    /// Takes one value of the function that runs: its topmost operand, or where it has none its
    /// last local; None where it has no value.
    #[tactic(auto, using(crate::proofs::Laid::laid))]
    #[inline(always)]
    pub fn shed(&mut self) -> Option<Value>
        ensures shed { IfSome result (λ v. IsShed self.old.top v self.new.top) }
        ensures kept { self.new ≡ with_values self.old self.new.top.locals self.new.top.operands }
        ensures none { IfNone result (IsEmpty self.old.top) }
        ensures same { IfNone result (self.new ≡ self.old) }
    {
        if self.values.len() <= self.top.base {
            return None;
        }
        let v = self.values.pop();
        if self.values.len() < self.top.middle {
            self.top.middle = self.values.len();
        }
        v
    }

    /// Whether its first function runs: none waits beneath.
    #[tactic(auto, using(crate::proofs::Laid::laid))]
    pub fn is_first(&self) -> bool
        ensures first { OnTrue result (self.now.below ≡ []) }
        ensures others { OnFalse result (0 < length self.now.below) }
    {
        self.below.is_empty()
    }

    /// Goes back to the function beneath, once the one that runs has no value; false where it is
    /// the first one, which stays.
    #[tactic(auto, using(crate::proofs::Laid::laid))]
    pub fn leave(&mut self) -> bool
        requires { IsEmpty self.old.top }
        ensures left { OnTrue result (self.old.below ≡ self.new.top ∷ self.new.below) }
        ensures first { OnFalse result (self.old.below ≡ []) }
        ensures same { OnFalse result (self.new ≡ self.old) }
        ensures kept { self.new ≡ record self.old { top = self.new.top; below = self.new.below } }
    {
        match self.below.pop() {
            Some(caller) => {
                // by its parts, as it was stored: read at once it would be waited for
                self.top = Extent {
                    fun: caller.fun,
                    place: caller.place,
                    base: caller.base,
                    middle: caller.middle,
                };
                true
            }
            None => false,
        }
    }
}

// Puts a value in the place of another, which is handed back. An int is written over an int, and a
// float over a float.
#[inline(always)]
fn replace(at: &mut Value, v: Value) -> Value
    ensures value { result ≡ at.old }
    ensures after { at.new ≡ v }
{
    if let Value::Int(n) = &v
        && let Value::Int(old) = at
    {
        return Value::Int(mem::replace(old, *n));
    }
    if let Value::Float(x) = &v
        && let Value::Float(old) = at
    {
        return Value::Float(mem::replace(old, *x));
    }
    mem::replace(at, v)
}
