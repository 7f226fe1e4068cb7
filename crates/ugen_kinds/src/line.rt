//! A delay line.
ghost use Rattle.std.specs.Prelude.{◌≡◌, ◌+◌, ◌↔◌, ◌<◌, ◌≤◌, ℤ, pos, length, IsTrue, IsSome, Some};
ghost use Rattle.std.specs.Prelude.{OnOk, OnErr, IfOk, IfErr, unsigned_abs};
ghost use Rattle.fixed_point.specs.Wanting.{out_of_memory};
ghost use Rattle.ck_values.specs.Datum.{meant};
ghost use Rattle.ck_base.specs.declared.limits.TheConstants.{MAX_DELAY};
ghost use Rattle.ugen_names.specs.declared.param.Param.TheVariants.{Max};
ghost use Rattle.ugen_kinds.specs.Line.{first_line, silent_items};
ghost use Rattle.ugen_kinds.specs.Line.{pushed, from_back, delay_tick, reach_of, line_anew};
ghost use Rattle.ugen_kinds.specs.Line.{is_outside, is_past_line};
ghost use Rattle.ugen_kinds.specs.Line.{line_parameter, with_line_parameter, up_to};
ghost use Rattle.ugen_kinds.specs.declared.choices.SetEnd.TheVariants as end;

use crate::choices::SetEnd;
use circular_buffer::HeapCircularBuffer;
use ck_base::limits::MAX_DELAY;
use ck_values::Value;
use fixed_point::{Fix, Memory};
use std::alloc::Global;
use std::marker::Model;
use ugen_names::Param;

/// The samples that came in last, and how far back they are read.
#[derive(Drop)]
pub struct Line {
    items: HeapCircularBuffer<Fix>,
    delay: usize,
}

impl Model for Line {
    ghost use Rattle.ugen_kinds.specs.Line.{Line};
    ghost use Rattle.ugen_kinds.specs.Lines.{line_of, IsLine};

    ghost Value = { Line };

    ghost view = { line_of };

    ghost invariant = { IsLine };
}

impl Line {
    /// A line of zeros, as it is made.
    pub(crate) fn new(alloc: Global) -> Result<Line, Memory>
        ensures { IfOk result (λ l. l ≡ first_line) }
    {
        Ok(Line {
            items: silent_items(alloc, 4_095)?,
            delay: 0,
        })
    }

    /// A sample comes in, and the oldest goes.
    pub(crate) fn push(&mut self, x: Fix)
        ensures { self.new ≡ pushed x self.old }
    {
        self.items.push_back(x);
    }

    /// The sample so many places from the newest one.
    fn back(&self, places: usize) -> Fix
        requires { places < length self.now.items }
        ensures { result ≡ from_back places self.now.items }
    {
        match self.items.nth_back(places) {
            Some(y) => *y,
            None => Fix::from_raw(0),
        }
    }

    /// The sample that it holds back.
    pub(crate) fn delayed(&self) -> Fix
        ensures { result ≡ from_back self.now.delay self.now.items }
    {
        self.back(self.delay)
    }

    /// The sample before that one.
    pub(crate) fn before(&self) -> Fix
        ensures { result ≡ from_back (self.now.delay + 1) self.now.items }
    {
        self.back(self.delay + 1)
    }

    /// One tick with this input.
    #[inline(always)]
    pub(crate) fn tick(&mut self, x: Fix) -> Fix
        ensures { (self.new, result) ≡ delay_tick self.old x }
    {
        self.push(x);
        self.delayed()
    }

    /// How many samples it can hold back.
    fn reach(&self) -> i64
        ensures { result ≡ pos (reach_of self.now) }
    {
        (self.items.capacity() - 2) as i64
    }

    /// Makes a new line of zeros, which can hold back so many samples: `DelayLimit` exactly where
    /// that isn't from 1 to [`MAX_DELAY`]. A line that isn't set stays as it was.
    pub(crate) fn set_max(&mut self, alloc: Global, n: i64) -> Result<(), SetEnd>
        ensures limit { (result ≡ Err end.DelayLimit) ↔ IsTrue (is_outside (pos 1) MAX_DELAY n) }
        ensures ok { OnOk result (self.new ≡ line_anew (unsigned_abs n) self.old) }
        ensures same { OnErr result (self.new ≡ self.old) }
    {
        if n < 1 || n > MAX_DELAY {
            return Err(SetEnd::DelayLimit);
        }
        let max = n as usize;
        match silent_items(alloc, max) {
            Ok(items) => self.items = items,
            Err(memory) => return Err(SetEnd::Memory(memory)),
        }
        self.delay = self.delay.min(max);
        Ok(())
    }

    /// Holds back so many samples from now on: `DelayLimit` exactly where the line can't.
    pub(crate) fn set_delay(&mut self, n: i64) -> Result<(), SetEnd>
        ensures limit { (result ≡ Err end.DelayLimit)
            ↔ IsTrue (is_outside (pos 0) (pos (reach_of self.old)) n) }
        ensures only_limit { IfErr result (λ e. e ≡ end.DelayLimit) }
        ensures ok { OnOk result (self.new ≡ record self.old { delay = unsigned_abs n }) }
        ensures same { OnErr result (self.new ≡ self.old) }
    {
        if n < 0 || n > self.reach() {
            return Err(SetEnd::DelayLimit);
        }
        self.delay = n as usize;
        Ok(())
    }

    /// The value of a parameter that a line has.
    pub(crate) fn param(&self, p: Param) -> Value
        requires { IsSome (line_parameter p self.now) }
        ensures { Some (meant result) ≡ line_parameter p self.now }
    {
        match p {
            Param::Max => Value::Dur(self.reach()),
            Param::Delay => Value::Dur(self.delay as i64),
            _ => unreachable!(),
        }
    }

    /// Sets a parameter that a line has to a value of its kind.
    pub(crate) fn set(&mut self, alloc: Global, p: Param, v: Value) -> Result<(), SetEnd>
        requires { IsSome (with_line_parameter p (meant v) self.old) }
        ensures limit { (result ≡ Err end.DelayLimit) ↔ IsTrue (is_past_line p (meant v) self.old) }
        ensures memory { IfErr result (λ e. e ≡ end.Memory out_of_memory → p ≡ Max) }
        ensures ok { OnOk result (Some self.new ≡ with_line_parameter p (meant v) self.old) }
        ensures same { OnErr result (self.new ≡ self.old) }
    {
        match (p, v) {
            (Param::Max, Value::Dur(n)) => self.set_max(alloc, n),
            (Param::Delay, Value::Dur(n)) => self.set_delay(n),
            _ => unreachable!(),
        }
    }
}

/// The zeros of a line that can hold back so many samples.
fn silent_items(alloc: Global, max: usize) -> Result<HeapCircularBuffer<Fix>, Memory>
    requires { max ≤ 1_048_576 }
    ensures items { IfOk result (λ line. line.items ≡ silent_items max) }
    ensures capacity { IfOk result (λ line. line.capacity ≡ max + 2) }
{
    let mut line = HeapCircularBuffer::with_capacity(alloc, max + 2)?;
    for _ in 0..max + 2 {
        line.push_back(Fix::from_raw(0));
    }
    Ok(line)
}

/// The nearest number from 0 to `high`.
pub(crate) fn up_to(high: Fix, x: Fix) -> Fix
    ensures { result ≡ up_to high x }
{
    Fix::from_raw(x.raw().min(high.raw()).max(0))
}
