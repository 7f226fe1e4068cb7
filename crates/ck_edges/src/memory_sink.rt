ghost use Rattle.std.specs.Prelude.{◌≡◌, ◌≤◌, ◌+◌, ◌++◌, ◌↔◌, [], Some, min, length, take};
ghost use Rattle.std.specs.Prelude.{vec_len, vec_capacity};
ghost use Rattle.std.specs.Prelude.{OnOk, OnErr, IsOk, IsNone, IfSome, IfNone};
ghost use Rattle.ck_edges.specs.Faults.{next_count};
ghost use Rattle.ck_edges.specs.Failing.{fails_after};
ghost use Rattle.ck_edges.specs.Sink.{AppendsFront};

use crate::failing::{count_taken, failure_of};
use crate::fault::{Failed, FaultCount};
use crate::sink::Sink;
use fixed_point::Memory;
use std::alloc::Global;

/// A sink in memory, which fails where it is told to, and where it has no room.
///
/// It tells what it has taken.
#[derive(Drop)]
pub struct MemSink {
    bytes: Vec<u8>,
    room: usize,
    fails: Vec<(u64, usize)>,
    calls: u64,
    faults: FaultCount,
    ghost reserved: { vec_len bytes + room ≤ vec_capacity bytes },
}

impl MemSink {
    ghost use Rattle.ck_edges.specs.MemSink.{sink_bytes, sink_room};
    ghost use Rattle.ck_edges.specs.MemSink.{failing_writes, writes_made, writes_failed};

    /// An empty sink without room. The writes whose numbers are listed in `fails`, counted from 1,
    /// will fail, each after at most as many bytes as stand beside its number.
    pub fn new(alloc: Global, fails: Vec<(u64, usize)>) -> MemSink
        ensures empty { sink_bytes result ≡ [] }
        ensures room { sink_room result ≡ 0 }
        ensures fails { failing_writes result ≡ fails.items }
        ensures unwritten { writes_made result ≡ 0 }
        ensures unfailed { writes_failed result ≡ 0 }
    {
        MemSink {
            bytes: Vec::new(alloc),
            room: 0,
            fails,
            calls: 0,
            faults: FaultCount::new(),
        }
    }

    /// Makes room for so many bytes more, in place of the room that was left.
    pub fn room(&mut self, bytes: usize) -> Result<(), Memory>
        ensures ok { OnOk result (sink_room self.new ≡ bytes) }
        ensures err { OnErr result (sink_room self.new ≡ sink_room self.old) }
        ensures same_bytes { sink_bytes self.new ≡ sink_bytes self.old }
        ensures same_fails { failing_writes self.new ≡ failing_writes self.old }
        ensures same_calls { writes_made self.new ≡ writes_made self.old }
        ensures same_faults { writes_failed self.new ≡ writes_failed self.old }
    {
        self.bytes.reserve_exact(bytes)?;
        self.room = bytes;
        Ok(())
    }

    /// The bytes that it has taken. It takes no memory.
    pub fn written(&self) -> &[u8]
        ensures { result.now ≡ sink_bytes self.now }
    {
        self.bytes.as_slice()
    }
}

impl Sink for MemSink {
    ghost use Rattle.ck_edges.specs.MemSink.{sink_bytes, sink_room};
    ghost use Rattle.ck_edges.specs.MemSink.{failing_writes, writes_made, writes_failed};

    ghost written = { λ s. Some s.bytes.items };

    ghost write_faults = { λ s. s.faults };

    fn write(&mut self, bytes: &[u8]) -> Result<(), Failed>
        ensures counted { writes_made self.new ≡ next_count (writes_made self.old) }
        ensures same_fails { failing_writes self.new ≡ failing_writes self.old }
        ensures taken { IsOk result ↔
            (IsNone (fails_after (failing_writes self.old) (writes_made self.new))
            × (length bytes.now ≤ sink_room self.old)) }
        ensures whole { OnOk result (sink_bytes self.new ≡ sink_bytes self.old ++ bytes.now) }
        ensures listed { IfSome (fails_after (failing_writes self.old) (writes_made self.new))
            (λ most. sink_bytes self.new
            ≡ sink_bytes self.old ++ take (min most (sink_room self.old)) bytes.now) }
        ensures no_room { IfNone (fails_after (failing_writes self.old) (writes_made self.new))
            (OnErr result (sink_bytes self.new ≡ sink_bytes self.old)) }
        ensures part { OnErr result
            (AppendsFront (Some (sink_bytes self.old)) (Some (sink_bytes self.new)) bytes.now) }
        ensures room { sink_room self.new + length (sink_bytes self.new)
            ≡ sink_room self.old + length (sink_bytes self.old) }
        ensures fault { OnErr result
            (writes_failed self.new ≡ next_count (writes_failed self.old)) }
        ensures no_fault { OnOk result (writes_failed self.new ≡ writes_failed self.old) }
        ensures count { writes_failed self.old ≤ writes_failed self.new }
    {
        self.calls = self.calls.saturating_add(1);
        let failure = failure_of(&self.fails, self.calls);
        let taken = count_taken(failure, self.room, bytes.len());
        let fits = self.bytes.extend_from_slice(&bytes[..taken]).is_ok();
        prove!(fits);
        self.room -= taken;
        if failure.is_some() || taken < bytes.len() {
            self.faults.raise();
            return Err(Failed);
        }
        Ok(())
    }
}
