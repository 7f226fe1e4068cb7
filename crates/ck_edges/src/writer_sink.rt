ghost use Rattle.std.specs.Prelude.{◌≡◌, ◌≤◌, None, OnOk, OnErr};
ghost use Rattle.std.specs.Io.KnownBytes.{Appends};
ghost use Rattle.ck_edges.specs.Faults.{next_count};

use crate::fault::{Failed, FaultCount};
use crate::sink::Sink;
use crate::whole::write_whole;
use std::io;
use std::io::{Printer, Write};

/// A sink over a writer. It tells nothing of what the other end got.
#[derive(Drop)]
pub struct WriterSink<W> {
    out: W,
    faults: FaultCount,
}

/// Standard output as a sink.
pub type StdoutSink<'a, R> = WriterSink<Printer<'a, R>>;

impl<'a, R: Print> WriterSink<Printer<'a, R>> {
    ghost use Rattle.ck_edges.specs.WriterSink.{sink_faults};

    /// The standard output of this runtime.
    pub fn new(rt: &'a R) -> StdoutSink<'a, R>
        ensures { sink_faults result ≡ 0 }
    {
        WriterSink {
            out: io::writer(rt),
            faults: FaultCount::new(),
        }
    }
}

impl<W: Write> Sink for WriterSink<W> {
    ghost use Rattle.ck_edges.specs.WriterSink.{sink_faults};

    ghost written = { λ _. None };

    ghost write_faults = { λ s. s.faults };

    fn write(&mut self, bytes: &[u8]) -> Result<(), Failed>
        ensures taken { OnOk result
            (Appends (W.contents self.old.out) (W.contents self.new.out) bytes.now) }
        ensures fault { OnErr result
            (sink_faults self.new ≡ next_count (sink_faults self.old)) }
        ensures no_fault { OnOk result (sink_faults self.new ≡ sink_faults self.old) }
        ensures count { sink_faults self.old ≤ sink_faults self.new }
    {
        let end = write_whole(&mut self.out, bytes);
        self.faults.note(end)
    }
}
