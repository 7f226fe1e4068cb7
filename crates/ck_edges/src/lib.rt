//! The edges of the program: where it reads its files, where it writes its lines, and where it
//! presses its sheets of sound.
//!
//! Its one contract is that of three traits. A [`Shelf`] gives the bytes of a named file, a
//! [`Sink`] takes bytes in order, a [`Press`] takes named sheets. Each tells what it holds where it
//! can, and counts its faults: a call that failed raised the count, and any other left it as it
//! was. So code above that is generic over an edge can't claim a fault that wasn't there, nor pass
//! over one that was.
//!
//! [`DiskShelf`], [`DiskPress`] and [`StdoutSink`] are the real edges. They tell nothing of what a
//! file or a pipe holds, but their reads go to the end and their writes leave nothing out, over any
//! reader and any writer. [`MemShelf`], [`MemSink`] and [`MemPress`] fail where they are told to.
//! [`SureShelf`], [`SureSink`] and [`SurePress`] never fail; nothing in this repository but tests uses
//! them.
#![tactic(auto)]

mod disk;
mod disk_press;
mod failing;
mod fault;
mod memory_press;
mod memory_shelf;
mod memory_sink;
mod press;
mod shelf;
mod sink;
mod sure;
#[cfg(test)]
mod tests;
mod whole;
mod writer_sink;

pub use disk::DiskShelf;
pub use disk_press::DiskPress;
pub use fault::{Failed, ReadEnd};
pub use memory_press::MemPress;
pub use memory_shelf::MemShelf;
pub use memory_sink::MemSink;
pub use press::Press;
pub use shelf::Shelf;
pub use sink::Sink;
pub use sure::{SurePress, SureShelf, SureSink};
pub use writer_sink::{StdoutSink, WriterSink};
