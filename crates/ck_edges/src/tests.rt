//! What no case shows: edges that never fail, whole reads and writes over a reader and a writer
//! that stop short, and a file that the system can't keep. What is expected is worked out by hand
//! from what the edges promise.
ghost use Rattle.std.specs.Prelude.{◌≡◌, []};

use crate::disk_press::settle;
use crate::whole::{read_whole, write_whole};
use crate::{Failed, Press, ReadEnd, Shelf, Sink, SurePress, SureShelf, SureSink};
use std::fs::{Metadata, OpenFile};
use std::io;
use std::io::{ErrorKind, Read, Write};
use std::test::Fail;

#[test]
fn sure_edges_take_all(rt: HostRuntime) -> Result<(), Fail> {
    let alloc = rt.alloc();
    let name = String::from_str(alloc, "a.ck")?;
    let bytes = Vec::from_slice(alloc, b"one")?;
    let mut shelf = SureShelf::new(vec![in alloc; (name, bytes)]?);
    let mut into = Vec::new(alloc);
    assert_eq!(rt; shelf.read("a.ck", 4, &mut into), Ok(()));
    assert_eq!(rt; into.as_slice(), b"one".as_slice());
    let mut sink = SureSink::new();
    assert_eq!(rt; sink.write(b"abc"), Ok(()));
    assert_eq!(rt; sink.taken(), 3);
    let mut press = SurePress::new();
    assert_eq!(rt; press.begin("a.wav"), Ok(()));
    assert_eq!(rt; press.write(b"abc"), Ok(()));
    assert_eq!(rt; press.end(), Ok(()));
    Ok(())
}

/// Gives one byte a call, each second call, and is interrupted at the others; one call fails.
#[derive(Drop)]
struct SlowReader<'a> {
    text: &'a [u8],
    calls: u64,
    bad: u64,
}

impl Read for SlowReader<'_> {
    fn read(&mut self, piece: &mut [u8]) -> io::Result<usize> {
        self.calls = self.calls.saturating_add(1);
        if self.calls == self.bad {
            return Err(io::Error::from(ErrorKind::Other));
        }
        if self.calls % 2 == 1 {
            return Err(io::Error::from(ErrorKind::Interrupted));
        }
        let most = piece.len().min(1);
        self.text.read(&mut piece[..most])
    }
}

/// Reads `four` to its end, if it has at most so many bytes, where the call of this number fails.
fn read_four(max: usize, bad: u64, into: &mut Vec<u8>) -> Result<(), ReadEnd>
    requires { into.old.items ≡ [] }
{
    let mut reader = SlowReader {
        text: b"four",
        calls: 0,
        bad,
    };
    read_whole(&mut reader, max, into)
}

#[test]
fn a_short_or_interrupted_read_is_no_end(rt: HostRuntime) {
    let mut whole = Vec::new(rt.alloc());
    assert_eq!(rt; read_four(4, 0, &mut whole), Ok(()));
    assert_eq!(rt; whole.as_slice(), b"four".as_slice());
    let mut front = Vec::new(rt.alloc());
    assert_eq!(rt; read_four(4, 3, &mut front), Err(ReadEnd::Failed));
    assert_eq!(rt; front.as_slice(), b"f".as_slice());
    let mut long = Vec::new(rt.alloc());
    assert_eq!(rt; read_four(2, 0, &mut long), Err(ReadEnd::Long));
    assert_eq!(rt; long.as_slice(), b"fou".as_slice());
}

/// Takes two bytes a call, each second call, and is interrupted at the others; one call takes none.
#[derive(Drop)]
struct SlowWriter {
    text: Vec<u8>,
    calls: u64,
    idle: u64,
}

impl Write for SlowWriter {
    fn write(&mut self, bytes: &[u8]) -> io::Result<usize> {
        self.calls = self.calls.saturating_add(1);
        if self.calls == self.idle {
            return Ok(0);
        }
        if self.calls % 2 == 1 {
            return Err(io::Error::from(ErrorKind::Interrupted));
        }
        let most = bytes.len().min(2);
        self.text.extend_from_slice(&bytes[..most])?;
        Ok(most)
    }

    fn flush(&mut self) -> io::Result<()> {
        Ok(())
    }
}

#[test]
fn a_short_or_interrupted_write_is_followed_by_another(rt: HostRuntime) {
    let mut writer = SlowWriter {
        text: Vec::new(rt.alloc()),
        calls: 0,
        idle: 0,
    };
    assert_eq!(rt; write_whole(&mut writer, b"abcde"), Ok(()));
    assert_eq!(rt; writer.text.as_slice(), b"abcde".as_slice());
    writer.idle = 8;
    assert_eq!(rt; write_whole(&mut writer, b"fg"), Err(Failed));
    assert_eq!(rt; writer.text.as_slice(), b"abcde".as_slice());
}

/// A file that takes all bytes, and whose `sync_all` ends as it is told to.
#[derive(Drop)]
struct KeptFile {
    fault: Option<ErrorKind>,
}

impl Write for KeptFile {
    fn write(&mut self, bytes: &[u8]) -> io::Result<usize> {
        Ok(bytes.len())
    }

    fn flush(&mut self) -> io::Result<()> {
        Ok(())
    }
}

impl OpenFile for KeptFile {
    fn metadata(&self) -> io::Result<Metadata> {
        Err(io::Error::from(ErrorKind::Unsupported))
    }

    fn set_len(&self, _size: u64) -> io::Result<()> {
        Err(io::Error::from(ErrorKind::Unsupported))
    }

    fn sync_all(&self) -> io::Result<()> {
        match self.fault {
            Some(kind) => Err(io::Error::from(kind)),
            None => Ok(()),
        }
    }

    fn sync_data(&self) -> io::Result<()> {
        self.sync_all()
    }
}

#[test]
fn a_file_that_is_not_kept_is_a_fault(rt: HostRuntime) {
    let settled = |fault| settle(&mut KeptFile { fault });
    assert_eq!(rt; settled(Some(ErrorKind::StorageFull)), Err(Failed));
    assert_eq!(rt; settled(Some(ErrorKind::InvalidInput)), Ok(()));
    assert_eq!(rt; settled(None), Ok(()));
}
