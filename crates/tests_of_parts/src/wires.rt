// Wires over readers and writers, of which some fail.
use std::io::{self, ErrorKind, Read, Write};
use wire_lines::{ErrWire, ReadFailed, StdWire, Wire, WriteFailed};

// Takes as many bytes as it has room for.
#[derive(Drop)]
struct Sink {
    room: usize,
}

impl Write for Sink {
    fn write(&mut self, piece: &[u8]) -> io::Result<usize> {
        let count = piece.len().min(self.room);
        self.room -= count;
        Ok(count)
    }

    fn flush(&mut self) -> io::Result<()> {
        Ok(())
    }
}

#[test]
fn streams_are_a_wire(rt: HostRuntime) {
    let mut wire = StdWire::new(b"ab".as_slice(), Sink { room: 3 });
    let mut into = [0u8; 4];
    assert_eq!(rt; wire.read(&mut into), Ok(2));
    assert_eq!(rt; into, *b"ab\0\0");
    assert_eq!(rt; wire.read(&mut into), Ok(0));
    assert_eq!(rt; wire.write(b"hey!"), Ok(3));
    assert_eq!(rt; wire.write(b"!"), Err(WriteFailed), "it takes nothing");
}

#[test]
fn errors_go_to_a_writer_alone(rt: HostRuntime) {
    let mut wire = ErrWire::new(Sink { room: 2 });
    assert_eq!(rt; wire.read(&mut [0u8; 4]), Ok(0));
    assert_eq!(rt; wire.write(b"ab"), Ok(2));
    assert_eq!(rt; wire.write(b"c"), Err(WriteFailed));
}

// Its first read fails, its first flush and its second write; nothing fails after that.
#[derive(Drop)]
struct FailsOnce {
    reads: u64,
    writes: u64,
    flushes: u64,
}

impl Read for FailsOnce {
    fn read(&mut self, _into: &mut [u8]) -> io::Result<usize> {
        self.reads = self.reads.saturating_add(1);
        if self.reads == 1 {
            return Err(ErrorKind::ConnectionReset.into());
        }
        Ok(0)
    }
}

impl Write for FailsOnce {
    fn write(&mut self, piece: &[u8]) -> io::Result<usize> {
        self.writes = self.writes.saturating_add(1);
        if self.writes == 2 {
            return Err(ErrorKind::BrokenPipe.into());
        }
        Ok(piece.len())
    }

    fn flush(&mut self) -> io::Result<()> {
        self.flushes = self.flushes.saturating_add(1);
        if self.flushes == 1 {
            return Err(ErrorKind::BrokenPipe.into());
        }
        Ok(())
    }
}

const FRESH: FailsOnce = FailsOnce {
    reads: 0,
    writes: 0,
    flushes: 0,
};

#[test]
fn a_failure_is_told_and_not_tried_again(rt: HostRuntime) {
    let mut wire = StdWire::new(FRESH, FRESH);
    assert_eq!(rt; wire.read(&mut [0u8; 4]), Err(ReadFailed));
    assert_eq!(rt; wire.read(&mut [0u8; 4]), Ok(0));
    assert_eq!(rt; wire.write(b"a"), Err(WriteFailed), "the flush fails");
    assert_eq!(rt; wire.write(b"b"), Err(WriteFailed), "the write fails");
    assert_eq!(rt; wire.write(b"c"), Ok(1));
}
