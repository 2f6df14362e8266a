//! std's readers and writers as sources and sinks, which fail where they do, and a block that holds back.
use flp_io::{Block, Failed, MemorySink, ReaderSource, Source, WriterSink, fill, put};
use std::io::{self, Read, Write};
use std::test::Fail;

const BYTES: &[u8] = b"abcdef";

/// Reads and writes one byte at the first call, and fails at the second.
#[derive(Drop)]
struct Flaky {
    fails: bool,
    byte: u8,
}

impl Flaky {
    fn turn(&mut self) -> io::Result<()> {
        if self.fails {
            return Err(io::ErrorKind::Interrupted.into());
        }
        self.fails = true;
        Ok(())
    }
}

impl Read for Flaky {
    fn read(&mut self, buf: &mut [u8]) -> io::Result<usize> {
        self.turn()?;
        match buf {
            [] => Ok(0),
            [first, ..] => {
                *first = self.byte;
                Ok(1)
            }
        }
    }
}

impl Write for Flaky {
    fn write(&mut self, buf: &[u8]) -> io::Result<usize> {
        self.turn()?;
        match buf {
            [] => Ok(0),
            [first, ..] => {
                self.byte = *first;
                Ok(1)
            }
        }
    }

    fn flush(&mut self) -> io::Result<()> {
        Ok(())
    }
}

#[test]
fn a_reader_is_a_source(rt: HostRuntime) {
    let mut source = ReaderSource::new(BYTES);
    let mut buffer = [0; 4];
    assert_eq!(rt; fill(&mut source, &mut buffer), Ok(4));
    assert_eq!(rt; fill(&mut source, &mut buffer), Ok(2));
    assert_eq!(rt; buffer, *b"efcd");
}

#[test]
fn a_source_fails_where_its_reader_does(rt: HostRuntime) {
    let mut source = ReaderSource::new(Flaky {
        fails: false,
        byte: b'x',
    });
    let mut buffer = [0; 4];
    assert_eq!(rt; source.read(&mut buffer), Ok(1));
    assert_eq!(rt; source.read(&mut buffer), Err(Failed));
    assert_eq!(rt; buffer, *b"x\0\0\0");
}

#[test]
fn a_writer_is_a_sink(rt: HostRuntime) -> Result<(), Fail> {
    let mut bytes = Vec::new(rt.alloc());
    let mut sink = WriterSink::new(&mut bytes);
    assert_eq!(rt; put(&mut sink, BYTES), Ok(()));
    assert_eq!(rt; bytes.as_slice(), BYTES);
    Ok(())
}

/// A full writer takes nothing, and no error.
#[test]
fn a_sink_fails_where_its_writer_is_full(rt: HostRuntime) {
    let mut room = [0; 4];
    let mut sink = WriterSink::new(room.as_mut_slice());
    assert_eq!(rt; put(&mut sink, BYTES), Err(Failed));
    assert_eq!(rt; room, *b"abcd");
}

#[test]
fn a_sink_fails_where_its_writer_does(rt: HostRuntime) {
    let mut flaky = Flaky {
        fails: false,
        byte: 0,
    };
    let mut sink = WriterSink::new(&mut flaky);
    assert_eq!(rt; put(&mut sink, BYTES), Err(Failed));
    assert_eq!(rt; flaky.byte, b'a');
}

#[test]
fn a_block_holds_back_until_it_is_flushed(rt: HostRuntime) -> Result<(), Fail> {
    let mut sink = MemorySink::new(rt.alloc(), 9, Vec::new(rt.alloc()));
    sink.reserve(9)?;
    let mut block = Block::new(rt.alloc())?;
    assert_eq!(rt; block.push(&mut sink, BYTES), Ok(()));
    assert_eq!(rt; sink.taken().len(), 0);
    assert_eq!(rt; block.flush(&mut sink), Ok(()));
    assert_eq!(rt; sink.taken(), BYTES);
    Ok(())
}
