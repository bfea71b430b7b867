//! Streams over a reader and a writer that fail, and pieces of octets.
use bsc_outside::{ReaderSource, Sink, Source, SureSource, WriterSink};
use std::io;
use std::process::Abort;
use std::test::*;

/// A reader whose calls fail, and a writer that takes nothing.
#[derive(Drop)]
struct Full;

impl io::Read for Full {
    fn read(&mut self, _buf: &mut [u8]) -> io::Result<usize> {
        Err(io::Error::from(io::ErrorKind::Interrupted))
    }
}

impl io::Write for Full {
    fn write(&mut self, _buf: &[u8]) -> io::Result<usize> {
        Ok(0)
    }

    fn flush(&mut self) -> io::Result<()> {
        Ok(())
    }
}

/// How many octets each of the next reads of up to four gives; none where it fails.
fn reads<S: Source>(source: &mut S) -> [Option<usize>; 5] {
    let mut given = [None; 5];
    let mut into = [0; 4];
    for read in &mut given {
        *read = source.read(&mut into).ok();
    }
    given
}

#[test]
fn adapters_tell_a_fault(rt: HostRuntime) {
    let mut sink = WriterSink::new(Full);
    assert!(rt; sink.write(b"").is_ok() && sink.write(b"x").is_err());
    assert!(rt; reads(&mut ReaderSource::new(Full)) == [None; 5]);
}

#[test]
fn octets_come_in_pieces(rt: HostRuntime) {
    let given = reads(&mut ReaderSource::new(b"abcdef".as_slice()));
    assert!(rt; given == [Some(4), Some(2), Some(0), Some(0), Some(0)]);
    let given = reads(&mut SureSource::in_pieces(b"abcdef", 3));
    assert!(rt; given == [Some(3), Some(3), Some(0), Some(0), Some(0)]);
}
