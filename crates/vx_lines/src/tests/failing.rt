use crate::outside::{Failed, Sink, Source};
use crate::standard::{StdSink, StdSource};
use std::io::{Error, ErrorKind, Read, Result, Write};

// A reader whose calls from the second to the last of these fail.
#[derive(Drop)]
struct Reader {
    calls: u8,
    last_failure: u8,
}

impl Read for Reader {
    fn read(&mut self, buf: &mut [u8]) -> Result<usize> {
        self.calls = self.calls.saturating_add(1);
        if self.calls > 1 && self.calls <= self.last_failure {
            return Err(Error::from(ErrorKind::Interrupted));
        }
        buf.fill(b'r');
        Ok(buf.len())
    }
}

// A writer that takes one byte at a time, and none or fails where it is told to: so many of its first writes fail.
#[derive(Drop)]
struct Writer {
    takes_none: bool,
    failures: u8,
    fails_to_flush: bool,
}

impl Write for Writer {
    fn write(&mut self, buf: &[u8]) -> Result<usize> {
        if self.failures > 0 {
            self.failures -= 1;
            Err(Error::from(ErrorKind::BrokenPipe))
        } else if self.takes_none {
            Ok(0)
        } else {
            Ok(buf.len().min(1))
        }
    }

    fn flush(&mut self) -> Result<()> {
        if self.fails_to_flush {
            Err(Error::from(ErrorKind::BrokenPipe))
        } else {
            Ok(())
        }
    }
}

// What a writer that behaves so makes of a piece.
fn written(
    takes_none: bool,
    failures: u8,
    fails_to_flush: bool,
) -> std::result::Result<usize, Failed> {
    let mut sink = StdSink::new(Writer {
        takes_none,
        failures,
        fails_to_flush,
    });
    sink.write("ab".as_bytes())
}

#[test]
fn a_failing_reader_is_a_failing_source(rt: HostRuntime) {
    let mut source = StdSource::new(Reader {
        calls: 0,
        last_failure: 3,
    });
    let mut buf = [b'-'; 2];
    assert_eq!(rt; source.read(&mut buf), Ok(2));
    assert_eq!(rt; buf, [b'r', b'r']);
    assert_eq!(rt; source.read(&mut buf), Err(Failed));
    assert_eq!(rt; source.read(&mut buf), Err(Failed));
    assert_eq!(rt; buf, [b'r', b'r']);
}

#[test]
fn a_failing_writer_is_a_failing_sink(rt: HostRuntime) {
    assert_eq!(rt; written(false, 0, false), Ok(1));
    assert_eq!(rt; written(true, 0, false), Err(Failed));
    assert_eq!(rt; written(false, 1, false), Err(Failed));
    assert_eq!(rt; written(false, 0, true), Err(Failed));
}

#[test]
fn a_source_gives_bytes_again_after_a_failure(rt: HostRuntime) {
    let mut source = StdSource::new(Reader {
        calls: 0,
        last_failure: 2,
    });
    assert_eq!(rt; source.read(&mut [b'-'; 2]), Ok(2));
    assert_eq!(rt; source.read(&mut [b'-'; 2]), Err(Failed));
    let mut buf = [b'-'; 2];
    assert_eq!(rt; source.read(&mut buf), Ok(2));
    assert_eq!(rt; buf, [b'r', b'r']);
}

#[test]
fn a_sink_takes_bytes_again_after_a_failure(rt: HostRuntime) {
    let mut sink = StdSink::new(Writer {
        takes_none: false,
        failures: 1,
        fails_to_flush: false,
    });
    assert_eq!(rt; sink.write("ab".as_bytes()), Err(Failed));
    assert_eq!(rt; sink.write("ab".as_bytes()), Ok(1));
}
