use crate::memory_sink::MemorySink;
use crate::memory_source::MemorySource;
use crate::outside::{Failed, Sink, Source, write_whole};
use crate::plain_source::PlainSource;
use crate::standard::{StdSink, StdSource};
use std::test::Fail;

#[test]
fn a_plain_source_is_read_in_pieces(rt: HostRuntime) -> Result<(), Fail> {
    let alloc = rt.alloc();
    let mut source = PlainSource::new(Vec::from_slice(alloc, "abcde".as_bytes())?);
    let mut buf = [b'-'; 3];
    assert_eq!(rt; source.read(&mut buf[..0]), Ok(0));
    assert_eq!(rt; source.read(&mut buf), Ok(3));
    assert_eq!(rt; buf, [b'a', b'b', b'c']);
    assert_eq!(rt; source.read(&mut buf), Ok(2));
    assert_eq!(rt; buf, [b'd', b'e', b'c']);
    assert_eq!(rt; source.read(&mut buf), Ok(0));
    Ok(())
}

#[test]
fn a_reader_of_std_is_a_source(rt: HostRuntime) {
    let mut source = StdSource::new("abcde".as_bytes());
    let mut buf = [b'-'; 4];
    assert_eq!(rt; source.read(&mut buf), Ok(4));
    assert_eq!(rt; buf, [b'a', b'b', b'c', b'd']);
    assert_eq!(rt; source.read(&mut buf), Ok(1));
    assert_eq!(rt; buf, [b'e', b'b', b'c', b'd']);
    assert_eq!(rt; source.read(&mut buf), Ok(0));
}

#[test]
fn a_writer_of_std_is_a_sink(rt: HostRuntime) {
    let mut bytes = [b'-'; 3];
    let mut sink = StdSink::new(bytes.as_mut_slice());
    assert_eq!(rt; sink.write("".as_bytes()), Ok(0));
    assert_eq!(rt; write_whole(&mut sink, "ab".as_bytes()), Ok(()));
    assert_eq!(rt; write_whole(&mut sink, "cd".as_bytes()), Err(Failed));
    assert_eq!(rt; bytes, [b'a', b'b', b'c']);
}

#[test]
fn a_source_gives_its_step_and_fails_at_the_listed_calls(rt: HostRuntime) -> Result<(), Fail> {
    let alloc = rt.alloc();
    let bytes = Vec::from_slice(alloc, "abcde".as_bytes())?;
    let mut source = MemorySource::new(bytes, 2, Vec::from_slice(alloc, &[2u64])?);
    let mut buf = [b'-'; 3];
    assert_eq!(rt; source.read(&mut buf), Ok(2));
    assert_eq!(rt; source.read(&mut buf), Err(Failed));
    assert_eq!(rt; buf, [b'a', b'b', b'-']);
    assert_eq!(rt; source.read(&mut buf), Ok(2));
    assert_eq!(rt; source.read(&mut buf), Ok(1));
    assert_eq!(rt; buf, [b'e', b'd', b'-']);
    assert_eq!(rt; source.read(&mut buf), Ok(0));
    Ok(())
}

#[test]
fn a_sink_holds_what_it_has_room_for(rt: HostRuntime) -> Result<(), Fail> {
    let alloc = rt.alloc();
    let bytes = "ok\tpkg:gem/x\nok\tpkg:gem/y\n".as_bytes();
    for room in 0..27usize {
        let made = MemorySink::with_room(alloc, room, Vec::new(alloc));
        assert!(rt; made.is_ok());
        if let Ok(mut sink) = made {
            assert_eq!(rt; write_whole(&mut sink, bytes).is_ok(), room == 26);
            assert_eq!(rt; Some(sink.bytes()), bytes.get(..room));
        }
    }
    Ok(())
}
