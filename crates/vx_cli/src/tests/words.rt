use super::words_of;
use crate::running::run;
use crate::status::Status;
use std::alloc::{AllocError, Global};
use std::test::Fail;
use vx_lines::{MemorySink, PlainSource};

// Whether the words of the line end the run so and write this, where the sink has this room.
fn ends_so(
    alloc: Global,
    line: &str,
    room: usize,
    status: Status,
    output: &str,
) -> Result<bool, AllocError> {
    let words = words_of(alloc, line)?;
    let mut source = PlainSource::new(Vec::new(alloc));
    let Ok(mut sink) = MemorySink::with_room(alloc, room, Vec::new(alloc)) else {
        return Ok(false);
    };
    let found = run(alloc, &words, &mut source, &mut sink);
    Ok(found == status && sink.bytes() == output.as_bytes())
}

// A tab may stand in a range that is a word of the command, and in no line.
#[test]
fn words_are_answered_and_a_full_sink_is_a_write_fault(rt: HostRuntime) -> Result<(), Fail> {
    for (line, room, status, output) in [
        (
            "to-vers;deb;all; =\t1.0 ",
            100,
            Status::Done,
            "ok\tvers:deb/1.0\n",
        ),
        (
            "canon;vers:npm",
            100,
            Status::Refused,
            "no\t11 BadVers\tHead 0\n",
        ),
        ("canon;vers:npm/*", 4, Status::WriteFault, "ok\tv"),
        ("canon;vers:npm/*", 0, Status::WriteFault, ""),
        (
            "drill;016",
            100,
            Status::Done,
            "lines 16\nok 16\nno 0\nbytes 500\n",
        ),
    ] {
        assert!(rt; ends_so(rt.alloc(), line, room, status, output)?, "{line}");
    }
    Ok(())
}

#[test]
fn a_listed_write_fails_once(rt: HostRuntime) -> Result<(), Fail> {
    let alloc = rt.alloc();
    let words = words_of(alloc, "canon;vers:npm/*")?;
    let mut source = PlainSource::new(Vec::new(alloc));
    let made = MemorySink::with_room(alloc, 100, vec![in alloc; 1u64]?);
    let mut sink = made.ok().ok_or("it has room")?;
    let first = run(alloc, &words, &mut source, &mut sink);
    let second = run(alloc, &words, &mut source, &mut sink);
    assert_eq!(rt; (first, second), (Status::WriteFault, Status::Done));
    assert_eq!(rt; sink.bytes(), b"ok\tvers:npm/*\n".as_slice());
    Ok(())
}

// Lines of words that are no command.
const FAULTS: &str = "
drill
drill;0
drill;1000001
drill;+1
drill;1;1
to-vers;npm
to_vers;npm;all;1
Purl;pkg:gem/x
batch;x";

#[test]
fn words_that_are_no_command_are_a_usage_fault(rt: HostRuntime) -> Result<(), Fail> {
    for line in FAULTS.lines() {
        assert!(rt;
            ends_so(rt.alloc(), line, 100, Status::Usage, "")?,
            "{line}"
        );
    }
    Ok(())
}

// A text, and a byte so often behind it.
fn long_text(alloc: Global, front: &str, byte: char, count: usize) -> Result<String, AllocError> {
    let mut text = String::from_str(alloc, front)?;
    for _ in 0..count {
        text.push(byte)?;
    }
    Ok(text)
}

#[test]
fn long_lines_are_answered(rt: HostRuntime) -> Result<(), Fail> {
    let alloc = rt.alloc();
    for (front, byte, count, status, output) in [
        (
            "to-vers;npm;all;>=",
            '9',
            60_000,
            Status::Refused,
            "no\t8 Numeral\t2\n",
        ),
        (
            "to-vers;npm;all;",
            ' ',
            65_520,
            Status::Done,
            "ok\tvers:npm/*\n",
        ),
        (
            "to-vers;npm;all;",
            ' ',
            65_521,
            Status::Refused,
            "no\t1 LineTooLong\t-\n",
        ),
    ] {
        let line = long_text(alloc, front, byte, count)?;
        assert!(rt;
            ends_so(alloc, line.as_str(), 100, status, output)?,
            "{front}"
        );
    }
    Ok(())
}

#[test]
fn a_package_url_may_take_the_whole_line(rt: HostRuntime) -> Result<(), Fail> {
    let alloc = rt.alloc();
    let line = long_text(alloc, "purl;pkg:gem/", 'a', 65_523)?;
    let mut output = long_text(alloc, "ok\tpkg:gem/", 'a', 65_523)?;
    output.push('\n')?;
    assert!(rt; ends_so(alloc, line.as_str(), 66_000, Status::Done, output.as_str())?);
    Ok(())
}
