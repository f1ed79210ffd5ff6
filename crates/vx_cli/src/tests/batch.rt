use super::words_of;
use crate::exit_number;
use crate::running::run;
use crate::status::Status;
use std::alloc::{AllocError, Global};
use std::test::Fail;
use vx_lines::{MemorySink, MemorySource};

// Two lines, of which the second ends with the input.
const TWO_LINES: &str = "purl\tpkg:gem/x\npurl\tpkg:gem/y";

// What a run has: the source gives `step` bytes a call, the call with the number `fails` fails, and the sink has `room`.
#[derive(Clone, Copy)]
struct Within {
    step: usize,
    fails: u64,
    room: usize,
}

// Whether `batch` ends so over these bytes, and writes this.
fn ends_so(
    alloc: Global,
    input: &[u8],
    within: Within,
    status: Status,
    output: &[u8],
) -> Result<bool, AllocError> {
    let words = words_of(alloc, "batch")?;
    let input = Vec::from_slice(alloc, input)?;
    let fails = vec![in alloc; within.fails]?;
    let mut source = MemorySource::new(input, within.step.max(1), fails);
    let Ok(mut sink) = MemorySink::with_room(alloc, within.room, Vec::new(alloc)) else {
        return Ok(false);
    };
    let found = run(alloc, &words, &mut source, &mut sink);
    Ok(found == status && sink.bytes() == output)
}

// No call fails, and all that is written has room.
fn without_faults(step: usize) -> Within {
    Within {
        step,
        fails: 0,
        room: 200,
    }
}

#[test]
fn lines_are_answered_in_order(rt: HostRuntime) -> Result<(), Fail> {
    let input = b"purl\tpkg:gem/x\r\n\ncanon\tvers:npm/*\nbatch";
    let output = b"ok\tpkg:gem/x%0D\nno\t3 BadCommand\t-\nok\tvers:npm/*\nno\t3 BadCommand\t-\n";
    for step in [1, 2, 3, 7, 40, 100] {
        let within = without_faults(step);
        let ends = ends_so(rt.alloc(), input, within, Status::Refused, output)?;
        assert!(rt; ends, "at step {step}");
    }
    Ok(())
}

#[test]
fn no_line_is_answered_by_none(rt: HostRuntime) -> Result<(), Fail> {
    let ends = ends_so(rt.alloc(), b"", without_faults(1), Status::Done, b"")?;
    assert!(rt; ends);
    Ok(())
}

#[test]
fn each_read_may_fail(rt: HostRuntime) -> Result<(), Fail> {
    // One byte a call: the call behind the 29th byte is the one that would see the end.
    for fails in 1..31u64 {
        let output = if fails < 16 { "" } else { "ok\tpkg:gem/x\n" };
        let input = TWO_LINES.as_bytes();
        let within = Within {
            step: 1,
            fails,
            room: 100,
        };
        let ends = ends_so(
            rt.alloc(),
            input,
            within,
            Status::ReadFault,
            output.as_bytes(),
        )?;
        assert!(rt; ends, "at call {fails}");
    }
    Ok(())
}

#[test]
fn each_write_may_fail(rt: HostRuntime) -> Result<(), Fail> {
    let output = b"ok\tpkg:gem/x\nok\tpkg:gem/y\n";
    for room in 0..output.len() {
        let input = TWO_LINES.as_bytes();
        let within = Within {
            step: 1,
            fails: 0,
            room,
        };
        let ends = ends_so(
            rt.alloc(),
            input,
            within,
            Status::WriteFault,
            &output[..room],
        )?;
        assert!(rt; ends, "at room {room}");
    }
    Ok(())
}

// The number that the program ends with, over these words behind its name, where the call of this number fails.
fn number_of(alloc: Global, line: &str, fails: u64, room: usize) -> Result<u8, AllocError> {
    let mut arguments = vec![in alloc; String::from_str(alloc, "vx")?]?;
    for word in line.split(';') {
        arguments.push(String::from_str(alloc, word)?)?;
    }
    let input = Vec::from_slice(alloc, TWO_LINES.as_bytes())?;
    let mut source = MemorySource::new(input, 7, vec![in alloc; fails]?);
    let Ok(mut sink) = MemorySink::with_room(alloc, room, Vec::new(alloc)) else {
        return Ok(u8::MAX);
    };
    Ok(exit_number(alloc, arguments, &mut source, &mut sink))
}

#[test]
fn the_program_ends_with_the_number_of_its_status(rt: HostRuntime) -> Result<(), Fail> {
    for (line, fails, room, number) in [
        ("batch", 0, 100, 0),
        ("canon;vers:npm/*", 0, 100, 0),
        ("canon;vers:npm", 0, 100, 1),
        ("canon", 0, 100, 2),
        ("batch", 1, 100, 3),
        ("batch", 0, 3, 4),
    ] {
        assert_eq!(rt; number_of(rt.alloc(), line, fails, room)?, number, "{line}");
    }
    Ok(())
}

#[test]
fn a_line_that_is_no_text_or_too_long_is_refused(rt: HostRuntime) -> Result<(), Fail> {
    let alloc = rt.alloc();
    let mut input = Vec::from_slice(alloc, b"\xff\npurl\tpkg:gem/x\n")?;
    for _ in 0..65_537 {
        input.push(b'a')?;
    }
    input.extend_from_slice(b"\ncanon\tvers:npm/*\n")?;
    let output = b"no\t2 NotText\t-\nok\tpkg:gem/x\nno\t1 LineTooLong\t-\nok\tvers:npm/*\n";
    let within = without_faults(4_096);
    let ends = ends_so(alloc, input.as_slice(), within, Status::Refused, output)?;
    assert!(rt; ends);
    Ok(())
}
