ghost use Rattle.std.specs.Prelude.{◌≡◌, ◌<◌, ◌≤◌, length};

use crate::answering::{Answering, answer_lines};
use crate::buffers::MOST_BYTES;
use crate::lines::MOST_INPUT;
use crate::loop_end::LoopEnd;
use crate::memory_sink::MemorySink;
use crate::memory_source::MemorySource;
use std::alloc::{AllocError, Global};
use std::str;
use std::test::Fail;
use vx_scheme::{NoMemory, Text};

// The line itself, accepted where it does not begin with `no`. The line `full` finds no memory.
struct Echo;

impl Answering for Echo {
    ghost use Rattle.std.specs.Prelude.{◌≡◌, ◌≤◌, length};
    ghost use Rattle.vx_lines.specs.declared.buffers.TheConstants.{MOST_BYTES};

    ghost says = { λ _ line ok text. length line ≤ MOST_BYTES → text ≡ line };

    fn answer(&self, line: &[u8], text: &mut Text) -> Result<bool, NoMemory> {
        if line == "full".as_bytes() {
            return Err(NoMemory);
        }
        let Ok(piece) = str::from_utf8(line) else {
            return Err(NoMemory);
        };
        text.push_str(piece)?;
        Ok(!line.starts_with("no".as_bytes()))
    }

    fn answer_long(&self, text: &mut Text) -> Result<bool, NoMemory> {
        text.push_str("too long")?;
        Ok(false)
    }
}

const INPUT: &str = "purl\tpkg:gem/x\npurl\tpkg:gem/y";

const OUTPUT: &str = "purl\tpkg:gem/x\npurl\tpkg:gem/y\n";

// How a run over this source ends with so much room, and what the sink holds then.
fn run(
    alloc: Global,
    limit: u64,
    source: &mut MemorySource,
    room: usize,
) -> Result<Option<(LoopEnd, Vec<u8>)>, AllocError>
    requires some { 0 < limit }
    requires most { limit ≤ MOST_INPUT }
{
    let Ok(mut sink) = MemorySink::with_room(alloc, room, Vec::new(alloc)) else {
        return Ok(None);
    };
    let end = answer_lines(alloc, limit, &Echo, source, &mut sink);
    Ok(Some((end, Vec::from_slice(alloc, sink.bytes())?)))
}

// Whether the run over these bytes ends so and has written this.
fn is_run(
    alloc: Global,
    limit: u64,
    bytes: &[u8],
    end: LoopEnd,
    wanted: &str,
) -> Result<bool, AllocError>
    requires some { 0 < limit }
    requires most { limit ≤ MOST_INPUT }
{
    let mut source = MemorySource::new(Vec::from_slice(alloc, bytes)?, 4_096, Vec::new(alloc));
    match run(alloc, limit, &mut source, 70_000)? {
        Some((found, written)) => Ok(found == end && written.as_slice() == wanted.as_bytes()),
        None => Ok(false),
    }
}

// So many bytes `a`, between these.
fn long_text(alloc: Global, front: &str, count: usize, end: &str) -> Result<String, AllocError> {
    let mut text = String::from_str(alloc, front)?;
    for _ in 0..count {
        text.push('a')?;
    }
    text.push_str(end)?;
    Ok(text)
}

#[test]
fn each_line_is_answered_in_order(rt: HostRuntime) -> Result<(), Fail> {
    let alloc = rt.alloc();
    for (bytes, end, wanted) in [
        ("", LoopEnd::Done, ""),
        ("\n", LoopEnd::Done, "\n"),
        ("a\nb\r\nc", LoopEnd::Done, "a\nb\r\nc\n"),
        ("a\nno\nc\n", LoopEnd::Refused, "a\nno\nc\n"),
        ("a\nno", LoopEnd::Refused, "a\nno\n"),
        ("a\nfull\nb", LoopEnd::NoMemory, ""),
    ] {
        assert!(rt; is_run(alloc, 100, bytes.as_bytes(), end, wanted)?);
    }
    Ok(())
}

#[test]
fn a_line_of_65537_bytes_is_too_long(rt: HostRuntime) -> Result<(), Fail> {
    let alloc = rt.alloc();
    let bytes = long_text(alloc, "x\n", 65_537, "\ny\n")?;
    assert!(rt;
        is_run(
            alloc,
            100_000,
            bytes.as_bytes(),
            LoopEnd::Refused,
            "x\ntoo long\ny\n"
        )?
    );
    let bytes = long_text(alloc, "x\n", 65_536, "\ny\n")?;
    assert!(rt;
        is_run(
            alloc,
            100_000,
            bytes.as_bytes(),
            LoopEnd::Done,
            bytes.as_str()
        )?
    );
    Ok(())
}

#[test]
fn the_limit_ends_a_run(rt: HostRuntime) -> Result<(), Fail> {
    let alloc = rt.alloc();
    let bytes = "purl\tpkg:gem/x\n".as_bytes();
    assert!(rt; is_run(alloc, 16, bytes, LoopEnd::Done, "purl\tpkg:gem/x\n")?);
    assert!(rt; is_run(alloc, 15, bytes, LoopEnd::InputLimit, "")?);
    Ok(())
}

#[test]
fn the_end_is_the_same_for_pieces_of_any_size(rt: HostRuntime) -> Result<(), Fail> {
    let alloc = rt.alloc();
    for step in 1..41usize {
        let bytes = Vec::from_slice(alloc, INPUT.as_bytes())?;
        let mut source = MemorySource::new(bytes, step, Vec::new(alloc));
        let wanted = Vec::from_slice(alloc, OUTPUT.as_bytes())?;
        assert_eq!(rt;
            run(alloc, 100, &mut source, 100)?,
            Some((LoopEnd::Done, wanted))
        );
    }
    Ok(())
}

#[test]
fn each_read_fails_in_turn(rt: HostRuntime) -> Result<(), Fail> {
    let alloc = rt.alloc();
    for call in 1..31u64 {
        let bytes = Vec::from_slice(alloc, INPUT.as_bytes())?;
        let mut source = MemorySource::new(bytes, 1, Vec::from_slice(alloc, &[call])?);
        let wanted = if call <= 15 { "" } else { "purl\tpkg:gem/x\n" };
        let wanted = Vec::from_slice(alloc, wanted.as_bytes())?;
        assert_eq!(rt;
            run(alloc, 100, &mut source, 100)?,
            Some((LoopEnd::ReadFault, wanted))
        );
    }
    Ok(())
}

#[test]
fn each_write_fails_in_turn(rt: HostRuntime) -> Result<(), Fail> {
    let alloc = rt.alloc();
    for room in 0..30usize {
        for step in [1usize, 4_096] {
            let bytes = Vec::from_slice(alloc, INPUT.as_bytes())?;
            let mut source = MemorySource::new(bytes, step, Vec::new(alloc));
            let found = run(alloc, 100, &mut source, room)?;
            let wanted = Vec::from_slice(alloc, &OUTPUT.as_bytes()[..room])?;
            assert_eq!(rt; found, Some((LoopEnd::WriteFault, wanted)));
        }
    }
    Ok(())
}
