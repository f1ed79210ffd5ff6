ghost use Rattle.std.specs.Prelude.{◌<◌, ◌≤◌};

use crate::lines::{Lines, MOST_INPUT};
use crate::memory_source::MemorySource;
use crate::next_line::NextLine;
use crate::outside::Source;
use crate::plain_source::PlainSource;
use std::alloc::{AllocError, Global};
use std::test::Fail;

// The answers over a source: each line in brackets, a star for one that is too long, and the last answer.
fn answers<R: Source>(alloc: Global, limit: u64, source: &mut R) -> Result<Vec<u8>, AllocError>
    requires some { 0 < limit }
    requires most { limit ≤ MOST_INPUT }
{
    let mut text = Vec::new(alloc);
    let Ok(mut lines) = Lines::new(alloc, limit) else {
        return Ok(text);
    };
    for _ in 0..100 {
        if !lines.is_open() {
            break;
        }
        match lines.next_line(source) {
            NextLine::Line => {
                text.push(b'[')?;
                text.extend_from_slice(lines.line())?;
                text.push(b']')?;
            }
            NextLine::TooLong => text.push(b'*')?,
            NextLine::End => text.push(b'E')?,
            NextLine::Failed => text.push(b'F')?,
            NextLine::Limit => text.push(b'L')?,
        }
    }
    Ok(text)
}

// The same over these bytes.
fn answers_over(alloc: Global, limit: u64, bytes: &[u8]) -> Result<Vec<u8>, AllocError>
    requires some { 0 < limit }
    requires most { limit ≤ MOST_INPUT }
{
    let mut source = PlainSource::new(Vec::from_slice(alloc, bytes)?);
    answers(alloc, limit, &mut source)
}

// So many bytes `a`, a line feed and a `b`.
fn long_line(alloc: Global, count: usize) -> Result<Vec<u8>, AllocError> {
    let mut bytes = Vec::new(alloc);
    for _ in 0..count {
        bytes.push(b'a')?;
    }
    bytes.extend_from_slice("\nb".as_bytes())?;
    Ok(bytes)
}

#[test]
fn each_line_feed_ends_a_line(rt: HostRuntime) -> Result<(), Fail> {
    let alloc = rt.alloc();
    for (bytes, wanted) in [
        ("", "E"),
        ("\n", "[]E"),
        ("a", "[a]E"),
        ("a\n", "[a]E"),
        ("a\nb", "[a][b]E"),
        ("a\r\n\nb\n", "[a\r][][b]E"),
    ] {
        let found = answers_over(alloc, 100, bytes.as_bytes())?;
        assert_eq!(rt; found.as_slice(), wanted.as_bytes());
    }
    assert_eq!(rt;
        answers_over(alloc, 100, &[255])?.as_slice(),
        [b'[', 255, b']', b'E'].as_slice()
    );
    Ok(())
}

#[test]
fn a_line_of_more_than_65536_bytes_is_too_long(rt: HostRuntime) -> Result<(), Fail> {
    let alloc = rt.alloc();
    let bytes = long_line(alloc, 65_537)?;
    assert_eq!(rt;
        answers_over(alloc, 100_000, bytes.as_slice())?.as_slice(),
        "*[b]E".as_bytes()
    );
    let bytes = long_line(alloc, 65_536)?;
    let found = answers_over(alloc, 100_000, bytes.as_slice())?;
    assert_eq!(rt; found.len(), 65_542);
    assert_eq!(rt; found.get(0), Some(&b'['));
    assert_eq!(rt; found.get(65_536), Some(&b'a'));
    assert_eq!(rt; found.get(65_537), Some(&b']'));
    Ok(())
}

#[test]
fn the_limit_is_reached_with_its_last_byte(rt: HostRuntime) -> Result<(), Fail> {
    let alloc = rt.alloc();
    let bytes = "purl\tpkg:gem/x\np".as_bytes();
    assert_eq!(rt;
        answers_over(alloc, 16, &bytes[..15])?.as_slice(),
        "[purl\tpkg:gem/x]E".as_bytes()
    );
    assert_eq!(rt; answers_over(alloc, 16, bytes)?.as_slice(), "L".as_bytes());
    assert_eq!(rt; answers_over(alloc, 15, bytes)?.as_slice(), "L".as_bytes());
    let mut source = MemorySource::new(Vec::from_slice(alloc, bytes)?, 1, Vec::new(alloc));
    assert_eq!(rt;
        answers(alloc, 16, &mut source)?.as_slice(),
        "[purl\tpkg:gem/x]L".as_bytes()
    );
    Ok(())
}

#[test]
fn the_lines_are_the_same_in_pieces_of_any_size(rt: HostRuntime) -> Result<(), Fail> {
    let alloc = rt.alloc();
    let bytes = "purl\tpkg:gem/x\npurl\tpkg:gem/y".as_bytes();
    let wanted = "[purl\tpkg:gem/x][purl\tpkg:gem/y]E".as_bytes();
    for step in 1..41usize {
        let mut source = MemorySource::new(Vec::from_slice(alloc, bytes)?, step, Vec::new(alloc));
        assert_eq!(rt; answers(alloc, 100, &mut source)?.as_slice(), wanted);
    }
    Ok(())
}

#[test]
fn each_read_fails_in_turn(rt: HostRuntime) -> Result<(), Fail> {
    let alloc = rt.alloc();
    let bytes = "purl\tpkg:gem/x\npurl\tpkg:gem/y".as_bytes();
    for call in 1..31u64 {
        let mut fails = Vec::new(alloc);
        fails.push(call)?;
        let mut source = MemorySource::new(Vec::from_slice(alloc, bytes)?, 1, fails);
        let wanted = if call <= 15 {
            "F"
        } else {
            "[purl\tpkg:gem/x]F"
        };
        assert_eq!(rt;
            answers(alloc, 100, &mut source)?.as_slice(),
            wanted.as_bytes()
        );
    }
    Ok(())
}
