ghost use Rattle.std.specs.Prelude.{◌≡◌, ◌≢◌, ◌⊎◌, ◌≤◌, ◌<◌, [], false, true, length, take, vec_capacity, IfOk, MatchResult};
ghost use Rattle.std.specs.Io.KnownBytes.{Consumes, IsAtEnd};
ghost use Rattle.vx_spec.specs.Marks.{Lacks};
ghost use Rattle.vx_lines.specs.Lines.{line_feed};
ghost use Rattle.vx_lines.specs.Outside.{HasCause, Rose};
ghost use Rattle.vx_lines.specs.Steps.Buffers.{held_of, IsFeedOf, IsGood, KeepsMore, SameSizes, SameCounts, SameLine, TakesFront, IsFilled, AnswersNext, line_found};

use crate::next_line::NextLine;
use crate::outside::{Failed, Source};
use memchr::memchr;

/// The most bytes that a line may have, without its line feed.
pub const MOST_BYTES: usize = 65_536;

/// The most bytes that a read asks for.
pub const MOST_READ: usize = 4_096;

/// A line in the making, and what was read ahead of it.
#[derive(Drop)]
pub struct Buffers {
    /// As much of the line as a line may have.
    pub line: Vec<u8>,
    /// The most bytes that a line may have.
    pub most: usize,
    /// Whether the line has more.
    pub is_long: bool,
    /// Where reads go.
    pub chunk: Vec<u8>,
    /// Where in it the bytes begin that are in no line yet.
    pub from: usize,
    /// Where in it they end.
    pub to: usize,
    /// How many of these bytes stand before their first line feed, where there is one.
    pub feed: Option<usize>,
    /// How many bytes may be taken.
    pub limit: u64,
    /// How many were taken.
    pub taken: u64,
    /// Whether the end of the source was seen.
    pub ended: bool,
}

/// How a read ended.
#[derive(Clone, Copy, Debug, PartialEq, Eq)]
pub enum Filled {
    /// It gave some bytes.
    More,
    /// It was the end.
    Ended,
    /// It failed.
    Failed,
    /// It gave the last byte that may be taken.
    Limit,
}

// Adds a piece to the line, as far as a line may be long.
fn keep(line: &mut Vec<u8>, most: usize, is_long: &mut bool, piece: &[u8])
    requires room { most ≤ vec_capacity line.old }
    requires short { length line.old.items ≤ most }
    ensures kept { KeepsMore most line.old.items is_long.old line.new.items is_long.new piece.now }
    ensures room { most ≤ vec_capacity line.new }
    ensures short { length line.new.items ≤ most }
{
    let room = most - line.len();
    if piece.len() > room {
        *is_long = true;
    }
    let count = piece.len().min(room);
    // The room is there, so this finds memory.
    let _ = line.extend_from_slice(&piece[..count]);
}

// How many bytes stand before the first line feed, where there is one.
fn first_feed(bytes: &[u8]) -> Option<usize>
    ensures { IsFeedOf bytes.now result }
{
    memchr(b'\n', bytes)
}

/// Whether a line feed is held. It takes no memory.
pub fn has_feed(b: &Buffers) -> bool
    requires { IsGood b.now }
    ensures whole { result ≡ true → ¬ Lacks line_feed (held_of b.now) }
    ensures none { result ≡ false → Lacks line_feed (held_of b.now) }
{
    b.feed.is_some()
}

// Adds what is held to the line, up to its first line feed, and says whether there was one.
fn take_front(b: &mut Buffers) -> bool
    requires { IsGood b.old }
    ensures good { IsGood b.new }
    ensures sizes { SameSizes b.old b.new }
    ensures counts { SameCounts b.old b.new }
    ensures front { TakesFront result b.old b.new }
{
    let held = &b.chunk[b.from..b.to];
    match b.feed {
        Some(count) => {
            keep(&mut b.line, b.most, &mut b.is_long, &held[..count]);
            b.feed = first_feed(&held[count + 1..]);
            b.from += count + 1;
            true
        }
        None => {
            keep(&mut b.line, b.most, &mut b.is_long, held);
            b.from = b.to;
            false
        }
    }
}

// Reads at most `room` bytes to the front of the buffer.
fn read_front<R: Source>(source: &mut R, chunk: &mut [u8], room: usize) -> Result<usize, Failed>
    requires some { 0 < room }
    requires fits { room ≤ length chunk.old }
    ensures bound { IfOk result (λ n. n ≤ room) }
    ensures size { length chunk.new ≡ length chunk.old }
    ensures bytes { MatchResult result (λ n. Consumes (R.left source.old) (R.left source.new) (take n chunk.new)
        × (n ≡ 0 → IsAtEnd (R.left source.new))) (λ _. Consumes (R.left source.old) (R.left source.new) []) }
    ensures cause { HasCause (R.faults source.old) (R.faults source.new) result }
{
    source.read(&mut chunk[..room])
}

// Reads once, where nothing is held any more, no more than the limit leaves.
fn fill<R: Source>(b: &mut Buffers, source: &mut R) -> Filled
    requires good { IsGood b.old }
    requires below { b.old.taken < b.old.limit }
    requires more { b.old.ended ≡ false }
    ensures good { IsGood b.new }
    ensures sizes { SameSizes b.old b.new }
    ensures line { SameLine b.old b.new }
    ensures filled { IsFilled result b.old b.new (R.left source.old) (R.left source.new) }
    ensures failed { result ≡ Filled.Failed → Rose (R.faults source.old) (R.faults source.new) }
    ensures kept { result ≢ Filled.Failed → R.faults source.new ≡ R.faults source.old }
{
    let room = (b.limit - b.taken).min(b.chunk.len() as u64) as usize;
    b.from = 0;
    b.to = 0;
    b.feed = None;
    match read_front(source, b.chunk.as_mut_slice(), room) {
        Ok(0) => {
            b.ended = true;
            Filled::Ended
        }
        Ok(count) => {
            b.to = count;
            b.feed = first_feed(&b.chunk[..count]);
            b.taken += count as u64;
            if b.taken == b.limit {
                Filled::Limit
            } else {
                Filled::More
            }
        }
        Err(Failed) => Filled::Failed,
    }
}

// What a line in the buffer is.
fn line_found(b: &Buffers) -> NextLine
    ensures { result ≡ line_found b.now.is_long }
{
    if b.is_long {
        NextLine::TooLong
    } else {
        NextLine::Line
    }
}

/// What the source has next.
pub fn next_of<R: Source>(b: &mut Buffers, source: &mut R) -> NextLine
    requires good { IsGood b.old }
    requires below { b.old.taken < b.old.limit }
    requires none { b.old.ended ≡ true → held_of b.old ≡ [] }
    ensures good { IsGood b.new }
    ensures sizes { SameSizes b.old b.new }
    ensures none { b.new.ended ≡ true → held_of b.new ≡ [] }
    ensures takes { AnswersNext result b.old b.new (R.left source.old) (R.left source.new) }
    ensures unread { (b.old.ended ≡ true) ⊎ ¬ Lacks line_feed (held_of b.old) → source.new ≡ source.old }
    ensures failed { result ≡ NextLine.Failed → Rose (R.faults source.old) (R.faults source.new) }
    ensures kept { result ≢ NextLine.Failed → R.faults source.new ≡ R.faults source.old }
{
    b.line.clear();
    b.is_long = false;
    if b.ended {
        return NextLine::End;
    }
    loop {
        if take_front(b) {
            return line_found(b);
        }
        match fill(b, source) {
            Filled::More => {}
            Filled::Ended if b.line.is_empty() => return NextLine::End,
            Filled::Ended => return line_found(b),
            Filled::Failed => return NextLine::Failed,
            Filled::Limit => return NextLine::Limit,
        }
    }
}
