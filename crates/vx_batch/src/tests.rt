use crate::{
    Answer, Sums, answer, answer_to_drill, answer_to_line, batch, drill, drill_line, split,
};
use std::test::Fail;
use vx_lines::{LoopEnd, MemorySink, PlainSource};
use vx_scheme::NoMemory;

// Whether a line is answered so, where memory was found.
fn is_answer(found: &Result<Answer, NoMemory>, ok: bool, text: &str) -> bool {
    match found {
        Ok(answer) => answer.ok == ok && answer.text.as_str() == text,
        Err(_) => false,
    }
}

#[test]
fn fields_and_lines_are_answered_alike(rt: HostRuntime) -> Result<(), Fail> {
    let line = "has\tvers:gem/<1.a\t1.a.0.b";
    let fields = split(rt.alloc(), line)?;
    assert!(rt; is_answer(&answer(rt.alloc(), &fields), true, "ok\tyes"));
    let told = answer_to_line(rt.alloc(), line.as_bytes());
    assert!(rt; is_answer(&told, true, "ok\tyes"));
    Ok(())
}

#[test]
fn the_input_is_read_below_its_limit(rt: HostRuntime) -> Result<(), Fail> {
    let alloc = rt.alloc();
    let input = b"purl\tpkg:gem/x\np";
    let mut source = PlainSource::new(Vec::from_slice(alloc, input)?);
    let made = MemorySink::with_room(alloc, 100, Vec::new(alloc));
    let mut sink = made.ok().ok_or("it has room")?;
    let end = batch(alloc, 16, &mut source, &mut sink);
    assert!(rt; end == LoopEnd::InputLimit && sink.bytes().is_empty());
    Ok(())
}

// The lines of a drill from 1 to 8.
const DRILL: &str = "\
to-vers\tpypi\tall\t==2.1.*,!=2.1.1
to-vers\tmaven\tall\t[3.2,3.2.2]
to-vers\tgem\treleases\t~> 4.3.3
to-vers\tdeb\tall\t>= 5.4-4, << 6.4
to-vers\trpm\tall\t>= 6.5-1
canon\tvers:nuget/<8.0|>=7.6.7|>=7.6
purl\tpkg:PyPI/Name_1.7@7?z=7&y=1
to-vers\tnpm\tall\t^2.8.8";

#[test]
fn the_lines_of_a_drill_are_made_of_their_numbers(rt: HostRuntime) -> Result<(), Fail> {
    let alloc = rt.alloc();
    let mut lines = DRILL.lines();
    for i in 0..8 {
        let line = drill_line(alloc, i + 1)?;
        assert_eq!(rt; lines.next(), Some(line.as_str()));
    }
    Ok(())
}

#[test]
fn a_drill_sums_its_answers(rt: HostRuntime) -> Result<(), Fail> {
    let alloc = rt.alloc();
    let sums = drill(alloc, 8)?;
    let wanted = Sums {
        lines: 8,
        ok: 8,
        no: 0,
        bytes: 247,
    };
    assert!(rt; sums == wanted);
    let told = answer_to_drill(alloc, 8);
    assert!(rt; is_answer(&told, true, "lines 8\nok 8\nno 0\nbytes 247"));
    Ok(())
}
