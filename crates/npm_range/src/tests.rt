use crate::NpmRange;
use crate::back::text_of_spans;
use std::alloc::Global;
use std::test::Fail;
use vx_scheme::{Domain, Native, RangeFault, Span, Spans, Text};

/// The text of the first spans that a text makes.
fn first_printed(alloc: Global, text: &str) -> Result<Text, Fail> {
    let bounds = NpmRange::bounds(alloc, text, Domain::All)?;
    let Some(terms) = bounds.as_slice().first() else {
        return Ok(Text::new(alloc));
    };
    let Some(spans) = terms.as_slice().first() else {
        return Ok(Text::new(alloc));
    };
    Ok(text_of_spans(alloc, spans.as_slice())?)
}

#[test]
fn spans_are_made(rt: HostRuntime) -> Result<(), Fail> {
    let text = first_printed(rt.alloc(), "^0.1 <9 || 1")?;
    assert_eq!(rt; text.as_str(), ">=0.1.0 <0.2.0-0");
    Ok(())
}

#[test]
fn the_first_refusal_is_named(rt: HostRuntime) {
    let refused = NpmRange::bounds(rt.alloc(), "1 || 2 foo", Domain::All).err();
    assert_eq!(rt; refused, Some(RangeFault::Syntax(7)));
}

#[test]
fn spans_are_printed(rt: HostRuntime) -> Result<(), Fail> {
    let alloc = rt.alloc();
    let every = Spans::one(
        alloc,
        Span {
            lower: None,
            upper: None,
        },
    )?;
    let text = NpmRange::unbounds(alloc, &every, Domain::Releases)?;
    assert_eq!(rt; text.as_str(), "*");
    Ok(())
}
