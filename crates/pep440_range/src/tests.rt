use crate::PypiRange;
use pep440_scheme::Pep440Version;
use std::alloc::Global;
use std::test::Fail;
use vx_scheme::{Cut, Domain, EndKind, Native, RangeFault, Scheme, Span, Spans, Text};

/// Appends a cut, with its sign before or behind it.
fn push_cut(out: &mut Text, cut: &Option<Cut<Pep440Version>>, is_lower: bool) -> Result<(), Fail> {
    let Some(cut) = cut else {
        out.push_str("-")?;
        return Ok(());
    };
    if is_lower {
        out.push_str(if cut.after { "(" } else { "[" })?;
    }
    PypiRange::write(&cut.version, out)?;
    if !is_lower {
        out.push_str(if cut.after { "]" } else { ")" })?;
    }
    Ok(())
}

/// The spans of each term that a text makes.
fn printed(alloc: Global, text: &str, domain: Domain) -> Result<Text, Fail> {
    let bounds = PypiRange::bounds(alloc, text, domain)?;
    let mut out = Text::new(alloc);
    let Some(terms) = bounds.as_slice().first() else {
        return Ok(out);
    };
    for spans in terms.as_slice() {
        for span in spans.as_slice() {
            push_cut(&mut out, &span.lower, true)?;
            out.push_str(",")?;
            push_cut(&mut out, &span.upper, false)?;
            out.push_str(";")?;
        }
    }
    Ok(out)
}

#[test]
fn spans_are_made(rt: HostRuntime) -> Result<(), Fail> {
    let text = printed(rt.alloc(), ">1.7, <= 2 ,,!=1.*", Domain::Releases)?;
    assert_eq!(rt; text.as_str(), "(1.7,-;-,2];-,1);[2,-;");
    Ok(())
}

#[test]
fn the_first_refusal_is_named(rt: HostRuntime) {
    let text = "==340282366920938463463374607431768211455.*,>1";
    let refused = PypiRange::bounds(rt.alloc(), text, Domain::All).err();
    let wanted = RangeFault::NoEndpoint(EndKind::GreaterThanFinal, 44);
    assert_eq!(rt; refused, Some(wanted));
}

#[test]
fn spans_are_printed(rt: HostRuntime) -> Result<(), Fail> {
    let alloc = rt.alloc();
    let upper = Some(Cut {
        version: PypiRange::copy(alloc, &PypiRange::read(alloc, "v2.0")?)?,
        after: false,
        mark: 2,
    });
    let spans = Spans::one(alloc, Span { lower: None, upper })?;
    let text = PypiRange::unbounds(alloc, &spans, Domain::All)?;
    assert_eq!(rt; text.as_str(), "<=2.0,!=2.0");
    Ok(())
}
