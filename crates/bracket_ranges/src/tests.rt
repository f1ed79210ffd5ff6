use crate::{MavenRange, NugetRange};
use std::alloc::Global;
use std::test::Fail;
use vx_scheme::{Cut, Domain, Native, NoMemory, RangeFault, Scheme, Span, Spans, Text};

// A cut as a text: the side of the version, the version, and the mark.
fn push_cut<S: Scheme>(out: &mut Text, cut: &Option<Cut<S::Version>>) -> Result<(), NoMemory> {
    let Some(cut) = cut else {
        return out.push_str("-");
    };
    out.push_str(if cut.after { "+" } else { "" })?;
    S::write(&cut.version, out)?;
    out.push_str("@")?;
    out.push_number(u128::from(cut.mark))
}

fn push_spans<S: Scheme>(out: &mut Text, spans: &[Span<S::Version>]) -> Result<(), NoMemory> {
    for span in spans {
        out.push_str(" ")?;
        push_cut::<S>(out, &span.lower)?;
        out.push_str("..")?;
        push_cut::<S>(out, &span.upper)?;
    }
    out.push_str(";")
}

// The spans that a range text makes, as a text.
fn made<N: Native>(alloc: Global, text: &str) -> Result<Text, RangeFault>
    requires { N.Offers N.usual }
{
    let bounds = N::bounds(alloc, text, N::default_domain())?;
    let mut out = Text::new(alloc);
    for terms in bounds.as_slice() {
        for spans in terms.as_slice() {
            push_spans::<N>(&mut out, spans.as_slice())?;
        }
    }
    Ok(out)
}

#[test]
fn makes_spans(rt: HostRuntime) -> Result<(), Fail> {
    let made = made::<MavenRange>(rt.alloc(), "(1,1.0],( 1 ,2),[3]")?;
    assert_eq!(rt; made.as_str(), " +1@0..2@1 3@2..+3@3;");
    Ok(())
}

#[test]
fn refuses(rt: HostRuntime) {
    let fault = made::<NugetRange>(rt.alloc(), "[1.0] , [2.0]").err();
    assert_eq!(rt; fault, Some(RangeFault::Syntax(6)));
}

#[test]
fn prints_spans(rt: HostRuntime) -> Result<(), Fail> {
    let alloc = rt.alloc();
    let upper = Some(Cut {
        version: NugetRange::copy(alloc, &NugetRange::read(alloc, "1.0")?)?,
        after: true,
        mark: 3,
    });
    let spans = Spans::one(alloc, Span { lower: None, upper })?;
    let printed = NugetRange::unbounds(alloc, &spans, Domain::All)?;
    assert_eq!(rt; printed.as_str(), "(,1.0.0]");
    Ok(())
}
