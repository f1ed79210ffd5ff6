use crate::Cargo;
use std::alloc::Global;
use std::test::Fail;
use vx_scheme::{
    Cut, Domain, Native, NoMemory, RangeFault, Scheme, Span, Spans, Text, VersionFault,
};

// The normal text of a copy of the version that a text spells.
fn normalized<S: Scheme>(alloc: Global, text: &str) -> Result<Text, VersionFault> {
    let version = S::copy(alloc, &S::read(alloc, text)?)?;
    let mut normal = Text::new(alloc);
    S::write(&version, &mut normal)?;
    Ok(normal)
}

#[test]
fn reads_copies_and_writes(rt: HostRuntime) -> Result<(), Fail> {
    let normal = normalized::<Cargo>(rt.alloc(), "1.0.0-alpha.1+exp.sha")?;
    assert_eq!(rt; normal.as_str(), "1.0.0-alpha.1");
    Ok(())
}

// A cut as a text: the side of the version, the version, and the mark.
fn push_cut<S: Scheme>(out: &mut Text, cut: &Option<Cut<S::Version>>) -> Result<(), NoMemory> {
    let Some(cut) = cut else {
        return out.push_str("-");
    };
    out.push_str(if cut.after { "+" } else { "" })?;
    S::write(&cut.version, out)?;
    out.push_str("@")?;
    out.push_number(u128::from(cut.mark))
}

// The terms that a range text makes, as a text.
fn made<N: Native>(alloc: Global, text: &str, domain: Domain) -> Result<Text, RangeFault>
    requires { N.Offers domain }
{
    let bounds = N::bounds(alloc, text, domain)?;
    let mut out = Text::new(alloc);
    for terms in bounds.as_slice() {
        for spans in terms.as_slice() {
            out.push_str(";")?;
            for span in spans.as_slice() {
                push_cut::<N>(&mut out, &span.lower)?;
                out.push_str("..")?;
                push_cut::<N>(&mut out, &span.upper)?;
            }
        }
    }
    Ok(out)
}

#[test]
fn makes_spans(rt: HostRuntime) -> Result<(), Fail> {
    let made = made::<Cargo>(rt.alloc(), ">= 1.2, ^0.0.3-rc", Domain::Releases)?;
    assert_eq!(rt; made.as_str(), ";1.2.0@0..-;0.0.3-rc@1..+0.0.3@2");
    Ok(())
}

#[test]
fn refuses(rt: HostRuntime) {
    let text = "1 , ~1.18446744073709551615.3";
    let fault = made::<Cargo>(rt.alloc(), text, Domain::Releases).err();
    assert_eq!(rt; fault, Some(RangeFault::Numeral(4)));
}

#[test]
fn prints_spans(rt: HostRuntime) -> Result<(), Fail> {
    let alloc = rt.alloc();
    let upper = Some(Cut {
        version: Cargo::read(alloc, "1.2.3")?,
        after: true,
        mark: 3,
    });
    let spans = Spans::one(alloc, Span { lower: None, upper })?;
    let printed = Cargo::unbounds(alloc, &spans, Domain::Releases)?;
    assert_eq!(rt; printed.as_str(), "<=1.2.3");
    Ok(())
}
