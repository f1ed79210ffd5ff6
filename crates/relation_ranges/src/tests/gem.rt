use super::made;
use crate::GemRange;
use std::test::Fail;
use vx_scheme::{Cut, Domain, EndKind, Native, RangeFault, Scheme, Span, Spans};

#[test]
fn makes_spans(rt: HostRuntime) -> Result<(), Fail> {
    let made = made::<GemRange>(rt.alloc(), "~>2, != 1.5.0,, > 5.a", Domain::Releases)?;
    assert_eq!(rt;
        made.as_str(),
        " 2@0..3@1; -..1.5.0@2 +1.5.0@3..-; +5.a@4..-;"
    );
    Ok(())
}

#[test]
fn refuses(rt: HostRuntime) {
    let fault = made::<GemRange>(rt.alloc(), "> 1, ~> 2, 1", Domain::All).err();
    assert_eq!(rt; fault, Some(RangeFault::NoEndpoint(EndKind::Twiddle, 5)));
}

#[test]
fn prints_spans(rt: HostRuntime) -> Result<(), Fail> {
    let alloc = rt.alloc();
    let upper = Some(Cut {
        version: GemRange::copy(alloc, &GemRange::read(alloc, "1.2")?)?,
        after: true,
        mark: 3,
    });
    let spans = Spans::one(alloc, Span { lower: None, upper })?;
    let printed = GemRange::unbounds(alloc, &spans, Domain::All)?;
    assert_eq!(rt; printed.as_str(), "<= 1.2");
    Ok(())
}
