use super::made;
use crate::RpmRange;
use std::test::Fail;
use vx_scheme::{Cut, Domain, EndKind, Native, RangeFault, Scheme, Span, Spans};

#[test]
fn makes_spans(rt: HostRuntime) -> Result<(), Fail> {
    let made = made::<RpmRange>(rt.alloc(), "=1:1.0-5,,> 2", Domain::Releases)?;
    assert_eq!(rt; made.as_str(), " 1:1.0@0..+1:1.0@1; +2@2..-;");
    Ok(())
}

#[test]
fn refuses(rt: HostRuntime) {
    let fault = made::<RpmRange>(rt.alloc(), "< 1, > 2-1, > 2", Domain::All).err();
    assert_eq!(rt; fault, Some(RangeFault::NoEndpoint(EndKind::NoRelease, 12)));
}

#[test]
fn prints_spans(rt: HostRuntime) -> Result<(), Fail> {
    let alloc = rt.alloc();
    let upper = Some(Cut {
        version: RpmRange::copy(alloc, &RpmRange::read(alloc, "1:2-1")?)?,
        after: true,
        mark: 3,
    });
    let spans = Spans::one(alloc, Span { lower: None, upper })?;
    let printed = RpmRange::unbounds(alloc, &spans, Domain::Releases)?;
    assert_eq!(rt; printed.as_str(), "<= 1:2");
    Ok(())
}
