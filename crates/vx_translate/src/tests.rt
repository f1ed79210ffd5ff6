use crate::{CheckRefusal, Refusal, canon, check, from_vers, has, to_vers};
use purl_core::PurlFault;
use std::test::Fail;
use vx_scheme::{Domain, SchemeName};

#[test]
fn ranges_are_translated(rt: HostRuntime) -> Result<(), Fail> {
    let made = to_vers(rt.alloc(), SchemeName::Npm, Domain::All, "^1.2.3")?;
    assert_eq!(rt; made.as_str(), "vers:npm/>=1.2.3|<2.0.0-0");
    let refused = to_vers(rt.alloc(), SchemeName::Maven, Domain::All, "[2],[1");
    assert_eq!(rt; refused.err(), Some(Refusal::Syntax(4)));
    Ok(())
}

#[test]
fn lists_are_translated_back(rt: HostRuntime) -> Result<(), Fail> {
    let made = from_vers(rt.alloc(), None, "vers:pypi/>=1.0|!=1.5|<2.0")?;
    assert_eq!(rt; made.as_str(), ">=1.0,<2.0,!=1.5");
    Ok(())
}

#[test]
fn lists_are_simplified(rt: HostRuntime) -> Result<(), Fail> {
    let made = canon(rt.alloc(), "vers:npm/>=2.0.0|1.0.0|>=1.5.0|!=3.0.0")?;
    assert_eq!(rt; made.as_str(), "vers:npm/1.0.0|>=1.5.0|!=3.0.0");
    Ok(())
}

#[test]
fn lists_hold_versions(rt: HostRuntime) {
    let held = has(rt.alloc(), "vers:maven/1.0|<2", "1");
    assert_eq!(rt; held, Ok(true));
}

#[test]
fn lists_hold_the_versions_of_package_urls(rt: HostRuntime) {
    let held = check(rt.alloc(), "pkg:rpm/curl@7.50.3-1", "vers:rpm/>=1:7.0");
    assert_eq!(rt; held, Ok(false));
    let refused = check(rt.alloc(), "pkg", "vers:npm/*");
    assert_eq!(rt; refused, Err(CheckRefusal::BadPurl(PurlFault::Scheme)));
}
