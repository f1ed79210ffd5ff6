use super::*;
use purl_core::{PurlFault, read, to_text};
use std::test::Fail;

#[test]
fn canonical_texts(rt: HostRuntime) -> Result<(), Fail> {
    let text = canonical(rt.alloc(), "PKG:PyPI/N_S/Django_App@1.0?B=2&a=1")?;
    assert_eq!(rt; text.as_str(), "pkg:pypi/N_S/django-app@1.0?a=1&b=2");
    let refused = canonical(rt.alloc(), "pkg:gem/x%4").err();
    assert_eq!(rt; refused, Some(PurlFault::Escape(9)));
    Ok(())
}

#[test]
fn compares(rt: HostRuntime) {
    let told = same(rt.alloc(), "pkg:npm/a?x=1&Y=2", "pkg:npm/A?y=2&X=1&z=");
    assert_eq!(rt; told, Ok(true));
}

#[test]
fn folds(rt: HostRuntime) -> Result<(), Fail> {
    let purl = fold(rt.alloc(), read(rt.alloc(), "pkg:deb/N/M/A@1")?)?;
    assert_eq!(rt; to_text(rt.alloc(), &purl)?.as_str(), "pkg:deb/n/m/a@1");
    Ok(())
}

#[test]
fn gives_candidates(rt: HostRuntime) -> Result<(), Fail> {
    let purl = read(rt.alloc(), "PKG:Rpm/x@1%2B2?arch=a&EPOCH=01")?;
    let found = candidate(rt.alloc(), purl)?.ok_or("it has a version")?;
    assert_eq!(rt; found.as_str(), "01:1+2");
    Ok(())
}
