use super::*;
use std::test::Fail;
use vx_scheme::Text;

#[test]
fn writes_what_it_reads(rt: HostRuntime) -> Result<(), Fail> {
    let purl = read(rt.alloc(), "PKG:t//@a/./b%2f@1%40?k=v&B=&J=%c3%a9#./s/..//")?;
    let text = to_text(rt.alloc(), &purl)?;
    assert_eq!(rt; text.as_str(), "pkg:t/%40a/./b%2F@1%40?j=%C3%A9&k=v#s");
    let mut out = Text::copy_of(rt.alloc(), "=")?;
    write(&purl, &mut out)?;
    assert_eq!(rt; out.as_str().strip_prefix('='), Some(text.as_str()));
    Ok(())
}

#[test]
fn refuses(rt: HostRuntime) {
    let fault = read(rt.alloc(), "pkg:gem/x?a=1&A=2").err();
    assert_eq!(rt; fault, Some(PurlFault::DuplicateKey(14)));
}

#[test]
fn holds_pairs(rt: HostRuntime) -> Result<(), Fail> {
    let mut pairs = Pairs::with_room(rt.alloc(), 1)?;
    pairs.push(Pair {
        key: Text::copy_of(rt.alloc(), "k")?,
        value: Text::new(rt.alloc()),
    })?;
    assert_eq!(rt; pairs.as_slice().len(), 1);
    Ok(())
}
