use super::*;
use std::test::Fail;
use vx_scheme::Text;

#[test]
fn cuts_texts(rt: HostRuntime) -> Result<(), Fail> {
    let found = pieces(rt.alloc(), " a , ,b", b',')?;
    let want = [
        Piece { start: 1, end: 2 },
        Piece { start: 4, end: 4 },
        Piece { start: 6, end: 7 },
    ];
    assert_eq!(rt; found.as_slice(), want.as_slice());
    let joined = parts(rt.alloc(), "a,,b", ',')?;
    assert_eq!(rt; joined.as_slice(), ["a", "", "b"].as_slice());
    Ok(())
}

#[test]
fn folds_letters(rt: HostRuntime) -> Result<(), Fail> {
    let low = lower(rt.alloc(), "aZ[@`{\u{c9}")?;
    assert_eq!(rt; low.as_str(), "az[@`{\u{c9}");
    Ok(())
}

#[test]
fn escapes_and_unescapes(rt: HostRuntime) -> Result<(), Fail> {
    let mut out = Text::copy_of(rt.alloc(), "=")?;
    escape("aZ9.-_~:/+%\u{e9}", &mut out)?;
    assert_eq!(rt; out.as_str(), "=aZ9.-_~:%2F%2B%25%C3%A9");
    let read = unescape(rt.alloc(), "%C3%A9%c3%a9+")?;
    assert_eq!(rt; read.as_str(), "\u{e9}\u{e9}+");
    let back = round_trip(rt.alloc(), "/\u{e9}")?;
    assert_eq!(rt; back.as_str(), "/\u{e9}");
    Ok(())
}

#[test]
fn refuses_escapes(rt: HostRuntime) {
    let refused = unescape(rt.alloc(), "%41%4g%FF");
    assert!(rt; matches!(refused, Err(EscapeFault::BadEscape(3))));
}
