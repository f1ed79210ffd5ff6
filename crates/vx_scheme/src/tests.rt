use crate::{Ident, Idents, List, Text, copy_idents};
use std::test::Fail;

#[test]
fn texts(rt: HostRuntime) -> Result<(), Fail> {
    let mut text = Text::with_room(rt.alloc(), 16)?;
    text.push_str("npm/")?;
    text.push_number(340282366920938463463374607431768211455)?;
    text.push_front("vers:")?;
    assert_eq!(rt;
        text.as_str(),
        "vers:npm/340282366920938463463374607431768211455"
    );
    assert_eq!(rt; Text::copy_of(rt.alloc(), "npm")?.as_str(), "npm");
    Ok(())
}

#[test]
fn lists(rt: HostRuntime) -> Result<(), Fail> {
    let mut list = List::with_room(rt.alloc(), 2)?;
    list.push(7u64)?;
    list.push(8)?;
    assert_eq!(rt; list.as_slice(), [7, 8].as_slice());
    assert_eq!(rt; List::one(rt.alloc(), 4u64)?.as_slice(), [4].as_slice());
    Ok(())
}

#[test]
fn copies(rt: HostRuntime) -> Result<(), Fail> {
    let mut idents = Idents::new(rt.alloc());
    idents.push(Ident::Word(Text::copy_of(rt.alloc(), "rc")?))?;
    idents.push(Ident::Number(1))?;
    let copied = copy_idents(rt.alloc(), &idents)?;
    assert!(rt; matches!(copied.as_slice(), [Ident::Word(_), Ident::Number(1)]));
    Ok(())
}
