use crate::{Gem, bump};
use std::alloc::Global;
use std::test::Fail;
use vx_scheme::{Scheme, Text, VersionFault};

// The normal text of a copy of the version that a text spells.
fn normalized<S: Scheme>(alloc: Global, text: &str) -> Result<Text, VersionFault> {
    let version = S::copy(alloc, &S::read(alloc, text)?)?;
    let mut normal = Text::new(alloc);
    S::write(&version, &mut normal)?;
    Ok(normal)
}

#[test]
fn reads_copies_and_writes(rt: HostRuntime) -> Result<(), Fail> {
    let normal = normalized::<Gem>(rt.alloc(), "1--2-a.03b")?;
    assert_eq!(rt; normal.as_str(), "1.pre.pre.2.pre.a.3.b");
    Ok(())
}

#[test]
fn bumps(rt: HostRuntime) -> Result<(), Fail> {
    let alloc = rt.alloc();
    let version = bump(alloc, &Gem::read(alloc, "5.3.1.b.2")?)?;
    let mut normal = Text::new(alloc);
    Gem::write(&version, &mut normal)?;
    assert_eq!(rt; normal.as_str(), "5.4");
    Ok(())
}
