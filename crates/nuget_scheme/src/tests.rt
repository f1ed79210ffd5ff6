use crate::Nuget;
use std::alloc::Global;
use std::test::Fail;
use vx_scheme::{Scheme, Text, VersionFault};

// The normal text of a copy of the version that a text spells.
fn normalized<S: Scheme>(alloc: Global, text: &str) -> Result<Text, VersionFault> {
    let version = S::copy(alloc, &S::read(alloc, text)?)?;
    let mut normal = Text::new(alloc);
    S::write(&version, &mut normal)?;
    Ok(normal)
}

#[test]
fn reads_copies_and_writes(rt: HostRuntime) -> Result<(), Fail> {
    let normal = normalized::<Nuget>(rt.alloc(), "01.2-Beta.007.0a.--+00.x-")?;
    assert_eq!(rt; normal.as_str(), "1.2.0-Beta.7.0a.--");
    Ok(())
}
