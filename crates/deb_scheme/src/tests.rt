use crate::Deb;
use std::alloc::Global;
use std::test::Fail;
use vx_scheme::{Scheme, Text, VersionFault};

// The normal text of a copy of the version that a text spells.
fn normalized<S: Scheme>(alloc: Global, text: &str) -> Result<Text, VersionFault> {
    let version = S::copy(alloc, &S::read(alloc, text)?)?;
    let mut normal = Text::new(alloc);
    S::write(&version, &mut normal)?;
    Ok(normal)
}

#[test]
fn reads_copies_and_writes(rt: HostRuntime) -> Result<(), Fail> {
    let normal = normalized::<Deb>(rt.alloc(), "007:a-b-1~5+6")?;
    assert_eq!(rt; normal.as_str(), "007:a-b-1~5+6");
    Ok(())
}
