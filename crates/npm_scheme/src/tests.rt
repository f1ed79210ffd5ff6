use crate::{Npm, lowest, plain_version_of_parts, take_apart, version_of_parts};
use std::alloc::Global;
use std::test::Fail;
use vx_scheme::{NoMemory, Scheme, Text};

// The normal text of a version.
fn normal_of<S: Scheme>(alloc: Global, version: &S::Version) -> Result<Text, NoMemory> {
    let mut normal = Text::new(alloc);
    S::write(version, &mut normal)?;
    Ok(normal)
}

#[test]
fn reads_copies_and_writes(rt: HostRuntime) -> Result<(), Fail> {
    let alloc = rt.alloc();
    let version = Npm::copy(alloc, &Npm::read(alloc, "1.0.0-x-y-z.--.0+001")?)?;
    let normal = normal_of::<Npm>(alloc, &version)?;
    assert_eq!(rt; normal.as_str(), "1.0.0-x-y-z.--.0");
    Ok(())
}

#[test]
fn makes_versions_of_parts(rt: HostRuntime) -> Result<(), Fail> {
    let alloc = rt.alloc();
    let written = take_apart("4.5.6-rc.7+b.08").ok_or("it is a version")?;
    let version = version_of_parts(alloc, &written)?;
    assert_eq!(rt; version.build.as_str(), "b.08");
    let plain = plain_version_of_parts(alloc, &written)?;
    assert_eq!(rt; normal_of::<Npm>(alloc, &plain)?.as_str(), "4.5.6-rc.7");
    Ok(())
}

#[test]
fn makes_the_lowest_version(rt: HostRuntime) -> Result<(), Fail> {
    let low = lowest(rt.alloc(), 1, 2, 3)?;
    assert_eq!(rt; normal_of::<Npm>(rt.alloc(), &low)?.as_str(), "1.2.3-0");
    Ok(())
}
