use crate::{Pep440Version, Pypi, bump, dev0, next_pre, succ};
use std::alloc::Global;
use std::test::Fail;
use vx_scheme::{NoMemory, Scheme, StepFault, Text, VersionFault};

// The normal text of a version.
fn normal_of<S: Scheme>(alloc: Global, version: &S::Version) -> Result<Text, NoMemory> {
    let mut normal = Text::new(alloc);
    S::write(version, &mut normal)?;
    Ok(normal)
}

// The normal text of a copy of the version that a text spells.
fn normalized<S: Scheme>(alloc: Global, text: &str) -> Result<Text, VersionFault> {
    let version = S::copy(alloc, &S::read(alloc, text)?)?;
    Ok(normal_of::<S>(alloc, &version)?)
}

#[test]
fn reads_copies_and_writes(rt: HostRuntime) -> Result<(), Fail> {
    let normal = normalized::<Pypi>(rt.alloc(), "v1!1.0.A-2_Post.3-DEV_4+x.05")?;
    assert_eq!(rt; normal.as_str(), "1!1.0a2.post3.dev4+x.5");
    Ok(())
}

#[test]
fn answers_the_next_public_version(rt: HostRuntime) -> Result<(), Fail> {
    let alloc = rt.alloc();
    let version = Pypi::read(alloc, "1.0a1.post2.dev3")?;
    assert!(rt; version.local.is_empty());
    let next = succ(alloc, &version)?;
    assert_eq!(rt;
        normal_of::<Pypi>(alloc, &next)?.as_str(),
        "1.0a1.post2.dev4"
    );
    Ok(())
}

// The version that a call makes of a public one.
fn bumped(alloc: Global, version: &Pep440Version) -> Option<Result<Pep440Version, StepFault>> {
    if version.local.is_empty() {
        Some(bump(alloc, version))
    } else {
        None
    }
}

#[test]
fn bumps(rt: HostRuntime) -> Result<(), Fail> {
    let alloc = rt.alloc();
    let version = Pypi::read(alloc, "1!1.9.0rc1.post2.dev3")?;
    let next = bumped(alloc, &version).ok_or("it is public")??;
    assert_eq!(rt; normal_of::<Pypi>(alloc, &next)?.as_str(), "1!1.9.1");
    Ok(())
}

#[test]
fn raises_pre_releases(rt: HostRuntime) -> Result<(), Fail> {
    let alloc = rt.alloc();
    let version = Pypi::read(alloc, "1.0b2")?;
    assert!(rt; version.local.is_empty() && version.pre.is_some());
    assert!(rt; version.post.is_none() && version.dev.is_none());
    let next = next_pre(alloc, &version)?;
    assert_eq!(rt; normal_of::<Pypi>(alloc, &next)?.as_str(), "1.0b3.dev0");
    let low = dev0(alloc, &version)?;
    assert_eq!(rt; normal_of::<Pypi>(alloc, &low)?.as_str(), "1.0b2.dev0");
    Ok(())
}
