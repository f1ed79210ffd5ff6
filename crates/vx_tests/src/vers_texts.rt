use crate::Levels;
use npm_scheme::Npm;
use std::test::Fail;
use vx_scheme::Text;
use vx_vers::{VersFault, read, read_again, write};

#[test]
fn lists_are_read_again(rt: HostRuntime) -> Result<(), Fail> {
    let list = read::<Npm>(rt.alloc(), "vers:npm/<2.0.0|>=1.0.0-a+x|3.0.0%2By")?;
    let again = read_again(rt.alloc(), &list)?;
    let mut text = Text::new(rt.alloc());
    write(&again, &mut text)?;
    assert_eq!(rt; text.as_str(), "vers:npm/>=1.0.0-a|<2.0.0|3.0.0");
    Ok(())
}

#[test]
fn faults_are_named(rt: HostRuntime) {
    let refused = read::<Levels>(rt.alloc(), "vers:npm/20|10|21|11").err();
    assert_eq!(rt; refused, Some(VersFault::Duplicate(3)));
}
