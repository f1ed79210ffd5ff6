//! Asks the crates three questions, and prints their answers.
#![tactic(auto)]

use purl_types::canonical;
use std::io;
use vx_scheme::{Domain, SchemeName};
use vx_translate::{has, to_vers};

fn main(rt: HostRuntime) -> io::Result<()> {
    let alloc = rt.alloc();
    // The VERS text of an npm range, pre-releases among its versions.
    match to_vers(alloc, SchemeName::Npm, Domain::All, "^1.2.3 || 3.x") {
        Ok(vers) => println!(rt; "{}", vers.as_str())?,
        Err(refusal) => println!(rt; "{refusal:?}")?,
    }
    // Whether a VERS text holds a version.
    match has(alloc, "vers:deb/>=2.36|<2.37", "2.37~rc1") {
        Ok(is_held) => println!(rt; "{is_held}")?,
        Err(refusal) => println!(rt; "{refusal:?}")?,
    }
    // The canonical text of a package URL.
    match canonical(alloc, "PKG:PyPI/Django_App@4.2?B=2&a=1") {
        Ok(purl) => println!(rt; "{}", purl.as_str())?,
        Err(fault) => println!(rt; "{fault:?}")?,
    }
    Ok(())
}
