ghost use Rattle.std.specs.Prelude.{◌≡◌, ◌++◌, OnOk};
ghost use Rattle.vx_tests.specs.Levels.{normal_of};

use crate::version::Level;
use std::alloc::Global;
use std::cmp::Ordering;
use vx_scheme::{NoMemory, Scheme, SchemeName, Text, VersionFault};

/// The scheme of the tests.
pub struct Levels;

impl Scheme for Levels {
    ghost use Rattle.std.specs.Prelude.{⊤};
    ghost use Rattle.vx_scheme.specs.declared.name.SchemeName.TheVariants as name_of;
    ghost use Rattle.vx_tests.specs.Levels.{order_of, order_total, IsVersion, Spells, normal_of, texts};

    type Version = Level;

    ghost name = { name_of.Npm };

    ghost IsVersion = { IsVersion };

    ghost IsWithin = { λ _. ⊤ };

    ghost order = { order_of };

    ghost IsRelease = { λ _. ⊤ };

    ghost Spells = { Spells };

    ghost normal = { normal_of };

    fn scheme() -> SchemeName {
        SchemeName::Npm
    }

    fn read(_alloc: Global, text: &str) -> Result<Level, VersionFault> {
        match text.as_bytes() {
            [level @ b'0'..=b'9', tag @ b'0'..=b'9'] => Ok(Level {
                level: *level - b'0',
                tag: *tag - b'0',
            }),
            _ => Err(VersionFault::NotAVersion),
        }
    }

    fn write(version: &Level, out: &mut Text) -> Result<(), NoMemory> {
        let _level = version.level;
        let mut text = Text::new(out.alloc());
        write_digits(version, &mut text)?;
        out.push_str(text.as_str())
    }

    fn compare(a: &Level, b: &Level) -> Ordering {
        a.level.cmp(&b.level)
    }

    fn is_release(version: &Level) -> bool {
        let _level = version.level;
        true
    }

    fn copy(_alloc: Global, version: &Level) -> Result<Level, NoMemory> {
        Ok(Level {
            level: version.level,
            tag: version.tag,
        })
    }

    ghost total = { order_total };

    ghost texts = { texts };
}

fn write_digits(version: &Level, out: &mut Text) -> Result<(), NoMemory>
    ensures { OnOk result (out.new ≡ out.old ++ normal_of version.now) }
{
    out.push_number(version.level as u128)?;
    out.push_number(version.tag as u128)
}
