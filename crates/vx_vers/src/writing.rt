ghost use Rattle.std.specs.Prelude.{◌≡◌, ◌++◌, OnOk, OnErr, map, codes};
ghost use Rattle.std.specs.List.{join_with_byte};
ghost use Rattle.vx_scheme.specs.Names.{text_of};
ghost use Rattle.vx_text.specs.Escapes.{escaped};
ghost use Rattle.vx_vers.specs.Again.{EachWritable, IsWritable, SpellsSame};
ghost use Rattle.vx_text.specs.Steps.Between.{mark_before};
ghost use Rattle.vx_vers.specs.Steps.Writing.{Extends};
ghost use Rattle.vx_vers.specs.Texts.{sign, constraint_text, constraints_text, vers_text};

use crate::constraints::{Comparator, Constraint, Constraints};
use vx_scheme::{NoMemory, Scheme, Text};
use vx_text::{escape, is_left};

fn push_sign(out: &mut Text, comparator: Comparator) -> Result<(), NoMemory>
    ensures ok { OnOk result (out.new ≡ out.old ++ sign comparator) }
    ensures err { OnErr result (out.new ≡ out.old) }
{
    match comparator {
        Comparator::Equal => Ok(()),
        Comparator::NotEqual => out.push_str("!="),
        Comparator::Less => out.push_str("<"),
        Comparator::LessEqual => out.push_str("<="),
        Comparator::Greater => out.push_str(">"),
        Comparator::GreaterEqual => out.push_str(">="),
    }
}

fn push_bar(out: &mut Text, i: usize) -> Result<(), NoMemory>
    ensures ok { OnOk result (out.new ≡ out.old ++ mark_before 124 i) }
    ensures err { OnErr result (out.new ≡ out.old) }
{
    if i == 0 { Ok(()) } else { out.push_str("|") }
}

/// Appends the normal text of the version, escaped. It is written in place, and once more only where a byte of it must
/// be escaped.
fn push_version<S: Scheme>(out: &mut Text, version: &S::Version) -> Result<(), NoMemory>
    ensures text { OnOk result (out.new ≡ out.old ++ escaped (S.normal version.now)) }
    ensures version { OnOk result (IsWritable S.IsVersion S.IsWithin S.normal version.now) }
    ensures err { OnErr result (out.new ≡ out.old) }
{
    let start = out.as_str().len();
    S::write(version, out)?;
    if is_left(&out.as_str().as_bytes()[start..]) {
        return Ok(());
    }
    out.cut(start);
    push_escaped::<S>(out, version)
}

/// Appends the normal text of the version, escaped.
fn push_escaped<S: Scheme>(out: &mut Text, version: &S::Version) -> Result<(), NoMemory>
    ensures text { OnOk result (out.new ≡ out.old ++ escaped (S.normal version.now)) }
    ensures version { OnOk result (IsWritable S.IsVersion S.IsWithin S.normal version.now) }
    ensures err { OnErr result (out.new ≡ out.old) }
{
    let mut plain = Text::new(out.alloc());
    S::write(version, &mut plain)?;
    let text = plain.as_str();
    escape(text, out)
}

fn push_constraint<S: Scheme>(
    out: &mut Text,
    constraint: &Constraint<S::Version>,
) -> Result<(), NoMemory>
    ensures text { OnOk result (out.new ≡ out.old ++ constraint_text S.normal constraint.now) }
    ensures version { OnOk result (IsWritable S.IsVersion S.IsWithin S.normal constraint.now.version) }
    ensures err { OnErr result (Extends out.old out.new) }
{
    push_sign(out, constraint.comparator)?;
    push_version::<S>(out, &constraint.version)
}

fn push_joined<S: Scheme>(out: &mut Text, list: &[Constraint<S::Version>]) -> Result<(), NoMemory>
    ensures text { OnOk result (out.new ≡ out.old ++ join_with_byte 124 (map (constraint_text S.normal) list.now)) }
    ensures versions { OnOk result (EachWritable S.IsVersion S.IsWithin S.normal list.now) }
    ensures err { OnErr result (Extends out.old out.new) }
{
    for (i, constraint) in list.iter().enumerate() {
        push_bar(out, i)?;
        push_constraint::<S>(out, constraint)?;
    }
    Ok(())
}

fn push_constraints<S: Scheme>(
    out: &mut Text,
    list: &[Constraint<S::Version>],
) -> Result<(), NoMemory>
    ensures text { OnOk result (out.new ≡ out.old ++ constraints_text S.normal list.now) }
    ensures versions { OnOk result (EachWritable S.IsVersion S.IsWithin S.normal list.now) }
    ensures err { OnErr result (Extends out.old out.new) }
{
    match list {
        [] => out.push_str("*"),
        [_, ..] => push_joined::<S>(out, list),
    }
}

fn push_head<S: Scheme>(out: &mut Text) -> Result<(), NoMemory>
    ensures text { OnOk result (out.new ≡ out.old ++ (codes "vers:" ++ text_of S.name)) }
    ensures err { OnErr result (Extends out.old out.new) }
{
    out.push_str("vers:")?;
    out.push_str(S::scheme().name_text())
}

/// Appends the printed text, or the front of it where no memory was found.
fn push_list<S: Scheme>(out: &mut Text, list: &[Constraint<S::Version>]) -> Result<(), NoMemory>
    ensures text { OnOk result (out.new ≡ out.old ++ vers_text S.name S.normal list.now) }
    ensures versions { OnOk result (EachWritable S.IsVersion S.IsWithin S.normal list.now) }
    ensures err { OnErr result (Extends out.old out.new) }
{
    push_head::<S>(out)?;
    out.push_str("/")?;
    push_constraints::<S>(out, list)
}

/// Appends the printed text of the list: `vers:`, the scheme's name, `/` and the constraints parted by `|`, each with
/// its version's normal text escaped; `*` for the empty list. The text spells a list with the same comparators and
/// order-equal versions. A refused call leaves the text as it was. It takes no memory but for `out`, and for a version
/// whose normal text has a byte that must be escaped.
pub fn write<S: Scheme>(list: &Constraints<S>, out: &mut Text) -> Result<(), NoMemory>
    ensures ok { OnOk result (out.new ≡ out.old ++ vers_text S.name S.normal list.now) }
    ensures spells { OnOk result (SpellsSame S.name S.order S.Spells S.IsWithin (vers_text S.name S.normal list.now) list.now) }
    ensures err { OnErr result (out.new ≡ out.old) }
{
    let start = out.as_str().len();
    match push_list::<S>(out, list.as_slice()) {
        Ok(()) => Ok(()),
        Err(refused) => {
            out.cut(start);
            Err(refused)
        }
    }
}
