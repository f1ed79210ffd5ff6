ghost use Rattle.std.specs.Prelude.{◌≡◌, ◌++◌, OnOk, OnErr, map};
ghost use Rattle.std.specs.List.{join_with_byte};
ghost use Rattle.vx_text.specs.Begun.{IsBegunBy};
ghost use Rattle.vx_spec.specs.Signs.{dot, hyphen};
ghost use Rattle.vx_order.specs.Dotted.{tail};
ghost use Rattle.vx_order.specs.Identifiers.{identifier_text};
ghost use Rattle.vx_text.specs.Steps.Between.{mark_before};

use vx_scheme::{Ident, NoMemory, Text};

/// Appends the pre-release of these identifiers, if there are any: `-`, and the identifiers with a dot between each two.
pub fn push_pre_release(out: &mut Text, idents: &[Ident]) -> Result<(), NoMemory>
    ensures ok { OnOk result (out.new ≡ out.old ++ tail hyphen (map identifier_text idents.now)) }
    ensures begun { IsBegunBy out.old out.new }
{
    if idents.is_empty() {
        return Ok(());
    }
    out.push_str("-")?;
    push_dotted(out, idents)
}

/// Appends identifiers with a dot between each two.
pub fn push_dotted(out: &mut Text, idents: &[Ident]) -> Result<(), NoMemory>
    ensures ok { OnOk result (out.new ≡ out.old ++ join_with_byte dot (map identifier_text idents.now)) }
    ensures begun { IsBegunBy out.old out.new }
{
    for (i, ident) in idents.iter().enumerate() {
        push_dot(out, i)?;
        push_ident(out, ident)?;
    }
    Ok(())
}

// What stands before the identifier at a place.
fn push_dot(out: &mut Text, i: usize) -> Result<(), NoMemory>
    ensures ok { OnOk result (out.new ≡ out.old ++ mark_before dot i) }
    ensures err { OnErr result (out.new ≡ out.old) }
{
    if i == 0 {
        return Ok(());
    }
    out.push_str(".")
}

fn push_ident(out: &mut Text, ident: &Ident) -> Result<(), NoMemory>
    ensures ok { OnOk result (out.new ≡ out.old ++ identifier_text ident.now) }
    ensures err { OnErr result (out.new ≡ out.old) }
{
    match ident {
        Ident::Number(number) => out.push_number(*number),
        Ident::Word(word) => out.push_str(word.as_str()),
    }
}
